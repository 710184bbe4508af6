//! Panels: what judges a stream of samples for up to 64 seats at once, and answers the set of the lost seats.
//! A panel of one seat over any monitor loses that seat on exactly the lists of samples on which the monitor fails.

#![tactic(auto)]

mod judging;
mod seats;
mod solo;
#[cfg(test)]
mod tests;

pub use judging::Panel;
pub use seats::Seats;
pub use solo::Solo;
