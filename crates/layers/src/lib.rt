//! Layers over monitors: after, either and allow, each one text for all that it can stand on, and a monitor again.
//! Making a layer renews what is below it, and promises that the layer fails on a list of samples exactly where its sentence holds, for every list.
//! A choice is one of two monitors, as where a layer may be left out, and fails where that one does.

#![tactic(auto)]

mod after;
mod allow;
mod choice;
mod either;
mod passing;
#[cfg(test)]
mod tests;

pub use after::After;
pub use allow::Allow;
pub use choice::Choice;
pub use either::Either;
