//! The book of terms as a panel: each clause a monitor made from its line, and a seat for each.
//! Seat k is lost on a list of samples exactly where what line k says fails on it, for every list.

#![tactic(auto)]

mod book;
mod clause;
mod rules;
#[cfg(test)]
mod tests;

pub use book::Book;
pub use clause::Clause;
