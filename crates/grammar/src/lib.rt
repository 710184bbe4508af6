//! The book of terms: its tree and its text.
//! A text is read exactly if it is the spelling of a book's lines, and any other has one fault, which is told with its place.
//! The line of a seat is handed out as the part of the text that it is.

#![tactic(auto)]

mod clause;
mod fault;
mod line;
mod lines;
mod number;
mod reader;
mod seat;
mod snag;
mod token;
mod tree;
mod word;

pub use clause::ClauseNumber;
pub use fault::{Cause, Fault, Layer, Place};
pub use lines::read_lines;
pub use seat::line_of;
pub use tree::{Line, Term};

#[cfg(test)]
mod tests;
