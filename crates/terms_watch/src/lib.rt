//! A watch on the book of a text, with the clause numbers of its seats. `open` makes it, and promises of every story that follows what the lines of
//! the book say.

#![tactic(auto)]

mod opening;

pub use opening::{ClauseNumbers, open};
