//! Programs that call a watch by themselves, and what they know of it by the promises of the calls alone: a story with a list of the caller's own,
//! words that are cut in two, and one list of calls that is played twice.

#![tactic(auto)]

mod halves;
mod plays;
mod visit;

pub use halves::{cut_in_two, deliver_halves};
pub use plays::play_twice;
pub use visit::{Visit, pay_visit};
