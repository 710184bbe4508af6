//! The watch: it reads words, has a panel judge each sample, and keeps for each seat the number of the sample at which it was lost.
//! What each call does is promised as a relation between what the watch was and what it is, by seat, for every panel;
//! and of every sequence of calls, a story, it is promised which seats are lost, which notices were collected and which wait.

#![tactic(auto)]

mod calls;
mod laws;
mod ledger;
mod notice;
mod pieces;
mod story;
mod watch;

pub use laws::{
    alike_tells, answers_tell, chains_tell, notices_compare, numbers_tell, pieces_tell, plays_show,
    waiting_tells,
};
pub use notice::Notice;
pub use pieces::deliver_both;
pub use story::{PlayAnswer, PlayCall, answer_to, play_into};
pub use watch::Watch;
