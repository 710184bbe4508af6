ghost use Rattle.std.specs.Prelude.{◌≡◌};
ghost use Rattle.std.specs.Ordering.{MatchOrdering};
ghost use Rattle.watch.specs.declared.notice.Notice.{Notice};
ghost use Rattle.watch.specs.Order.{Before, OneWaiting};
ghost use Rattle.watch.specs.Falls.{NumbersRight};
ghost use Rattle.watch.specs.InTurn.{PiecesTell, AlikeOn};
ghost use Rattle.watch.specs.Chains.{ChainsTell};
ghost use Rattle.watch.specs.Blanks.{PlaysShow};
ghost use Rattle.watch.specs.Repeats.{AnswersTell};

use crate::notice::Notice;

// Laws of what the calls promise. A call here has nothing to do: it stands for its law.

/// Notices compare by number and then seat.
#[tactic(auto, using(crate::proofs::Only::compares))]
pub fn notices_compare()
    ensures { (a b : Notice) → MatchOrdering (⟦<Notice as Ord>⟧.cmp a b) (Before a b) (a ≡ b) (Before b a) }
{}

/// There is only one list of the notices that wait.
pub fn waiting_tells()
    ensures { OneWaiting }
{}

/// The number that a seat has after some samples is that of the last sample of the shortest opening that fails it.
#[tactic(auto, using(crate::proofs::Falling::numbers_right))]
pub fn numbers_tell()
    ensures { NumbersRight }
{}

/// Pieces delivered in turn come to what their words come to in one piece.
#[tactic(auto, using(crate::proofs::Turns::pieces_tell))]
pub fn pieces_tell()
    ensures { PiecesTell }
{}

/// Watches that are alike answer alike and go on alike, however the words are cut into pieces.
#[tactic(auto, using(crate::proofs::Alikes::alike_on))]
pub fn alike_tells()
    ensures { AlikeOn }
{}

/// Every chain of calls of a watch is a story.
#[tactic(auto, using(crate::proofs::Stories::chains_tell))]
pub fn chains_tell()
    ensures { ChainsTell }
{}

/// One list of calls has one list of answers.
#[tactic(auto, using(crate::proofs::Again::answers_tell))]
pub fn answers_tell()
    ensures { AnswersTell }
{}

/// What stands in the answer to a listing that was played: as many of the waiting notices as there is room for, and blanks behind them.
pub fn plays_show()
    ensures { PlaysShow }
{}
