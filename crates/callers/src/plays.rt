ghost use Rattle.std.specs.Prelude.{◌≡◌, length, take};
ghost use Rattle.panel.specs.Panels.{SamePanel};
ghost use Rattle.watch.specs.Account.{account, Alike};
ghost use Rattle.watch.specs.Plays.{Played};

use panel::Panel;
use watch::{PlayAnswer, PlayCall, Watch, answers_tell, play_into};

/// Makes the same calls of two watches, which are made on a panel each. Where the panels mean the same, all answers are the same, their blanks too.
pub fn play_twice<P: Panel, Q: Panel>(
    p: P,
    q: Q,
    calls: &[PlayCall<'_>],
    xs: &mut [PlayAnswer],
    ys: &mut [PlayAnswer],
) -> (Watch<P>, Watch<Q>)
    ensures first { Played (P.meaning p) (take (length xs.old) calls.now) (take (length calls.now) xs.new) (account P.meaning result.0) }
    ensures second { Played (Q.meaning q) (take (length ys.old) calls.now) (take (length calls.now) ys.new) (account Q.meaning result.1) }
    ensures answers { SamePanel (P.meaning p) (Q.meaning q) → length xs.old ≡ length ys.old → take (length calls.now) xs.new ≡ take (length calls.now) ys.new }
    ensures alike { SamePanel (P.meaning p) (Q.meaning q) → length xs.old ≡ length ys.old → Alike (account P.meaning result.0) (account Q.meaning result.1) }
{
    answers_tell();
    let a = play_into(p, calls, xs);
    let b = play_into(q, calls, ys);
    (a, b)
}
