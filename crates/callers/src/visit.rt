ghost use Rattle.watch.specs.Account.{account};
ghost use Rattle.callers.specs.Visits.{Visited};

use panel::Panel;
use stream::Refusal;
use watch::{Notice, Watch, chains_tell};

/// What was answered to a visit's calls, one after another: of `deliver`, of `list` and of `collect`.
#[derive(Clone, Copy, PartialEq, Eq, Debug)]
pub struct Visit {
    pub taken: usize,
    pub refused: Option<Refusal>,
    pub written: usize,
    pub waiting: usize,
    pub first: Result<Notice, Refusal>,
}

/// Makes a watch on the panel, delivers the words, lists the waiting notices into the caller's own list, whatever stands in it, and collects the
/// first.
pub fn pay_visit<P: Panel>(panel: P, words: &[u32], out: &mut [Notice]) -> (Watch<P>, Visit)
    ensures { Visited (P.meaning panel) words.now out.old out.new result.1 (account P.meaning result.0) }
{
    chains_tell();
    let mut watch = Watch::new(panel);
    let (taken, refused) = watch.deliver(words);
    let (written, waiting) = watch.list(out);
    let first = watch.collect();
    let visit = Visit {
        taken,
        refused,
        written,
        waiting,
        first,
    };
    (watch, visit)
}
