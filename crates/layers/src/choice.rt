ghost use Rattle.layers.specs.Layers.{choice_fails};
ghost use Rattle.layers.specs.Laws.{choice_lasting, choice_none};

use monitor::Monitor;
use stream::Sample;

// An enum of its own, and not the kit's `Either`: a layer has that name, and the impl would have to stand in the crate of the trait.
/// One of two monitors, as where a layer may be left out: it fails where the one that it is does. Making it renews nothing.
#[derive(Clone, Copy)]
pub enum Choice<A, B> {
    One(A),
    Other(B),
}

impl<A: Monitor, B: Monitor> Monitor for Choice<A, B> {
    ghost fails_now = { choice_fails A.fails_now B.fails_now };

    ghost fails_new = { choice_fails A.fails_new B.fails_new };

    ghost lasting_now = { choice_lasting A.fails_now B.fails_now A.lasting_now B.lasting_now };

    ghost lasting_new = { choice_lasting A.fails_new B.fails_new A.lasting_new B.lasting_new };

    ghost starts = { choice_none A.fails_new B.fails_new A.starts B.starts };

    fn judge(&mut self, sample: Sample) -> bool {
        match self {
            Choice::One(monitor) => monitor.judge(sample),
            Choice::Other(monitor) => monitor.judge(sample),
        }
    }

    fn lost(&self) -> bool {
        match self {
            Choice::One(monitor) => monitor.lost(),
            Choice::Other(monitor) => monitor.lost(),
        }
    }

    fn renew(&mut self) {
        match self {
            Choice::One(monitor) => monitor.renew(),
            Choice::Other(monitor) => monitor.renew(),
        }
    }
}
