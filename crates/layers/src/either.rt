ghost use Rattle.std.specs.Prelude.{◌≡◌, List, Decides};
ghost use Rattle.stream.specs.declared.sample.Sample.{Sample};
ghost use Rattle.layers.specs.Layers.{either_fails};
ghost use Rattle.layers.specs.Parts.{Fails, Both};
ghost use Rattle.layers.specs.Laws.{either_lasting, either_none};

use crate::passing::renewed;
use monitor::{Monitor, judge_on};
use stream::Sample;

/// Two monitors, either of which may fail: the layer is lost once both are.
#[derive(Clone, Copy)]
pub struct Either<A, B> {
    first: A,
    second: B,
}

impl<A: Monitor, B: Monitor> Either<A, B> {
    /// The layer over two monitors that are begun as new.
    pub fn new(first: A, second: B) -> Either<A, B>
        ensures meaning { (l : List Sample) → Decides (⟦<Either<A, B> as Monitor>⟧.fails_new result l) (Both (Fails (A.fails_new first)) (Fails (B.fails_new second)) l) }
        // of what was made alone, and of no later value, so that no type can keep it
        ensures made { (l : List Sample) → ⟦<Either<A, B> as Monitor>⟧.fails_now result l ≡ ⟦<Either<A, B> as Monitor>⟧.fails_new result l }
    {
        Either {
            first: renewed(first),
            second: renewed(second),
        }
    }
}

impl<A: Monitor, B: Monitor> Monitor for Either<A, B> {
    ghost fails_now = { either_fails A.fails_now B.fails_now };

    ghost fails_new = { either_fails A.fails_new B.fails_new };

    ghost lasting_now = { either_lasting A.fails_now B.fails_now A.lasting_now B.lasting_now };

    ghost lasting_new = { either_lasting A.fails_new B.fails_new A.lasting_new B.lasting_new };

    ghost starts = { either_none A.fails_new B.fails_new A.starts B.starts };

    fn judge(&mut self, sample: Sample) -> bool {
        let first = judge_on(&mut self.first, sample);
        let second = judge_on(&mut self.second, sample);
        first && second
    }

    fn lost(&self) -> bool {
        self.first.lost() && self.second.lost()
    }

    fn renew(&mut self) {
        self.first.renew();
        self.second.renew();
    }
}
