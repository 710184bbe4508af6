ghost use Rattle.std.specs.Prelude.{◌≡◌, suc, List, Decides};
ghost use Rattle.stream.specs.declared.sample.Sample.{Sample};
ghost use Rattle.layers.specs.Layers.{allow_now, allow_new};
ghost use Rattle.layers.specs.Parts.{Fails, Breaks};
ghost use Rattle.layers.specs.Laws.{allow_lasting, allow_lasting_new, allow_none};

use crate::passing::{judge_anew, renewed};
use monitor::{Monitor, judge_on};
use stream::Sample;

/// A monitor that may fail a number of times, and is begun as new each time; one failure more loses the layer.
#[derive(Clone, Copy)]
pub struct Allow<M> {
    allowed: u8,
    /// How many of the failures allowed are still to come.
    left: u8,
    below: M,
}

impl<M: Monitor> Allow<M> {
    /// The layer over a monitor that is begun as new.
    pub fn new(allowed: u8, below: M) -> Allow<M>
        ensures meaning { (l : List Sample) → Decides (⟦<Allow<M> as Monitor>⟧.fails_new result l) (Breaks (Fails (M.fails_new below)) (suc allowed) l) }
        // of what was made alone, and of no later value, so that no type can keep it
        ensures made { (l : List Sample) → ⟦<Allow<M> as Monitor>⟧.fails_now result l ≡ ⟦<Allow<M> as Monitor>⟧.fails_new result l }
    {
        Allow {
            allowed,
            left: allowed,
            below: renewed(below),
        }
    }
}

impl<M: Monitor> Monitor for Allow<M> {
    ghost fails_now = { allow_now M.fails_now M.fails_new };

    ghost fails_new = { allow_new M.fails_new };

    ghost lasting_now = { allow_lasting M.fails_now M.lasting_now M.fails_new M.lasting_new };

    ghost lasting_new = { allow_lasting_new M.fails_new M.lasting_new };

    ghost starts = { allow_none M.fails_new M.starts };

    fn judge(&mut self, sample: Sample) -> bool {
        // The last failure begins nothing anew, so that a lost layer is one whose monitor is lost.
        if self.left == 0 {
            return judge_on(&mut self.below, sample);
        }
        if judge_anew(&mut self.below, sample) {
            self.left -= 1;
        }
        false
    }

    fn lost(&self) -> bool {
        self.left == 0 && self.below.lost()
    }

    fn renew(&mut self) {
        self.left = self.allowed;
        self.below.renew();
    }
}
