ghost use Rattle.std.specs.Prelude.{◌≡◌, List, Decides, refl};
ghost use Rattle.stream.specs.declared.sample.Sample.{Sample};
ghost use Rattle.layers.specs.Layers.{after_now, after_new};
ghost use Rattle.layers.specs.Parts.{Fails, FirstPart};
ghost use Rattle.layers.specs.Laws.{after_lasting, after_lasting_new};

use crate::passing::renewed;
use monitor::{Monitor, judge_on};
use stream::{Sample, Signal};

/// A monitor that counts only from the first sample at which its trigger holds, that sample included.
#[derive(Clone, Copy)]
pub struct After<M> {
    trigger: Signal,
    /// A flag, and no enum of two states: both hold the trigger and what is below, and renewing goes back.
    opened: bool,
    below: M,
}

impl<M: Monitor> After<M> {
    /// The layer over a monitor that is begun as new.
    pub fn new(trigger: Signal, below: M) -> After<M>
        ensures meaning { (l : List Sample) → Decides (⟦<After<M> as Monitor>⟧.fails_new result l) (FirstPart trigger (Fails (M.fails_new below)) l) }
        // of what was made alone, and of no later value, so that no type can keep it
        ensures made { (l : List Sample) → ⟦<After<M> as Monitor>⟧.fails_now result l ≡ ⟦<After<M> as Monitor>⟧.fails_new result l }
    {
        After {
            trigger,
            opened: false,
            below: renewed(below),
        }
    }
}

impl<M: Monitor> Monitor for After<M> {
    ghost fails_now = { after_now M.fails_now };

    ghost fails_new = { after_new M.fails_new };

    ghost lasting_now = { after_lasting M.fails_now M.lasting_now };

    ghost lasting_new = { after_lasting_new M.fails_new M.lasting_new };

    ghost starts = { λ m. refl };

    fn judge(&mut self, sample: Sample) -> bool {
        self.opened = self.opened || self.trigger.holds(&sample);
        self.opened && judge_on(&mut self.below, sample)
    }

    fn lost(&self) -> bool {
        self.opened && self.below.lost()
    }

    fn renew(&mut self) {
        self.opened = false;
        self.below.renew();
    }
}
