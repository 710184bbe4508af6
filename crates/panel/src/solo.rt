ghost use Rattle.std.specs.Prelude.{◌≡◌, ℕ, true, ◌&&◌, List, Decides, ◌==◌};
ghost use Rattle.stream.specs.declared.sample.Sample.{Sample};
ghost use Rattle.panel.specs.Seating.{has_seat};
ghost use Rattle.panel.specs.Single.{solo_meaning};
ghost use Rattle.panel.specs.Laws.{solo_lawful};

use crate::judging::Panel;
use crate::seats::Seats;
use monitor::{Monitor, judge_on};
use stream::Sample;

/// The panel of one seat over a monitor.
#[derive(Drop)]
pub struct Solo<M> {
    monitor: M,
}

impl<M: Monitor> Solo<M> {
    /// Seats the monitor as it stands.
    pub fn new(monitor: M) -> Solo<M>
        ensures seats { (solo_meaning M.fails_now result).count ≡ 1 }
        ensures meaning { (l : List Sample) (k : ℕ) → Decides ((solo_meaning M.fails_now result).lost l k) ((k ≡ 1) × (M.fails_now monitor l ≡ true)) }
    {
        Solo { monitor }
    }
}

/// Seat 1 where it is lost, and no other seat.
fn first_where(lost: bool) -> Seats
    ensures { (k : ℕ) → has_seat result k ≡ (k == 1 && lost) }
{
    if lost { Seats::only(1) } else { Seats::none() }
}

impl<M: Monitor> Panel for Solo<M> {
    ghost meaning = { solo_meaning M.fails_now };

    ghost lawful = { λ m. solo_lawful M.fails_now m (M.lasting_now m.monitor) };

    fn judge(&mut self, sample: Sample) -> Seats {
        first_where(judge_on(&mut self.monitor, sample))
    }

    fn lost(&self) -> Seats {
        first_where(self.monitor.lost())
    }

    fn seats(&self) -> u8 {
        1
    }
}
