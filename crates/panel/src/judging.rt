ghost use Rattle.std.specs.Prelude.{◌≡◌, ℕ, [], ◌∷◌};
ghost use Rattle.panel.specs.Seating.{has_seat};
ghost use Rattle.panel.specs.Panels.{Meaning, PanelAfter, Lawful};

use crate::seats::Seats;
use stream::Sample;

/// What judges samples one after another for 1 to 64 seats at once. Its `meaning` is the count of its seats, which never changes, and of every
/// list of samples that may still come, and of each seat from 1, whether the seat is lost on that list.
pub trait Panel {
    ghost meaning: { Self → Meaning };

    /// Takes the next sample into account, and answers the seats that are now lost.
    fn judge(&mut self, sample: Sample) -> Seats
        ensures after { PanelAfter (meaning self.old) (sample ∷ []) (meaning self.new) }
        ensures answer { (k : ℕ) → has_seat result k ≡ (meaning self.new).lost [] k };

    /// The seats that are lost as the panel stands.
    fn lost(&self) -> Seats
        ensures { (k : ℕ) → has_seat result k ≡ (meaning self.now).lost [] k };

    /// How many seats the panel has.
    fn seats(&self) -> u8
        ensures { result ≡ (meaning self.now).count };

    ghost lawful: { (m : Self) → Lawful (meaning m) };
}
