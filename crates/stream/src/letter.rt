ghost use Rattle.std.specs.Prelude.{◌≡◌, ◌<◌, ◌≤◌, MatchResult};
ghost use Rattle.stream.specs.declared.refusal.Refusal.TheVariants.{HighSignal};

use crate::refusal::Refusal;

/// One of the letters a to x, by its bit: a is 0 and x is 23.
// A type of its own: a generic number would take its integer, its bounds and its refusal from a trait, and each impl of that would be as long as this type.
#[derive(Clone, Copy, PartialEq, Eq, Debug)]
pub struct Letter {
    bit: u8,
    ghost low: { bit < 24 },
}

impl Letter {
    pub fn new(bit: u8) -> Result<Letter, Refusal>
        ensures { MatchResult result (λ l. l.bit ≡ bit) (λ e. (e ≡ HighSignal) × (24 ≤ bit)) }
    {
        if bit > 23 {
            return Err(Refusal::HighSignal);
        }
        Ok(Letter { bit })
    }

    pub fn bit(&self) -> u8
        ensures { (result ≡ self.now.bit) × (result < 24) }
    {
        self.bit
    }
}
