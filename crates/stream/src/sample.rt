ghost use Rattle.std.specs.Prelude.{◌≡◌, ◌/◌, ◌%◌, ◌^◌, ◌<◌, ◌≤◌, MatchResult, ◌==◌};
ghost use Rattle.stream.specs.declared.refusal.Refusal.TheVariants.{HighLetter};

use crate::letter::Letter;
use crate::refusal::Refusal;

/// One reading of a payer's stream: the ticks since the sample before it, and the letters that hold at it, a to x as bits 0 to 23.
#[derive(Clone, Copy, PartialEq, Eq, Debug)]
pub struct Sample {
    gap: u32,
    letters: u32,
    ghost short: { gap < 2 ^ 32 },
    ghost low: { letters < 2 ^ 24 },
}

impl Sample {
    pub fn new(gap: u32, letters: u32) -> Result<Sample, Refusal>
        ensures { MatchResult result (λ s. (s.gap ≡ gap) × (s.letters ≡ letters)) (λ e. (e ≡ HighLetter) × (2 ^ 24 ≤ letters)) }
    {
        if letters >> 24 != 0 {
            return Err(Refusal::HighLetter);
        }
        Ok(Sample { gap, letters })
    }

    pub fn gap(&self) -> u32
        ensures { result ≡ self.now.gap }
    {
        self.gap
    }

    pub fn letters(&self) -> u32
        ensures { result ≡ self.now.letters }
    {
        self.letters
    }

    /// Whether the letter is among the sample's.
    pub(crate) fn has(&self, letter: Letter) -> bool
        ensures { result ≡ (self.now.letters / 2 ^ letter.bit % 2 == 1) }
    {
        (self.letters >> letter.bit()) % 2 == 1
    }
}
