ghost use Rattle.std.specs.Prelude.{◌≡◌, ◌<◌, ◌≤◌, true, false, not, IfOk, MatchResult};
ghost use Rattle.stream.specs.declared.refusal.Refusal.TheVariants.{HighSignal};
ghost use Rattle.stream.specs.declared.sample.Sample.{Sample};
ghost use Rattle.stream.specs.Signals.{bare_signal, every_signal, letter_signal, negated_signal, has_letter, holds_at};

use crate::letter::Letter;
use crate::refusal::Refusal;
use crate::sample::Sample;

/// A condition on one sample: a letter, or `*`, which holds at every sample; with `!` before it, where the bare one does not hold.
#[derive(Clone, Copy, PartialEq, Eq, Debug)]
pub struct Signal {
    /// The letter that it looks for; none for `*`.
    letter: Option<Letter>,
    negated: bool,
}

impl Signal {
    fn bare(letter: Option<Letter>) -> Signal
        ensures { result ≡ bare_signal letter }
    {
        Signal {
            letter,
            negated: false,
        }
    }

    /// The signal `*`.
    pub fn every() -> Signal
        ensures value { result ≡ every_signal }
        ensures meaning { (x : Sample) → holds_at result x ≡ true }
    {
        Signal::bare(None)
    }

    /// The signal of a letter, by its bit from a, which is 0, to x, which is 23.
    pub fn letter(bit: u8) -> Result<Signal, Refusal>
        ensures value { MatchResult result (λ p. (low : bit < 24) × (p ≡ letter_signal bit low)) (λ e. (e ≡ HighSignal) × (24 ≤ bit)) }
        ensures meaning { IfOk result (λ p. (x : Sample) → holds_at p x ≡ has_letter bit x) }
    {
        Ok(Signal::bare(Some(Letter::new(bit)?)))
    }

    /// The signal with `!` before it.
    pub fn negated(self) -> Signal
        ensures value { result ≡ negated_signal self }
        ensures meaning { (x : Sample) → holds_at result x ≡ not (holds_at self x) }
    {
        Signal {
            negated: !self.negated,
            ..self
        }
    }

    /// Whether the signal holds at a sample.
    pub fn holds(&self, sample: &Sample) -> bool
        ensures { result ≡ holds_at self.now sample.now }
    {
        self.letter.is_none_or(|letter| sample.has(letter)) != self.negated
    }
}
