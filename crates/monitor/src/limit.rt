ghost use Rattle.std.specs.Prelude.{◌≡◌, ◌<◌, ◌≤◌, MatchResult};
ghost use Rattle.stream.specs.declared.refusal.Refusal.TheVariants.{HighLimit};

use stream::Refusal;

/// The time limit T of a rule, in ticks: at most 999,999,999.
// A type of its own: a generic number would take its integer, its bounds and its refusal from a trait, and each impl of that would be as long as this type.
#[derive(Clone, Copy, PartialEq, Eq, Debug)]
pub struct Ticks {
    value: u32,
    ghost small: { value ≤ 999999999 },
}

impl Ticks {
    pub fn new(value: u32) -> Result<Ticks, Refusal>
        ensures { MatchResult result (λ t. t.value ≡ value) (λ e. (e ≡ HighLimit) × (999999999 < value)) }
    {
        if value > 999_999_999 {
            return Err(Refusal::HighLimit);
        }
        Ok(Ticks { value })
    }

    pub fn get(self) -> u32
        ensures { result ≡ self.value }
    {
        self.value
    }
}
