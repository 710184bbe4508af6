ghost use Rattle.std.specs.Prelude.{◌≡◌, ◌<◌, ◌≤◌, ◌⊎◌, MatchOption};

/// The number of a clause: 1 to 9,999.
// A type of its own: a generic number would take its integer, its bounds and its refusal from a trait, and each impl of that would be as long as this type.
#[derive(Clone, Copy)]
pub struct ClauseNumber {
    value: u16,
    ghost from: { 1 ≤ value },
    ghost upto: { value ≤ 9999 },
}

impl ClauseNumber {
    pub fn new(value: u16) -> Option<ClauseNumber>
        ensures { MatchOption result ((value ≡ 0) ⊎ (9999 < value)) (λ n. n.value ≡ value) }
    {
        if value == 0 || value > 9999 {
            return None;
        }
        Some(ClauseNumber { value })
    }

    pub fn get(self) -> u16
        ensures { result ≡ self.value }
    {
        self.value
    }
}
