ghost use Rattle.std.specs.Prelude.{◌≡◌, ℕ, false, not, ◌&&◌, ◌||◌, Decides, ◌==◌};
ghost use Rattle.panel.specs.Seating.{is_seat, has_seat, tally};

/// A set of seats, which are numbered 1 to 64. Bit k - 1 stands for seat k.
#[derive(Clone, Copy)]
pub struct Seats {
    bits: u64,
}

impl Seats {
    /// The set without a seat.
    pub fn none() -> Seats
        ensures { (k : ℕ) → has_seat result k ≡ false }
    {
        Seats { bits: 0 }
    }

    /// The set of that seat alone, or the empty set where the number is no seat.
    pub fn only(seat: u8) -> Seats
        ensures { (k : ℕ) → has_seat result k ≡ (seat == k && is_seat k) }
    {
        match seat {
            1..=64 => Seats {
                bits: 1 << (seat - 1),
            },
            _ => Seats::none(),
        }
    }

    /// Whether the seat is in the set.
    pub fn has(self, seat: u8) -> bool
        ensures { result ≡ has_seat self seat }
    {
        seat >= 1 && seat <= 64 && (self.bits >> (seat - 1)) % 2 == 1
    }

    /// The seats of either set.
    pub fn union(self, other: Seats) -> Seats
        ensures { (k : ℕ) → has_seat result k ≡ (has_seat self k || has_seat other k) }
    {
        Seats {
            bits: self.bits | other.bits,
        }
    }

    /// The seats of this set that the other lacks.
    pub fn without(self, other: Seats) -> Seats
        ensures { (k : ℕ) → has_seat result k ≡ (has_seat self k && not (has_seat other k)) }
    {
        Seats {
            bits: self.bits & !other.bits,
        }
    }

    /// Whether no seat is in the set.
    pub fn is_empty(self) -> bool
        ensures { Decides result ((k : ℕ) → has_seat self k ≡ false) }
    {
        self.bits == 0
    }

    /// How many seats are in the set.
    pub fn count(self) -> u32
        ensures { result ≡ tally (has_seat self) 64 }
    {
        self.bits.count_ones()
    }
}
