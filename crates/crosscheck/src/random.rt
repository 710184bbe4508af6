ghost use Rattle.std.specs.Prelude.{◌≤◌};

/// Numbers that look random and are the same in every run (splitmix64).
#[derive(Clone, Copy)]
pub(crate) struct Random {
    state: u64,
}

impl Random {
    pub(crate) fn new(seed: u64) -> Random {
        Random { state: seed }
    }

    fn next(&mut self) -> u64 {
        self.state = self.state.wrapping_add(0x9E37_79B9_7F4A_7C15);
        let a = (self.state ^ self.state.wrapping_shr(30)).wrapping_mul(0xBF58_476D_1CE4_E5B9);
        let b = (a ^ a.wrapping_shr(27)).wrapping_mul(0x94D0_49BB_1331_11EB);
        b ^ b.wrapping_shr(31)
    }

    /// A number from 0 to `most`.
    pub(crate) fn upto(&mut self, most: u32) -> u32
        ensures { result ≤ most }
    {
        let drawn = self.next() % (u64::from(most) + 1);
        drawn as u32
    }

    /// True once in so many times, about; `times` is at least 1.
    pub(crate) fn once_in(&mut self, times: u32) -> bool {
        self.upto(times.saturating_sub(1)) == 0
    }

    /// The bit of any letter.
    pub(crate) fn letter(&mut self) -> u8 {
        self.upto(23) as u8
    }
}
