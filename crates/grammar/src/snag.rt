ghost use Rattle.std.specs.Prelude.{◌≡◌, ◌+◌, ◌^◌, ◌<◌};
ghost use Rattle.grammar.specs.Contract.{fault_of};

use crate::fault::{Cause, Fault, Place};

/// Where in its line, and why, reading went no further.
#[derive(Clone, Copy)]
pub struct Snag {
    pub(crate) cause: Cause,
    pub(crate) place: usize,
}

impl Snag {
    /// The fault that a snag is, in a line that begins at `start`.
    pub(crate) fn fault(self, start: Place) -> Fault
        requires { start.byte + self.place < 2 ^ 64 }
        ensures { result ≡ fault_of start self }
    {
        let byte = start.byte + self.place;
        Fault::AtWord(self.cause, Place { byte, ..start })
    }
}
