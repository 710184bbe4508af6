ghost use Rattle.std.specs.Prelude.{◌≡◌, IfOk, IfSome, take};
ghost use Rattle.report.specs.Runs.{GoesOn};
ghost use Rattle.report.specs.Readers.{Gave};

use crate::run::{Ending, Run};
use arrayvec::ArrayVec;
use std::io::{self, ErrorKind, Read};

/// The text of a book, read from its file, as far as the longest text and one byte more: what lies behind changes nothing.
pub fn read_text<R: Read + Drop>(source: R) -> io::Result<ArrayVec<u8, 8193>>
    ensures { IfOk result (λ text. IfSome (R.remaining source) (λ xs. text.items ≡ take 8193 xs)) }
{
    let mut text = ArrayVec::new();
    io::copy(&mut source.take(8193), &mut text)?;
    Ok(text)
}

impl Run {
    /// Goes through the bytes of a trace, up to their end or the first word that is refused.
    // A call of its own, so that its piece lies on the stack only while it reads.
    #[inline(never)]
    pub fn follow<R: Read>(&mut self, source: &mut R) -> Ending
        ensures { Gave (R.remaining source.old) (R.remaining source.new) result (λ bytes. GoesOn self.old bytes self.new) }
    {
        let mut piece = [0; 16384];
        // A loop that the end stops, and not `bytes` of a BufReader: that took a sixth longer for a trace of 100 MB.
        for _ in 0..u64::MAX {
            match source.read(&mut piece) {
                Ok(0) => return Ending::Complete,
                Ok(count) => {
                    self.read(&piece[..count]);
                    if self.refused.is_some() {
                        return Ending::Complete;
                    }
                }
                Err(error) if error.kind() == ErrorKind::Interrupted => {}
                Err(_) => return Ending::Unreadable,
            }
        }
        Ending::Unreadable
    }
}
