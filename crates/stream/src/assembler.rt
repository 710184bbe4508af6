ghost use Rattle.std.specs.Prelude.{◌≡◌, [], ◌∷◌, ◌++◌, Some};
ghost use Rattle.stream.specs.Bytes.{held_by, bytes_of, finish_by};

use crate::refusal::Refusal;

// Cases, and no `ArrayVec<u8, 3>`: they are `Copy`, and no count of bytes has to be bounded.
/// Puts words together from bytes, the high byte first. It holds the bytes of the word that is not whole yet.
#[derive(Clone, Copy, Debug)]
pub enum Assembler {
    Empty,
    One(u8),
    Two(u8, u8),
    Three(u8, u8, u8),
}

impl Assembler {
    pub fn new() -> Assembler
        ensures { held_by result ≡ [] }
    {
        Self::Empty
    }

    /// One byte more; the word, if this byte completes one. The bytes of the word and those still held are the bytes held before and the new one.
    pub fn push(&mut self, byte: u8) -> Option<u32>
        ensures { bytes_of result ++ held_by self.new ≡ held_by self.old ++ byte ∷ [] }
    {
        match *self {
            Assembler::Empty => *self = Assembler::One(byte),
            Assembler::One(a) => *self = Assembler::Two(a, byte),
            Assembler::Two(a, b) => *self = Assembler::Three(a, b, byte),
            Assembler::Three(a, b, c) => {
                *self = Assembler::Empty;
                return Some(word_of(a, b, c, byte));
            }
        }
        None
    }

    /// Refuses if bytes are left over.
    pub fn finish(&self) -> Result<(), Refusal>
        ensures { result ≡ finish_by (held_by self.now) }
    {
        match self {
            Assembler::Empty => Ok(()),
            _ => Err(Refusal::PartialWord),
        }
    }
}

fn word_of(a: u8, b: u8, c: u8, d: u8) -> u32
    ensures { bytes_of (Some result) ≡ a ∷ b ∷ c ∷ d ∷ [] }
{
    u32::from_be_bytes([a, b, c, d])
}
