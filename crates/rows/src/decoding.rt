ghost use Rattle.std.specs.Prelude.{◌≡◌, []};
ghost use Rattle.stream.specs.Bytes.{held_by, finish_by};
ghost use Rattle.stream.specs.Words.{state_of, unread};
ghost use Rattle.rows.specs.Traces.{Pushed};

use crate::decoder::{Decoder, Entry};
use stream::{Assembler, Feed, Refusal};

impl Decoder {
    /// Before any byte.
    pub fn new() -> Decoder
        ensures { (held_by result.held ≡ []) × (state_of result.feed ≡ unread) }
    {
        Decoder {
            held: Assembler::new(),
            feed: Feed::new(),
        }
    }

    /// Takes one byte more. Answers what the word says that it completes, if it completes one.
    pub fn push(&mut self, byte: u8) -> Result<Option<Entry>, Refusal>
        ensures { Pushed self.old byte result self.new }
    {
        let Some(word) = self.held.push(byte) else {
            return Ok(None);
        };
        match self.feed.take(word)? {
            Some(numbered) => Ok(Some(Entry::Row(numbered.sample))),
            // A number, and no type for the kinds: the feed takes words apart by a `match` on it with guards, whose form is fixed, and hands out no kind.
            None if word >> 30 == 3 => Ok(Some(Entry::End)),
            None => Ok(None),
        }
    }

    /// Refuses if bytes are left over.
    pub fn finish(&self) -> Result<(), Refusal>
        ensures { result ≡ finish_by (held_by self.now.held) }
    {
        self.held.finish()
    }
}
