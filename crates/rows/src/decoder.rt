use stream::{Assembler, Feed, Sample};

/// What a word of a trace can complete: a row, or the whole stream.
// Two named cases, and not an `Option<Sample>`: in what `push` answers, `Some(None)` would have to be known as the end.
#[derive(Clone, Copy)]
pub enum Entry {
    Row(Sample),
    End,
}

/// Reads a trace byte by byte.
#[derive(Clone, Copy)]
pub struct Decoder {
    /// The bytes of the word that is not whole yet.
    pub(crate) held: Assembler,
    pub(crate) feed: Feed,
}
