ghost use Rattle.std.specs.Prelude.{◌≡◌};
ghost use Rattle.grammar.specs.Faults.{refusal_of, layer_of, line_number_of, byte_of};

use stream::Refusal;

/// What of a text a fault is in.
#[derive(Clone, Copy, PartialEq, Eq, Debug)]
pub enum Layer {
    Text,
    Line,
    Book,
}

/// A place in a text: a line, counted from 1, and a byte, counted from 0 in the whole text.
#[derive(Clone, Copy, PartialEq, Eq, Debug)]
pub struct Place {
    pub line: usize,
    pub byte: usize,
}

/// Why a line goes no further at a word, or at its end.
#[derive(Clone, Copy, PartialEq, Eq, Debug)]
pub enum Cause {
    WordMissing,
    NumberOwed,
    WordNotAllowed,
}

/// Why a text is no book, and where.
#[derive(Clone, Copy, PartialEq, Eq, Debug)]
pub enum Fault {
    EmptyText,
    TextTooLong,
    OpenLine(Place),
    TooManyLines { byte: usize },
    NumberNotRising(Place),
    AtWord(Cause, Place),
}

impl Fault {
    pub fn refusal(self) -> Refusal
        ensures { result ≡ refusal_of self }
    {
        match self {
            Fault::EmptyText => Refusal::EmptyText,
            Fault::TextTooLong => Refusal::TextTooLong,
            Fault::OpenLine(_) => Refusal::OpenLine,
            Fault::TooManyLines { .. } => Refusal::TooManyLines,
            Fault::NumberNotRising(_) => Refusal::NumberNotRising,
            Fault::AtWord(Cause::WordMissing, _) => Refusal::WordMissing,
            Fault::AtWord(Cause::NumberOwed, _) => Refusal::NumberOwed,
            Fault::AtWord(Cause::WordNotAllowed, _) => Refusal::WordNotAllowed,
        }
    }

    pub fn layer(self) -> Layer
        ensures { result ≡ layer_of self }
    {
        match self {
            Fault::EmptyText | Fault::TextTooLong | Fault::OpenLine(_) => Layer::Text,
            Fault::TooManyLines { .. } | Fault::NumberNotRising(_) => Layer::Book,
            Fault::AtWord(..) => Layer::Line,
        }
    }

    pub fn line(self) -> usize
        ensures { result ≡ line_number_of self }
    {
        match self {
            Fault::EmptyText | Fault::TextTooLong => 1,
            Fault::TooManyLines { .. } => 65,
            Fault::OpenLine(place) | Fault::NumberNotRising(place) | Fault::AtWord(_, place) => {
                place.line
            }
        }
    }

    pub fn byte(self) -> usize
        ensures { result ≡ byte_of self }
    {
        match self {
            Fault::EmptyText => 0,
            Fault::TextTooLong => 8192,
            Fault::TooManyLines { byte } => byte,
            Fault::OpenLine(place) | Fault::NumberNotRising(place) | Fault::AtWord(_, place) => {
                place.byte
            }
        }
    }
}
