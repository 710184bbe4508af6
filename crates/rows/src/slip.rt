ghost use Rattle.std.specs.Prelude.{◌≡◌, ◌+◌, ◌<◌, ◌^◌};

use thiserror::Error;

/// What can stand where a line goes wrong.
#[derive(Clone, Copy, PartialEq, Eq, Debug, Error)]
pub enum Expected {
    /// The gap: digits without a leading zero, from 0 to 4,294,967,295.
    #[error("expected a gap from 0 to 4294967295 without leading zeros")]
    Gap,
    /// The one space behind the gap.
    #[error("expected one space behind the gap")]
    Space,
    /// The letters a to x in alphabetical order, each at most once, or `-` alone.
    #[error("expected letters from a to x in alphabetical order, or - alone for none")]
    Letters,
    /// A letter later in the alphabet, up to x, or the end of the line.
    #[error("expected a later letter, up to x, or the end of the line")]
    LaterLetter,
    /// The end of the line, behind `-`.
    #[error("expected the end of the line")]
    LineEnd,
}

/// Where a line goes wrong: a column, from 0, and what was expected there.
#[derive(Clone, Copy, PartialEq, Eq, Debug, Error)]
#[error("{expected}")]
pub struct Slip {
    pub column: usize,
    pub expected: Expected,
}

impl Slip {
    /// A slip in a part of a line: where it begins, `first` was expected, and `later` behind that.
    pub(crate) fn at(column: usize, first: Expected, later: Expected) -> Slip
        ensures { result.column ≡ column }
    {
        let expected = if column == 0 { first } else { later };
        Slip { column, expected }
    }

    /// The slip of a whole line, where this is that of its part behind so many bytes.
    pub(crate) fn behind(self, front: usize) -> Slip
        requires { self.column + front < 2 ^ 64 }
        ensures { result.column ≡ self.column + front }
    {
        Slip {
            column: self.column + front,
            ..self
        }
    }
}
