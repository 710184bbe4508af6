//! Samples, notices and the lines of a book, as the second watch has them, and how a line is spelled.
use std::fmt;

/// A sample: its number, the gap before it, and a bit for each letter.
#[derive(Clone, Copy)]
pub(crate) struct Reading {
    pub(crate) number: u64,
    pub(crate) gap: u32,
    pub(crate) letters: u32,
}

/// A notice. The order of the fields is the order of notices: by number, then by seat.
#[derive(Clone, Copy, PartialEq, Eq, PartialOrd, Ord)]
pub(crate) struct Told {
    pub(crate) number: u64,
    pub(crate) seat: u8,
}

/// What a signal asks of a sample.
#[derive(Clone, Copy)]
pub(crate) struct Sign {
    /// The bit of its letter, or none where it is `*`.
    pub(crate) letter: Option<u8>,
    pub(crate) opposite: bool,
}

impl Sign {
    pub(crate) fn holds(self, reading: Reading) -> bool {
        let met = self.letter.is_none_or(|bit| reading.letters.wrapping_shr(u32::from(bit)) % 2
            == 1);
        met != self.opposite
    }
}

/// One of the seven rules.
#[derive(Clone, Copy)]
pub(crate) enum Rule {
    Never { p: Sign },
    NeverFrom { p: Sign, limit: u32 },
    HoldLeast { p: Sign, limit: u32 },
    HoldUnder { p: Sign, limit: u32 },
    Repeat { p: Sign, limit: u32 },
    Answer { p: Sign, s: Sign, limit: u32 },
    Keep { p: Sign, s: Sign, limit: u32 },
}

/// A rule, perhaps from some sample on only.
#[derive(Clone, Copy)]
pub(crate) struct Branch {
    pub(crate) after: Option<Sign>,
    pub(crate) rule: Rule,
}

/// A line of a book.
#[derive(Clone, Copy)]
pub(crate) struct Row {
    pub(crate) number: u16,
    pub(crate) first: Branch,
    pub(crate) second: Option<Branch>,
    pub(crate) allow: Option<u8>,
}

impl fmt::Display for Told {
    fn fmt<W: fmt::Write>(&self, f: &mut fmt::Formatter<W>) -> fmt::Result {
        write!(f, "seat {} at {}", self.seat, self.number)
    }
}

impl fmt::Display for Sign {
    fn fmt<W: fmt::Write>(&self, f: &mut fmt::Formatter<W>) -> fmt::Result {
        if self.opposite {
            f.write_str("!")?;
        }
        match self.letter {
            Some(bit) => write!(f, "{}", char::from(b'a'.wrapping_add(bit))),
            None => f.write_str("*"),
        }
    }
}

impl fmt::Display for Rule {
    fn fmt<W: fmt::Write>(&self, f: &mut fmt::Formatter<W>) -> fmt::Result {
        match *self {
            Rule::Never { p } => write!(f, "never {p}"),
            Rule::NeverFrom { p, limit } => write!(f, "never {p} from {limit}"),
            Rule::HoldLeast { p, limit } => write!(f, "hold {p} least {limit}"),
            Rule::HoldUnder { p, limit } => write!(f, "hold {p} under {limit}"),
            Rule::Repeat { p, limit } => write!(f, "repeat {p} within {limit}"),
            Rule::Answer { p, s, limit } => write!(f, "answer {p} by {s} within {limit}"),
            Rule::Keep { p, s, limit } => write!(f, "keep {s} for {limit} since {p}"),
        }
    }
}

impl fmt::Display for Branch {
    fn fmt<W: fmt::Write>(&self, f: &mut fmt::Formatter<W>) -> fmt::Result {
        if let Some(from) = self.after {
            write!(f, "after {from} ")?;
        }
        write!(f, "{}", self.rule)
    }
}

impl fmt::Display for Row {
    fn fmt<W: fmt::Write>(&self, f: &mut fmt::Formatter<W>) -> fmt::Result {
        write!(f, "{} {}", self.number, self.first)?;
        if let Some(second) = self.second {
            write!(f, " or {second}")?;
        }
        if let Some(allow) = self.allow {
            write!(f, " allow {allow}")?;
        }
        Ok(())
    }
}
