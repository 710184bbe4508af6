//! The calls of a story, and what is answered to them, in a form that both watches share.
use crate::model::Told;
use crate::refusal::Refusal;
use std::fmt;

/// How many records the caller's list has in all. No book has so many rows.
pub(crate) const ROOM: usize = 72;

#[derive(Clone, Copy, Debug)]
pub(crate) enum Ask<'a> {
    Begin(u64),
    Deliver(&'a [u32]),
    /// To list into so many records of the caller's list.
    List(usize),
    Collect,
}

/// The answer to a call.
#[derive(Clone, Copy, PartialEq, Eq)]
pub(crate) enum Reply {
    Begun(Result<(), Refusal>),
    Taken(usize, Option<Refusal>),
    /// `out` is the whole of the caller's list, with none where a record was left as it was.
    // An array, and not a Vec of what was written: what stands behind that is compared too.
    Listed {
        written: usize,
        waiting: usize,
        out: [Option<Told>; ROOM],
    },
    Collected(Result<Told, Refusal>),
}

/// A watch that answers the calls of a story.
pub(crate) trait Answers {
    /// Why there may be no reply.
    type Error;

    fn begin(&mut self, number: u64) -> Result<Reply, Self::Error>;

    fn deliver(&mut self, piece: &[u32]) -> Result<Reply, Self::Error>;

    fn list(&self, room: usize) -> Result<Reply, Self::Error>;

    fn collect(&mut self) -> Result<Reply, Self::Error>;

    fn next_number(&self) -> u64;

    fn answer(&mut self, ask: Ask<'_>) -> Result<Reply, Self::Error> {
        match ask {
            Ask::Begin(number) => self.begin(number),
            Ask::Deliver(piece) => self.deliver(piece),
            Ask::List(room) => self.list(room),
            Ask::Collect => self.collect(),
        }
    }
}

impl Reply {
    /// The refusal, if the call was turned away.
    pub(crate) fn refusal(&self) -> Option<Refusal> {
        match self {
            Reply::Begun(begun) => begun.err(),
            Reply::Taken(_, refusal) => *refusal,
            Reply::Listed { .. } => None,
            Reply::Collected(told) => told.err(),
        }
    }
}

/// The records of the caller's list that were written, each with its place.
fn show_written<W: fmt::Write>(
    out: &[Option<Told>; ROOM],
    f: &mut fmt::Formatter<W>,
) -> fmt::Result {
    for (place, record) in out.iter().enumerate() {
        if let Some(told) = record {
            write!(f, "; {place}: {told}")?;
        }
    }
    Ok(())
}

impl fmt::Display for Reply {
    fn fmt<W: fmt::Write>(&self, f: &mut fmt::Formatter<W>) -> fmt::Result {
        match self {
            Reply::Begun(Ok(())) => f.write_str("begun"),
            Reply::Taken(taken, None) => write!(f, "{taken} taken"),
            Reply::Taken(taken, Some(refusal)) => write!(f, "{taken} taken, {refusal}"),
            Reply::Listed {
                written,
                waiting,
                out,
            } => {
                write!(f, "{written} written of {waiting}")?;
                show_written(out, f)
            }
            Reply::Collected(Ok(told)) => write!(f, "{told}"),
            Reply::Begun(Err(refusal)) | Reply::Collected(Err(refusal)) => write!(f, "{refusal}"),
        }
    }
}
