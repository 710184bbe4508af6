//! Why a call is turned away, or a text is no book, as the second watch has it.
use std::fmt;
use thiserror::Error;

/// The refusals, by the numbers that users know.
#[derive(Clone, Copy, Debug, PartialEq, Eq, PartialOrd, Ord)]
pub(crate) enum Refusal {
    Ended = 1,
    KindTwo = 2,
    LongGap = 3,
    Letters = 4,
    Spent = 5,
    Payload = 6,
    OpenGap = 7,
    Late = 8,
    BadNumber = 9,
    Nothing = 10,
    NoText = 21,
    LongText = 22,
    OpenLine = 23,
    StrayWord = 24,
    MissingWord = 25,
    NoNumber = 26,
    NotRising = 27,
    ManyRows = 28,
}

/// Each refusal, so that its number stands with its name alone.
const ALL: [Refusal; 18] = [
    Refusal::Ended,
    Refusal::KindTwo,
    Refusal::LongGap,
    Refusal::Letters,
    Refusal::Spent,
    Refusal::Payload,
    Refusal::OpenGap,
    Refusal::Late,
    Refusal::BadNumber,
    Refusal::Nothing,
    Refusal::NoText,
    Refusal::LongText,
    Refusal::OpenLine,
    Refusal::StrayWord,
    Refusal::MissingWord,
    Refusal::NoNumber,
    Refusal::NotRising,
    Refusal::ManyRows,
];

/// A number that no call of a story, and no text, may be refused by.
#[derive(Clone, Copy, Debug, PartialEq, Eq, Error)]
#[error("refusal {0}, which no call here may have")]
pub(crate) struct UnknownRefusal(u8);

impl From<Refusal> for u8 {
    fn from(refusal: Refusal) -> u8 {
        refusal as u8
    }
}

impl TryFrom<u8> for Refusal {
    type Error = UnknownRefusal;

    fn try_from(number: u8) -> Result<Refusal, UnknownRefusal> {
        ALL.into_iter()
            .find(|refusal| u8::from(*refusal) == number)
            .ok_or(UnknownRefusal(number))
    }
}

impl fmt::Display for Refusal {
    fn fmt<W: fmt::Write>(&self, f: &mut fmt::Formatter<W>) -> fmt::Result {
        write!(f, "refusal {}", u8::from(*self))
    }
}
