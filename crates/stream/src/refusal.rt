ghost use Rattle.std.specs.Prelude.{◌≡◌};
ghost use Rattle.stream.specs.Refusals.{number_of};

use thiserror::Error;

/// Why a call was turned away. Every refusal has one number, the same in every call that gives it, and one sentence that says what it means.
#[derive(Clone, Copy, PartialEq, Eq, Debug, Error)]
pub enum Refusal {
    #[error("a word follows the word that ended the stream")]
    StreamEnded = 1,
    #[error("a word is of kind 2, which is not in use")]
    UnusedKind = 2,
    #[error("the gap before a sample passes 4,294,967,295 ticks")]
    GapTooLong = 3,
    #[error("a letter bit above 23 is set: the letters are a to x")]
    HighLetter = 4,
    #[error("the sample numbers are used up: the last is 999,999,999,999")]
    NumbersSpent = 5,
    #[error("the end word has bits set beside its kind")]
    EndPayload = 6,
    #[error("the stream ends with a gap that belongs to no sample")]
    GapAtEnd = 7,
    #[error("the numbering cannot begin anew after a word was taken")]
    WordTaken = 8,
    #[error("the numbering can begin at 1 to 999,999,999,999 only")]
    BadStart = 9,
    #[error("no notice waits")]
    NothingWaits = 10,
    #[error("the list is too short for what is to be written")]
    ListTooShort = 11,
    #[error("one to three bytes are left over after the last whole word")]
    PartialWord = 12,
    #[error("the file cannot be read")]
    UnreadableFile = 13,
    #[error("the text has no such line")]
    NoSuchLine = 14,
    #[error("a signal can name letter bits 0 to 23 only")]
    HighSignal = 15,
    #[error("a time limit is at most 999,999,999 ticks")]
    HighLimit = 16,
    #[error("the text is empty")]
    EmptyText = 21,
    #[error("the text is longer than 8,192 bytes")]
    TextTooLong = 22,
    #[error("the last line is not ended")]
    OpenLine = 23,
    #[error("this word is not allowed here")]
    WordNotAllowed = 24,
    #[error("the line ends where a word is owed")]
    WordMissing = 25,
    #[error("a number within its range is owed here")]
    NumberOwed = 26,
    #[error("the clause number is not above the one before")]
    NumberNotRising = 27,
    #[error("the text has more than 64 lines")]
    TooManyLines = 28,
}

impl Refusal {
    /// The number by which the refusal is known to users.
    pub fn number(self) -> u8
        ensures { result ≡ number_of self }
    {
        self as u8
    }
}
