ghost use Rattle.std.specs.Prelude.{◌≡◌};
ghost use Rattle.stream.specs.Traces.{fed_by};
ghost use Rattle.report.specs.Runs.{WhereFollows};

use book::Book;
use stream::{Assembler, Refusal};
use terms_watch::ClauseNumbers;
use watch::Watch;

/// How the reading of a trace ended.
// Two named cases, and no `Result`: why a file could not be read is known where it is, and not here.
#[derive(Clone, Copy)]
pub enum Ending {
    /// At the end of the file.
    Complete,
    /// The file could not be opened, or could not be read to its end.
    Unreadable,
}

/// A trace on its way through the watch of a book.
#[derive(Drop)]
pub struct Run {
    pub(crate) watch: Watch<Book>,
    pub(crate) terms: ClauseNumbers,
    /// The bytes of the word that is not whole yet.
    pub(crate) held: Assembler,
    /// Why a word was refused. What follows it is passed over.
    pub(crate) refused: Option<Refusal>,
}

impl Run {
    /// The refusal of a word, if one was refused.
    pub fn refused(&self) -> Option<Refusal>
        ensures { WhereFollows self.now (λ text bytes. result ≡ (fed_by bytes).refused) }
    {
        self.refused
    }
}
