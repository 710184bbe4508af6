ghost use Rattle.std.specs.Prelude.{◌≡◌, List, [], ◌∷◌};
ghost use Rattle.stream.specs.declared.sample.Sample.{Sample};
ghost use Rattle.grammar.specs.Unread.{unread_line};
ghost use Rattle.book.specs.Clauses.{fails_clause, fresh_clause, Says};
ghost use Rattle.book.specs.Laws.{clause_lasting, clause_lasting_new, clause_starts};

use crate::rules::{Body, body_of};
use grammar::{ClauseNumber, Line};
use layers::Allow;
use monitor::{Monitor, judge_on};
use stream::Sample;

/// What a line says, as a monitor: allow over the line's rules, 0 where it is unsaid.
#[derive(Clone, Copy)]
pub struct Clause {
    number: ClauseNumber,
    body: Allow<Body>,
}

/// The clause of a line, before any sample.
impl From<&Line> for Clause {
    ghost from_gives = { λ line c. Says line.now c };

    fn from(line: &Line) -> Clause {
        let allowed = line.allow.unwrap_or(0);
        Clause {
            number: line.number,
            body: Allow::new(allowed, body_of(line)),
        }
    }
}

/// The clause of the line of a book that was never read.
impl Default for Clause {
    ghost is_default = { Says unread_line };

    fn default() -> Clause {
        Clause::from(&Line::default())
    }
}

impl Clause {
    /// The number of the clause.
    pub fn number(&self) -> u16
        ensures { result ≡ self.now.number.value }
    {
        self.number.get()
    }
}

impl Monitor for Clause {
    ghost fails_now = { fails_clause };

    ghost fails_new = { fresh_clause };

    ghost lasting_now = { clause_lasting };

    ghost lasting_new = { clause_lasting_new };

    ghost starts = { clause_starts };

    // An impl's clauses stand in place of its trait's: those of `judge` and `renew` are said again beside `numbered`.
    fn judge(&mut self, sample: Sample) -> bool
        ensures after { (l : List Sample) → fails_clause self.new l ≡ fails_clause self.old (sample ∷ l) }
        ensures keeps { (l : List Sample) → fresh_clause self.new l ≡ fresh_clause self.old l }
        ensures answer { result ≡ fails_clause self.new [] }
        ensures numbered { self.new.number ≡ self.old.number }
    {
        judge_on(&mut self.body, sample)
    }

    fn lost(&self) -> bool {
        self.body.lost()
    }

    fn renew(&mut self)
        ensures after { (l : List Sample) → fails_clause self.new l ≡ fresh_clause self.old l }
        ensures keeps { (l : List Sample) → fresh_clause self.new l ≡ fresh_clause self.old l }
        ensures numbered { self.new.number ≡ self.old.number }
    {
        self.body.renew();
    }
}
