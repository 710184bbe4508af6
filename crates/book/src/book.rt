ghost use Rattle.std.specs.Prelude.{◌≡◌, ◌≤◌, ℕ, List, [], ◌∷◌, length, IfErr};
ghost use Rattle.arrayvec.specs.ArrayVec.{array_vec_len};

use crate::clause::Clause;
use arrayvec::ArrayVec;
use grammar::{Fault, Line, read_lines};
use monitor::Monitor;
use panel::{Panel, Seats};
use stream::Sample;

/// The book of terms: 1 to 64 clauses, each at the seat of its line. One that was never read holds `1 never !*`.
#[derive(Drop)]
pub struct Book {
    clauses: ArrayVec<Clause, 64>,
    ghost some: { 1 ≤ array_vec_len clauses },
    ghost few: { array_vec_len clauses ≤ 64 },
}

impl Book {
    ghost use Rattle.grammar.specs.Books.{IsBook, IsOneFault};
    ghost use Rattle.grammar.specs.declared.tree.Line.{Line as Said};
    ghost use Rattle.book.specs.Seating.{number_at};
    ghost use Rattle.grammar.specs.Unread.{unread_line};
    ghost use Rattle.book.specs.Books.{Holds};
    ghost use Rattle.book.specs.Reading.{Reads, HoldsRead};

    /// The book that was never read.
    pub fn new() -> Book
        ensures { Holds result (unread_line ∷ []) }
    {
        Book::of(&[Line::default()])
    }

    /// Reads a text: the book is then that of its lines. After a fault it is as before.
    pub fn read(&mut self, text: &[u8]) -> Result<(), Fault>
        ensures read { Reads text.now self.old result self.new }
        ensures every { (ls : List Said) → IsBook text.now ls → HoldsRead ls result self.new }
        ensures fault { IfErr result (IsOneFault text.now) }
    {
        let lines = read_lines(text)?;
        *self = Book::of(&lines);
        Ok(())
    }

    /// The book of these lines.
    // No `TryFrom`: who has lines has read them, so that they are 1 to 64, and no refusal of others is known.
    pub(crate) fn of(lines: &[Line]) -> Book
        requires some { 1 ≤ length lines.now }
        requires few { length lines.now ≤ 64 }
        ensures { Holds result lines.now }
    {
        let mut clauses = ArrayVec::new();
        for line in lines {
            clauses.push(Clause::from(line));
        }
        Book { clauses }
    }

    /// The clause number of a seat, if the book has that seat.
    pub fn clause_number(&self, seat: u8) -> Option<u16>
        ensures { result ≡ number_at self.now seat }
    {
        let index = seat.checked_sub(1)?;
        self.clauses.get(index as usize).map(Clause::number)
    }
}

impl Panel for Book {
    ghost use Rattle.panel.specs.Seating.{has_seat};
    ghost use Rattle.panel.specs.Panels.{PanelAfter};
    ghost use Rattle.book.specs.Seating.{book_meaning, number_at};
    ghost use Rattle.book.specs.Laws.{book_lawful};

    ghost meaning = { book_meaning };

    ghost lawful = { book_lawful };

    // An impl's clauses stand in place of its trait's: these are said again beside `numbered`.
    fn judge(&mut self, sample: Sample) -> Seats
        ensures after { PanelAfter (book_meaning self.old) (sample ∷ []) (book_meaning self.new) }
        ensures answer { (k : ℕ) → has_seat result k ≡ (book_meaning self.new).lost [] k }
        ensures numbered { (k : ℕ) → number_at self.new k ≡ number_at self.old k }
    {
        let mut lost = Seats::none();
        for (i, clause) in self.clauses.iter_mut().enumerate() {
            if clause.judge(sample) {
                lost = lost.union(Seats::only(i as u8 + 1));
            }
        }
        lost
    }

    // The loop of `judge` again: one text for both would be lent clauses for change and for a look alike.
    fn lost(&self) -> Seats {
        let mut seats = Seats::none();
        for (i, clause) in self.clauses.iter().enumerate() {
            if clause.lost() {
                seats = seats.union(Seats::only(i as u8 + 1));
            }
        }
        seats
    }

    fn seats(&self) -> u8 {
        self.clauses.len() as u8
    }
}
