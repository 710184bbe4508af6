ghost use Rattle.std.specs.Prelude.{◌≡◌, ℕ, MatchResult};
ghost use Rattle.std.specs.Option.{unwrap_or};
ghost use Rattle.grammar.specs.Books.{BookFault};
ghost use Rattle.book.specs.Seating.{book_meaning, number_at};
ghost use Rattle.watch.specs.Account.{account};
ghost use Rattle.terms_watch.specs.Stories.{term_at, Opens};

use book::Book;
use grammar::Fault;
use std::array;
use watch::Watch;

/// The clause number of each seat: that of seat k stands at k, and 0 where the book has no such seat.
// 0, and no Option: a line has a number for each notice, and the promise of the page says 0 there. No clause has it.
#[derive(Clone, Copy)]
pub struct ClauseNumbers {
    numbers: [u16; 65],
}

impl From<&Book> for ClauseNumbers {
    ghost from_gives = { λ book terms. (k : ℕ) → term_at terms k ≡ unwrap_or (number_at book.now k) 0 };

    fn from(book: &Book) -> ClauseNumbers {
        ClauseNumbers {
            numbers: array::from_fn(|seat| book.clause_number(seat as u8).unwrap_or(0)),
        }
    }
}

impl ClauseNumbers {
    /// The clause number of a seat, or 0 where the book has no such seat.
    pub fn get(&self, seat: u8) -> u16
        ensures { result ≡ term_at self.now seat }
    {
        self.numbers.get(usize::from(seat)).copied().unwrap_or(0)
    }
}

/// Makes a watch on the book of a text, with the clause numbers of its seats.
pub fn open(text: &[u8]) -> Result<(Watch<Book>, ClauseNumbers), Fault>
    ensures { MatchResult result (λ o. Opens text.now (account book_meaning o.0) o.1) (λ f. BookFault text.now f) }
{
    let mut book = Book::new();
    book.read(text)?;
    let terms = ClauseNumbers::from(&book);
    Ok((Watch::new(book), terms))
}
