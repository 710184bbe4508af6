//! Plays one story through both watches, and compares every answer.
use crate::invent::{Inventor, MOST_ROWS};
use crate::model::Row;
use crate::product::Product;
use crate::record::{Page, Record};
use crate::second::Second;
use crate::talk::{Answers, Ask, Reply};
use book::Book;
use std::alloc::{AllocError, Global};

/// A story under way.
#[derive(Drop)]
struct Story<'a> {
    page: Page<'a>,
    inventor: Inventor,
    /// The words that were neither taken, nor left out after a refusal.
    rest: &'a [u32],
    product: Product,
    second: Second,
}

/// Plays a story from its beginning to its end.
pub(crate) fn play(heap: Global, story: u32, record: &mut Record) -> Result<(), AllocError> {
    let mut inventor = Inventor::new(heap, story);
    let rows = inventor.rows()?;
    let text = spelled(heap, &rows)?;
    let mut page = Page::new(record, story, text);
    let book = open(&mut page, &rows, &mut inventor)?;
    let words = inventor.words()?;
    let mut story = Story {
        page,
        inventor,
        rest: &words,
        product: Product::new(book),
        second: Second::new(heap, rows),
    };
    story.begin()?;
    story.middle()?;
    story.end()
}

/// The text of a book, spelled from its rows.
fn spelled(heap: Global, rows: &[Row]) -> Result<String, AllocError> {
    let mut text = String::new(heap);
    for row in rows {
        writeln!(text, "{row}")?;
    }
    Ok(text)
}

/// The product's book. Sometimes it is also given a text that is no book, which it has to leave aside.
fn open(page: &mut Page<'_>, rows: &[Row], inventor: &mut Inventor) -> Result<Book, AllocError> {
    let mut book = Book::new();
    let read = book.read(page.book().as_bytes()).is_ok();
    page.expect(read, "the product does not read this book")?;
    if inventor.random.once_in(2) {
        let spoiled = inventor.spoiled(page.book(), rows.len())?;
        let found = book
            .read(spoiled.text.as_bytes())
            .map_err(|fault| fault.refusal().number());
        page.refused(spoiled.fault)?;
        page.expect(
            found == Err(spoiled.fault.into()),
            "the product finds another fault in a faulty text",
        )?;
    }
    page.expect(same_numbers(&book, rows), "the clause numbers differ")?;
    Ok(book)
}

/// Whether every seat has the clause number of its row, and no other seat has one.
fn same_numbers(book: &Book, rows: &[Row]) -> bool {
    (0..=u8::MAX).all(|seat| {
        let row = seat
            .checked_sub(1)
            .and_then(|before| rows.get(usize::from(before)));
        book.clause_number(seat) == row.map(|row| row.number)
    })
}

impl<'a> Story<'a> {
    /// Asks both watches, and compares what they answer.
    fn ask(&mut self, ask: Ask<'_>) -> Result<(), AllocError> {
        let product = self.product.answer(ask);
        let second = self.second.answer(ask)?;
        self.page.called(ask, &product, &second)?;
        self.pass(&second);
        Ok(())
    }

    /// Goes on behind the words taken, and mostly behind a refused word too.
    fn pass(&mut self, reply: &Reply) {
        if let Reply::Taken(taken, refusal) = reply {
            let mut passed = *taken;
            if refusal.is_some() && !self.inventor.random.once_in(5) {
                passed = passed.saturating_add(1);
            }
            self.rest = self.rest.get(passed..).unwrap_or(&[]);
        }
    }

    /// The next words to deliver, at most so many.
    fn piece(&self, most: usize) -> &'a [u32] {
        self.rest.get(..most).unwrap_or(self.rest)
    }

    fn begin(&mut self) -> Result<(), AllocError> {
        for _ in 0..self.inventor.random.upto(2) {
            let number = self.inventor.start();
            self.ask(Ask::Begin(number))?;
        }
        Ok(())
    }

    fn middle(&mut self) -> Result<(), AllocError> {
        for _ in 0..self.inventor.random.upto(24) {
            let ask = self.invent();
            self.ask(ask)?;
        }
        Ok(())
    }

    fn invent(&mut self) -> Ask<'a> {
        match self.inventor.random.upto(15) {
            0 => Ask::Begin(self.inventor.start()),
            1..=8 => {
                let most = self.inventor.random.upto(6) as usize;
                Ask::Deliver(self.piece(most))
            }
            9..=12 => {
                let most = self.second.rows().len().min(MOST_ROWS) + 3;
                Ask::List(self.inventor.random.upto(most as u32) as usize)
            }
            _ => Ask::Collect,
        }
    }

    /// Delivers the rest, lists all, and collects past the last notice.
    fn end(&mut self) -> Result<(), AllocError> {
        for _ in 0..4 {
            self.ask(Ask::Deliver(self.rest))?;
        }
        let losses = self.second.losses()?;
        self.page.ended(self.second.rows(), &losses)?;
        self.ask(Ask::List(MOST_ROWS))?;
        for _ in 0..=losses.len() {
            self.ask(Ask::Collect)?;
        }
        let same = self.product.next_number() == self.second.next_number();
        self.page.expect(same, "the next numbers differ")
    }
}
