//! What all stories gave: the counts, and the first difference in words.
use crate::model::{Row, Told};
use crate::refusal::{Refusal, UnknownRefusal};
use crate::talk::{Ask, Reply};
use crate::tally::Tally;
use std::alloc::{AllocError, Global};

#[derive(Drop)]
pub(crate) struct Record {
    heap: Global,
    pub(crate) tally: Tally,
    /// The first difference, with the story and the call.
    pub(crate) first: Option<String>,
}

/// The page of the record for one story.
#[derive(Drop)]
pub(crate) struct Page<'a> {
    record: &'a mut Record,
    /// The story's number, by which it can be played again.
    story: u32,
    /// The text of its book.
    book: String,
}

impl Record {
    pub(crate) fn new(heap: Global) -> Record {
        Record {
            heap,
            tally: Tally::new(heap),
            first: None,
        }
    }
}

impl<'a> Page<'a> {
    pub(crate) fn new(record: &'a mut Record, story: u32, book: String) -> Page<'a> {
        Page {
            record,
            story,
            book,
        }
    }

    pub(crate) fn book(&self) -> &str {
        self.book.as_str()
    }

    /// Counts a call, and whether the watches answered the same.
    pub(crate) fn called(
        &mut self,
        ask: Ask<'_>,
        product: &Result<Reply, UnknownRefusal>,
        second: &Reply,
    ) -> Result<(), AllocError> {
        self.record.tally.called(second.refusal())?;
        let heap = self.record.heap;
        let what = match product {
            Ok(product) if product == second => return Ok(()),
            Ok(product) => format!(in heap; "{ask:?}\nproduct: {product}\nsecond: {second}")?,
            Err(unknown) => format!(in heap; "{ask:?}\nproduct: {unknown}\nsecond: {second}")?,
        };
        self.differs(what.as_str())
    }

    /// Counts the refusal of a text that is no book.
    pub(crate) fn refused(&mut self, refusal: Refusal) -> Result<(), AllocError> {
        self.record.tally.refused(refusal)
    }

    /// Counts the story, with its rows and which of them were lost.
    pub(crate) fn ended(&mut self, rows: &[Row], losses: &[Told]) -> Result<(), AllocError> {
        self.record.tally.story(rows, losses)
    }

    /// Counts a difference where something is not as it should be.
    pub(crate) fn expect(&mut self, same: bool, what: &str) -> Result<(), AllocError> {
        if same { Ok(()) } else { self.differs(what) }
    }

    fn differs(&mut self, what: &str) -> Result<(), AllocError> {
        self.record.tally.differs();
        if self.record.first.is_none() {
            let story = self.story;
            let book = self.book();
            let first = format!(in self.record.heap; "story {story}, with the book\n{book}{what}")?;
            self.record.first = Some(first);
        }
        Ok(())
    }
}
