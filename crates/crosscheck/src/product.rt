//! The watch under trial, asked in the same way as the second one.
use crate::model::Told;
use crate::refusal::{Refusal, UnknownRefusal};
use crate::talk::{Answers, ROOM, Reply};
use book::Book;
use watch::{Notice, Watch};

/// What stands in the caller's list beforehand. No notice is like it.
const UNTOUCHED: Notice = Notice {
    seat: 211,
    number: 777_777_777_777_777,
};

#[derive(Drop)]
pub(crate) struct Product {
    watch: Watch<Book>,
}

impl From<Notice> for Told {
    fn from(notice: Notice) -> Told {
        Told {
            number: notice.number,
            seat: notice.seat,
        }
    }
}

impl Product {
    pub(crate) fn new(book: Book) -> Product {
        Product {
            watch: Watch::new(book),
        }
    }
}

// A `match` in each call: the product's refusal is known here by its number alone, and a number can be one that no call may give.
impl Answers for Product {
    type Error = UnknownRefusal;

    fn begin(&mut self, number: u64) -> Result<Reply, UnknownRefusal> {
        match self.watch.begin(number) {
            Ok(()) => Ok(Reply::Begun(Ok(()))),
            Err(refusal) => Ok(Reply::Begun(Err(refusal.number().try_into()?))),
        }
    }

    fn deliver(&mut self, piece: &[u32]) -> Result<Reply, UnknownRefusal> {
        match self.watch.deliver(piece) {
            (taken, None) => Ok(Reply::Taken(taken, None)),
            (taken, Some(refusal)) => Ok(Reply::Taken(taken, Some(refusal.number().try_into()?))),
        }
    }

    fn list(&self, room: usize) -> Result<Reply, UnknownRefusal> {
        let mut notices = [UNTOUCHED; ROOM];
        let reach = room.min(ROOM);
        let (written, waiting) = self.watch.list(&mut notices[..reach]);
        Ok(Reply::Listed {
            written,
            waiting,
            out: notices.map(|notice| (notice != UNTOUCHED).then(|| notice.into())),
        })
    }

    fn collect(&mut self) -> Result<Reply, UnknownRefusal> {
        match self.watch.collect() {
            Ok(notice) => Ok(Reply::Collected(Ok(notice.into()))),
            Err(refusal) => Ok(Reply::Collected(Err(refusal.number().try_into()?))),
        }
    }

    fn next_number(&self) -> u64 {
        self.watch.next_number()
    }
}
