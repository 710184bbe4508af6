use arrayvec::ArrayVec;
use report::{Ending, Run, read_text};
use std::fs::File;
use std::io;

/// A file that is read, by its path.
#[derive(Clone, Copy)]
pub(crate) struct Input<'a> {
    pub(crate) rt: &'a HostRuntime,
    pub(crate) path: &'a str,
}

impl Input<'_> {
    /// The text of a book, as far as it counts.
    // A call of its own: what it reads in is off the stack before the book is made.
    #[inline(never)]
    pub(crate) fn text(self) -> io::Result<ArrayVec<u8, 8193>> {
        read_text(File::open(self.rt, self.path)?)
    }

    /// Has a run go through the bytes of the file, up to its end or the first word that is refused.
    pub(crate) fn follow(self, run: &mut Run) -> Ending {
        match File::open(self.rt, self.path) {
            Ok(mut file) => run.follow(&mut file),
            Err(_) => Ending::Unreadable,
        }
    }
}
