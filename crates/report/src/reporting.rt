ghost use Rattle.watch.specs.Pieces.{words};
ghost use Rattle.report.specs.Reports.{Reported};
ghost use Rattle.report.specs.Runs.{bytes_on};

use crate::page::Page;
use crate::run::{Ending, Run};

/// What is printed of the text of a book and the pieces of a trace, whose reading ended so.
pub fn report(text: &[u8], pieces: &[&[u8]], end: Ending) -> Page
    ensures { Reported text.now (words pieces.now) end (bytes_on result) }
{
    match Run::new(text) {
        Ok(mut run) => {
            for piece in pieces {
                run.read(piece);
            }
            run.page(end)
        }
        Err(fault) => Page::stopped(fault.refusal()),
    }
}
