//! What `terms` prints, as a promise on values: of every text and every trace, however its bytes are cut, every byte of the report.
//! `Run` goes through a trace piece by piece, from bytes or from a file, and `report` does all of it at once.

#![tactic(auto)]

mod laws;
mod page;
mod printing;
mod reading;
mod reporting;
mod run;
mod running;

pub use laws::{fronts_tell, reports_tell};
pub use page::Page;
pub use reading::read_text;
pub use reporting::report;
pub use run::{Ending, Run};
