//! Rows: a trace as readable lines. A row is a sample's gap in ticks, one space, and its letters or `-`, as `5 ab` or `0 -`.
//! A line is read as the sample whose row it is, and refused only if it is the row of none, at the first byte with which no row can
//! begin any more; a row is written, and the bytes by which its sample is sent, to the byte. It is promised that what is sent comes back:
//! of every list of samples whose numbers suffice, a decoder makes exactly that list, and a text of rows is that of one list only.

#![tactic(auto)]

mod decoder;
mod decoding;
mod laws;
mod reading;
mod sending;
mod slip;
mod trip;
mod writing;

pub use decoder::{Decoder, Entry};
pub use laws::{decoders_tell, texts_tell, traces_tell};
pub use reading::read_row;
pub use sending::{SampleBytes, encode_row};
pub use slip::{Expected, Slip};
pub use trip::there_and_back;
pub use writing::{RowText, write_row};
