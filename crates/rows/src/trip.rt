ghost use Rattle.std.specs.Prelude.{◌≡◌, Some};
ghost use Rattle.stream.specs.declared.sample.Sample.{Sample};
ghost use Rattle.rows.specs.Traces.{sample_bytes, row_in, Returned};

use crate::decoder::{Decoder, Entry};
use crate::sending::encode_row;
use crate::slip::Slip;
use crate::writing::{RowText, write_row};
use stream::{Refusal, Sample};

/// Encodes a line, decodes its bytes, and writes the row of what came back: the same line.
pub fn there_and_back(line: &[u8]) -> Result<RowText, Slip>
    ensures { Returned line.now result }
{
    let bytes = encode_row(line)?;
    let sample = first_row(&bytes).unwrap();
    Ok(write_row(sample))
}

/// The first row of a trace.
fn first_row(bytes: &[u8]) -> Option<Sample>
    ensures { (s : Sample) → bytes.now ≡ sample_bytes s → result ≡ Some s }
{
    let mut decoder = Decoder::new();
    // A loop, and no `find_map`, which was tried: of a closure that changes the decoder the check knows nothing afterwards.
    for byte in bytes {
        if let Some(sample) = row_in(decoder.push(*byte)) {
            return Some(sample);
        }
    }
    None
}

/// The row in a decoder's answer, if it is one.
fn row_in(answer: Result<Option<Entry>, Refusal>) -> Option<Sample>
    ensures { result ≡ row_in answer }
{
    match answer.ok()?? {
        Entry::Row(sample) => Some(sample),
        Entry::End => None,
    }
}
