ghost use Rattle.std.specs.Prelude.{◌≡◌, ◌≤◌, length};
ghost use Rattle.rows.specs.Traces.{word_bytes, sample_bytes, EncodedRow};

use crate::reading::read_row;
use crate::slip::Slip;
use arrayvec::ArrayVec;
use stream::{Sample, write_sample};

/// The bytes by which a sample is sent: six words at most, for the longest gap.
pub type SampleBytes = ArrayVec<u8, 24>;

/// The bytes by which the sample of a line is sent.
pub fn encode_row(line: &[u8]) -> Result<SampleBytes, Slip>
    ensures { EncodedRow line.now result }
{
    Ok(bytes_of_sample(read_row(line)?))
}

fn bytes_of_sample(sample: Sample) -> SampleBytes
    ensures { result.items ≡ sample_bytes sample }
{
    // A lent list and a count, since `write_sample` promises what stays in the list of its caller.
    let mut words = [0; 6];
    let count = write_sample(sample.gap(), sample.letters(), &mut words).unwrap();
    bytes_of_words(&words[..count])
}

/// The high byte of each word first.
fn bytes_of_words(words: &[u32]) -> SampleBytes
    requires { length words.now ≤ 6 }
    ensures { result.items ≡ word_bytes words.now }
{
    let mut bytes = ArrayVec::new();
    for word in words {
        bytes.try_extend_from_slice(&word.to_be_bytes()).unwrap();
    }
    bytes
}
