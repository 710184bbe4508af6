ghost use Rattle.std.specs.Prelude.{◌≡◌, ℕ, ◌+◌, ◌*◌, ◌^◌, ◌<◌, ◌≤◌, length, decimal, SomeIff, ◌≢◌, slice_index};
ghost use Rattle.rows.specs.Rows.{letters_in, letters_text, ReadBelow, ReadRow};

use crate::slip::{Expected, Slip};
use stream::Sample;

/// Reads one line, without its line end. It gives the sample whose row this is, and a slip only if it is the row of none.
/// The slip's column is that of the first byte with which no row can begin any more, or that of the line's end.
pub fn read_row(line: &[u8]) -> Result<Sample, Slip>
    ensures { ReadRow line.now result }
{
    let space = space_at(line);
    let (word, rest) = line.split_at(space);
    let gap = read_gap(word)?;
    let Some(text) = rest.strip_prefix(b" ") else {
        return Err(Slip {
            column: space,
            expected: Expected::Space,
        });
    };
    let letters = read_letters(text).map_err(|slip| slip.behind(space + 1))?;
    Ok(Sample::new(gap, letters).unwrap())
}

/// The column of the first space, or that of the line's end.
fn space_at(line: &[u8]) -> usize
    ensures within { result ≤ length line.now }
    ensures before { (k : ℕ) → k < result → slice_index line.now k ≢ 32 }
    ensures here { result < length line.now → slice_index line.now result ≡ 32 }
{
    line.iter()
        .position(|byte| *byte == b' ')
        .unwrap_or(line.len())
}

/// Stops at the digit that passes the longest gap.
#[tactic(auto, using(crate::proofs::Gaps::gap_reading))]
fn read_gap(word: &[u8]) -> Result<u32, Slip>
    ensures { ReadBelow (2 ^ 32) decimal word.now result }
{
    let (first, others) = word.split_first().ok_or(Slip {
        column: 0,
        expected: Expected::Gap,
    })?;
    if *first == b'0' && !others.is_empty() {
        return Err(Slip {
            column: 1,
            expected: Expected::Space,
        });
    }
    let mut gap = 0;
    for (column, byte) in word.iter().enumerate() {
        if !byte.is_ascii_digit() {
            return Err(Slip::at(column, Expected::Gap, Expected::Space));
        }
        gap = longer(gap, *byte - b'0').ok_or(Slip {
            column,
            expected: Expected::Gap,
        })?;
    }
    Ok(gap)
}

/// The gap with one digit more, if it can be so long.
fn longer(gap: u32, digit: u8) -> Option<u32>
    ensures { SomeIff result (gap * 10 + digit < 2 ^ 32) (gap * 10 + digit) }
{
    gap.checked_mul(10)?.checked_add(u32::from(digit))
}

/// Reads the letters of a row, or `-`, behind which the line ends.
#[tactic(auto, using(crate::proofs::Readings::letters_reading))]
fn read_letters(text: &[u8]) -> Result<u32, Slip>
    ensures { ReadBelow (2 ^ 24) letters_text text.now result }
{
    match text.strip_prefix(b"-") {
        Some([]) => Ok(0),
        Some(_) => Err(Slip {
            column: 1,
            expected: Expected::LineEnd,
        }),
        None if text.is_empty() => Err(Slip {
            column: 0,
            expected: Expected::Letters,
        }),
        None => letters_of(text),
    }
}

/// Reads letters, which stand in alphabetical order.
fn letters_of(text: &[u8]) -> Result<u32, Slip>
    ensures { ReadBelow (2 ^ 24) (letters_in 24 97) text.now result }
{
    let mut letters = 0;
    let mut first = b'a';
    for (column, byte) in text.iter().enumerate() {
        if *byte < first || *byte > b'x' {
            return Err(Slip::at(column, Expected::Letters, Expected::LaterLetter));
        }
        letters += 1 << (*byte - b'a');
        first = *byte + 1;
    }
    Ok(letters)
}
