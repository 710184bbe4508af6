ghost use Rattle.std.specs.Prelude.{◌≡◌, ◌≤◌, ◌++◌};
ghost use Rattle.arrayvec.specs.ArrayString.{array_string_len};
ghost use Rattle.rows.specs.Rows.{letters_text, row_text};

use arrayvec::ArrayString;
use stream::Sample;

/// The text of a row, without a line end: ten digits, a space and 24 letters at most.
pub type RowText = ArrayString<35>;

/// The row of a sample.
// A function, and not `Display`: `Sample` is another crate's, and a type of its own around it would be made only to be printed.
pub fn write_row(sample: Sample) -> RowText
    ensures { result.bytes ≡ row_text sample }
{
    let mut row = ArrayString::new();
    let mut digits = itoa::Buffer::new();
    row.push_str(digits.format(sample.gap()));
    row.push(' ');
    push_letters(sample.letters(), &mut row);
    row
}

#[tactic(auto, using(std::proofs::lemmas::Grind::common_steps, crate::proofs::Readings::letters_writing))]
fn push_letters(letters: u32, row: &mut RowText)
    requires { array_string_len row.old ≤ 11 }
    ensures { row.new.bytes ≡ row.old.bytes ++ letters_text letters }
{
    if letters == 0 {
        row.push('-');
        return;
    }
    for letter in b'a'..=b'x' {
        if (letters >> (letter - b'a')) % 2 == 1 {
            row.push(char::from(letter));
        }
    }
}
