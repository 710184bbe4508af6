//! The lines of a report. Every line has 17 columns: a field of four, one space, and a field of twelve.
//! A number is written in base ten at the right end of its field, with spaces before it. Each
//! function is proved to give exactly the line that its contract names, at every argument.

#![tactic(auto)]

ghost use Rattle.std.specs.Prelude.{◌≡◌, ◌++◌, length, take};
ghost use Rattle.printout.specs.Lines.{field, header_line, notice_line, done_line, stop_line};

use itoa::Buffer;

// Fills `out` with `n`, or with its last digits where `out` is too short for all of them.
fn write_right(out: &mut [u8], n: u64)
    ensures { out.new ≡ field (length out.old) n }
{
    let mut buffer = Buffer::new();
    let digits = buffer.format(n).as_bytes();
    let cut = digits.len().saturating_sub(out.len());
    let blank = out.len().saturating_sub(digits.len());
    out.fill(b' ');
    out[blank..].copy_from_slice(&digits[cut..]);
}

// Columns 6 to 17; the others stay as they are.
fn put_number(line: &mut [u8; 17], number: u64)
    ensures { line.new ≡ take 5 line.old ++ field 12 number }
{
    write_right(&mut line[5..17], number);
}

// A last line: its word stands in it, and a number comes behind.
fn last(mut line: [u8; 17], number: u64) -> [u8; 17]
    ensures { result ≡ take 5 line ++ field 12 number }
{
    put_number(&mut line, number);
    line
}

/// The line above the notices.
pub fn header() -> [u8; 17]
    ensures { result ≡ header_line }
{
    *b"TERM       SAMPLE"
}

/// One notice: a term, and the number of a sample.
pub fn notice(term: u16, number: u64) -> [u8; 17]
    ensures { result ≡ notice_line term number }
{
    let mut line = [b' '; 17];
    write_right(&mut line[0..4], u64::from(term));
    put_number(&mut line, number);
    line
}

/// The last line of a report that is whole: the word DONE, and a count.
pub fn done(count: u64) -> [u8; 17]
    ensures { result ≡ done_line count }
{
    last(*b"DONE             ", count)
}

/// The last line of a report that breaks off: the word STOP, and the number of the refusal.
pub fn stop(refusal: u8) -> [u8; 17]
    ensures { result ≡ stop_line refusal }
{
    last(*b"STOP             ", u64::from(refusal))
}

#[cfg(test)]
mod tests {
    use super::*;

    #[test]
    fn lines(rt: HostRuntime) {
        let cases = [
            (notice(3, 4), *b"   3            4"),
            (notice(0, 0), *b"   0            0"),
            (notice(9999, 999_999_999_999), *b"9999 999999999999"),
            (notice(12_345, 1_234_567_890_123), *b"2345 234567890123"),
            (done(6), *b"DONE            6"),
            (stop(28), *b"STOP           28"),
        ];
        for (line, text) in cases {
            assert_eq!(rt; line, text);
        }
    }
}
