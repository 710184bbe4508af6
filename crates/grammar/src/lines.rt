ghost use Rattle.std.specs.Prelude.{◌≡◌, ◌+◌, ◌^◌, ◌<◌, ◌≤◌, List, length, MatchResult, IfErr};
ghost use Rattle.std.specs.Result.{IsOkAnd};
ghost use Rattle.grammar.specs.declared.tree.Line.{Line as Said};
ghost use Rattle.grammar.specs.Words.{line_ends};
ghost use Rattle.grammar.specs.Books.{last_from, Ended, IsBook, BookFault, IsOneFault};
ghost use Rattle.grammar.specs.Contract.{ReadsLine};

use crate::fault::{Fault, Place};
use crate::reader::Reader;
use crate::tree::Line;
use crate::word::split_line;
use arrayvec::ArrayVec;

/// The lines of the book that a text is, or the text's fault.
pub fn read_lines(text: &[u8]) -> Result<ArrayVec<Line, 64>, Fault>
    ensures read { MatchResult result (λ lines. IsBook text.now lines.items) (λ f. BookFault text.now f) }
    ensures every { (ls : List Said) → IsBook text.now ls → IsOkAnd result (λ lines. lines.items ≡ ls) }
    ensures fault { IfErr result (λ f. IsOneFault text.now f) }
{
    if text.is_empty() {
        return Err(Fault::EmptyText);
    }
    if text.len() > 8192 {
        return Err(Fault::TextTooLong);
    }
    if text[text.len() - 1] != b'\n' {
        return Err(Fault::OpenLine(Place {
            line: line_ends(text) + 1,
            byte: text.len(),
        }));
    }
    read_ended(text)
}

fn line_ends(text: &[u8]) -> usize
    ensures value { result ≡ line_ends text.now }
    ensures inside { result ≤ length text.now }
{
    text.iter().filter(|b| **b == b'\n').count()
}

/// Reads line by line. The text is neither empty nor too long, and its last line is ended.
fn read_ended(text: &[u8]) -> Result<ArrayVec<Line, 64>, Fault>
    requires { Ended text.now }
    ensures { MatchResult result (λ lines. IsBook text.now lines.items) (λ f. BookFault text.now f) }
{
    let mut lines = ArrayVec::new();
    let mut rest = text;
    while let Some((line, after)) = split_line(rest) {
        let start = Place {
            line: lines.len() + 1,
            byte: text.len() - rest.len(),
        };
        if lines.is_full() {
            return Err(Fault::TooManyLines { byte: start.byte });
        }
        lines.push(read_line(line, start, last_number(&lines))?);
        rest = after;
    }
    Ok(lines)
}

/// The number of the last of these lines, or 0.
// 0, and no Option: it is below every clause number, so that the first line is held against it like any other.
fn last_number(lines: &[Line]) -> u16
    ensures { result ≡ last_from 0 lines.now }
{
    match lines {
        [] => 0,
        [.., last] => last.number.get(),
    }
}

/// Reads a line, which begins at `start` in a text, and follows a line with number `last`.
fn read_line(line: &[u8], start: Place, last: u16) -> Result<Line, Fault>
    requires { start.byte + length line.now < 2 ^ 64 }
    ensures { ReadsLine last line.now start result }
{
    let mut reader = Reader { line, at: 0 };
    let number = reader.clause().map_err(|snag| snag.fault(start))?;
    if number.get() <= last {
        return Err(Fault::NumberNotRising(start));
    }
    reader.terms(number).map_err(|snag| snag.fault(start))
}
