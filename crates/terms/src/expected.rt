use grammar::Fault;

const RULE: &str = "expected after, never, hold, repeat, answer or keep";

/// What can come behind the front of a line, whose words all stand where they may: the last word says it,
/// or, where that is a signal or a number, the word before it.
fn expected_behind(front: &[u8]) -> &'static str {
    let mut words = front
        .rsplit(|byte| *byte == b' ')
        .filter(|word| !word.is_empty());
    let Some(last) = words.next() else {
        return "expected a clause number from 1 to 9999";
    };
    match last {
        b"after" | b"never" | b"hold" | b"repeat" | b"answer" | b"by" | b"keep" | b"since" =>
            "expected a signal: a letter a to x or *, perhaps with ! before it",
        b"from" | b"least" | b"under" | b"within" | b"for" =>
            "expected a time limit from 0 to 999999999",
        b"or" => RULE,
        b"allow" => "expected a number from 0 to 255",
        _ => match words.next() {
            None => RULE,
            Some(keyword) => expected_past(keyword, words.any(|word| word == b"or".as_slice())),
        },
    }
}

/// What can come behind the signal or the number that a keyword asked for, in the first rule of a line or its second.
fn expected_past(keyword: &[u8], second: bool) -> &'static str {
    match keyword {
        b"after" => "expected never, hold, repeat, answer or keep",
        b"never" if second => "expected from, allow, or the end of the line",
        b"never" => "expected from, a further rule (or), allow, or the end of the line",
        b"hold" => "expected least or under",
        b"repeat" | b"by" => "expected within",
        b"answer" => "expected by",
        b"keep" => "expected for",
        b"for" => "expected since",
        b"allow" => "expected the end of the line",
        _ if second => "expected allow or the end of the line",
        _ => "expected a further rule (or), allow, or the end of the line",
    }
}

/// The column of a fault, from 1, and what was expected there, in plain words.
pub(crate) fn expected_at(text: &[u8], fault: Fault) -> (usize, &'static str) {
    let before = text.get(..fault.byte()).unwrap_or(text);
    let front = before
        .rsplit(|byte| *byte == b'\n')
        .next()
        .unwrap_or(before);
    let column = front.len() + 1;
    match fault {
        Fault::EmptyText => (column, "expected at least one line"),
        // this fault lies in no line, and its line is 1 wherever its byte is
        Fault::TextTooLong => (1, "expected at most 8192 bytes in all"),
        Fault::OpenLine { .. } => (column, "expected a line end after the last line"),
        Fault::TooManyLines { .. } => (column, "expected at most 64 lines"),
        Fault::NumberNotRising { .. } => {
            (column, "expected a number above that of the line before")
        }
        _ => (column, expected_behind(front)),
    }
}
