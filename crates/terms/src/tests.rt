use crate::expected::expected_at;
use crate::files::Input;
use crate::watch_files;
use arrayvec::ArrayVec;
use book::Book;
use std::fs;
use std::io::Write;
use std::test::Fail;
use watch::{Notice, Watch};

const NONE: Notice = Notice { seat: 0, number: 0 };

#[test]
fn numbers_beyond_sixteen_bits(rt: HostRuntime) -> Result<(), Fail> {
    let mut book = Book::new();
    assert!(rt; book.read(b"1 never b\n12 never a\n").is_ok());
    let mut watch = Watch::new(book);
    watch.begin(65_535)?;
    let (taken, refused) = watch.deliver(&[0x4000_0000, 0x4000_0000, 0x4000_0003, 0x8000_0000, 7]);
    assert_eq!(rt; taken, 3);
    assert!(rt; refused.is_some());
    let mut out = [NONE; 2];
    assert_eq!(rt; watch.list(&mut out), (2, 2));
    assert_eq!(rt; out[1].number, 65_537);
    assert_eq!(rt; watch.collect()?.seat, 1);
    assert_eq!(rt; watch.collect()?.seat, 2);
    assert!(rt; watch.collect().is_err());
    Ok(())
}

/// What is said of the first fault of a text: its line and column, and what was expected there.
fn expected_in(text: &[u8]) -> Option<(usize, usize, &'static str)> {
    let fault = Book::new().read(text).err()?;
    let (column, expected) = expected_at(text, fault);
    Some((fault.line(), column, expected))
}

const NUMBER: &str = "expected a clause number from 1 to 9999";

const RULE: &str = "expected after, never, hold, repeat, answer or keep";

const BODY: &str = "expected never, hold, repeat, answer or keep";

const SIGNAL: &str = "expected a signal: a letter a to x or *, perhaps with ! before it";

const LIMIT: &str = "expected a time limit from 0 to 999999999";

const FROM: &str = "expected from, a further rule (or), allow, or the end of the line";

const FURTHER: &str = "expected a further rule (or), allow, or the end of the line";

/// A word that fits nowhere, behind each front that a line can have: its column, and what was expected there.
const FRONTS: [(&[u8], usize, &str); 36] = [
    (b"?\n", 1, NUMBER),
    (b"7 ?\n", 3, RULE),
    (b"7 after ?\n", 9, SIGNAL),
    (b"7 after a ?\n", 11, BODY),
    (b"7 never ?\n", 9, SIGNAL),
    (b"7 never a ?\n", 11, FROM),
    (b"7 never a from ?\n", 16, LIMIT),
    (b"7 never a from 5 ?\n", 18, FURTHER),
    (b"7 hold ?\n", 8, SIGNAL),
    (b"7 hold a ?\n", 10, "expected least or under"),
    (b"7 hold a least ?\n", 16, LIMIT),
    (b"7 hold a under ?\n", 16, LIMIT),
    (b"7 hold a least 5 ?\n", 18, FURTHER),
    (b"7 hold a under 5 ?\n", 18, FURTHER),
    (b"7 repeat ?\n", 10, SIGNAL),
    (b"7 repeat a ?\n", 12, "expected within"),
    (b"7 repeat a within ?\n", 19, LIMIT),
    (b"7 repeat a within 5 ?\n", 21, FURTHER),
    (b"7 answer ?\n", 10, SIGNAL),
    (b"7 answer a ?\n", 12, "expected by"),
    (b"7 answer a by ?\n", 15, SIGNAL),
    (b"7 answer a by b ?\n", 17, "expected within"),
    (b"7 answer a by b within ?\n", 24, LIMIT),
    (b"7 answer a by b within 5 ?\n", 26, FURTHER),
    (b"7 keep ?\n", 8, SIGNAL),
    (b"7 keep a ?\n", 10, "expected for"),
    (b"7 keep a for ?\n", 14, LIMIT),
    (b"7 keep a for 5 ?\n", 16, "expected since"),
    (b"7 keep a for 5 since ?\n", 22, SIGNAL),
    (b"7 keep a for 5 since b ?\n", 24, FURTHER),
    (b"7 never a or ?\n", 14, RULE),
    (b"7 never a or after b ?\n", 22, BODY),
    (
        b"7 never a or never b ?\n",
        22,
        "expected from, allow, or the end of the line",
    ),
    (
        b"7 never a or hold b under 5 or\n",
        29,
        "expected allow or the end of the line",
    ),
    (
        b"7 never a allow ?\n",
        17,
        "expected a number from 0 to 255",
    ),
    (b"7 never a allow 5 ?\n", 19, "expected the end of the line"),
];

#[test]
fn what_was_expected(rt: HostRuntime) {
    for (text, column, expected) in FRONTS {
        assert_eq!(rt; expected_in(text), Some((1, column, expected)));
    }
}

/// What is expected in a second rule, which no further one follows, where this is in a first.
fn in_second(first: &'static str) -> &'static str {
    match first {
        FROM => "expected from, allow, or the end of the line",
        FURTHER => "expected allow or the end of the line",
        _ => first,
    }
}

#[test]
fn what_was_expected_in_a_second_rule(rt: HostRuntime) -> Result<(), Fail> {
    for (text, column, first) in FRONTS {
        let Some(front) = text.strip_prefix(b"7 ") else {
            continue;
        };
        if front.starts_with(b"never a or") {
            continue;
        }
        let mut line: ArrayVec<u8, 64> = ArrayVec::new();
        line.try_extend_from_slice(b"7 never a or ")?;
        line.try_extend_from_slice(front)?;
        let expected = Some((1, column.saturating_add(11), in_second(first)));
        assert_eq!(rt; expected_in(&line), expected);
    }
    Ok(())
}

/// In a line behind another.
#[test]
fn what_was_expected_in_a_second_line(rt: HostRuntime) {
    let expected = expected_in(b"3 never c\n12 answer a by b in 5\n");
    assert_eq!(rt; expected, Some((2, 18, "expected within")));
}

/// The faults that are not at a word.
#[test]
fn what_was_expected_of_a_text(rt: HostRuntime) {
    let cases: [(&[u8], usize, usize, &str); 4] = [
        (b"", 1, 1, "expected at least one line"),
        (&[b'a'; 8193], 1, 1, "expected at most 8192 bytes in all"),
        (
            b"7 never a\n8 never",
            2,
            8,
            "expected a line end after the last line",
        ),
        (
            b"7 never a\n7 never a\n",
            2,
            1,
            "expected a number above that of the line before",
        ),
    ];
    for (text, line, column, expected) in cases {
        assert_eq!(rt; expected_in(text), Some((line, column, expected)));
    }
}

/// What is printed of two files, and then what is said of a STOP.
fn seen(rt: &HostRuntime, terms: &str, trace: &str) -> Result<Vec<u8>, Fail> {
    let terms = Input { rt, path: terms };
    let trace = Input { rt, path: trace };
    let mut seen = Vec::new(rt.alloc());
    if let Some(stop) = watch_files(terms, trace, &mut seen)? {
        write!(seen, "{stop}")?;
    }
    Ok(seen)
}

/// The same of two files that are written first and removed afterwards.
fn seen_of(rt: &HostRuntime, name: &str, terms: &[u8], trace: &[u8]) -> Result<Vec<u8>, Fail> {
    let terms_path = format!(in rt.alloc(); "{name}.txt")?;
    let trace_path = format!(in rt.alloc(); "{name}.bin")?;
    fs::write(rt, terms_path.as_str(), terms)?;
    fs::write(rt, trace_path.as_str(), trace)?;
    let seen = seen(rt, &terms_path, &trace_path)?;
    fs::remove_file(rt, terms_path.as_str())?;
    fs::remove_file(rt, trace_path.as_str())?;
    Ok(seen)
}

const WORDS: &[u8] = &[0x40, 0, 0, 4, 0x40, 0, 0, 0];

#[test]
fn a_report_that_is_done(rt: HostRuntime) -> Result<(), Fail> {
    let seen = seen_of(&rt, "done", b"3 never c\n", WORDS)?;
    let wanted: &[u8] = b"TERM       SAMPLE\n   3            1\nDONE            2\n";
    assert!(rt; seen.as_slice() == wanted);
    Ok(())
}

#[test]
fn a_trace_cut_short(rt: HostRuntime) -> Result<(), Fail> {
    let seen = seen_of(&rt, "cut", b"3 never c\n", &WORDS[..7])?;
    let wanted: &[u8] = b"\
TERM       SAMPLE
   3            1
STOP           12
cut.bin: refusal 12: one to three bytes are left over after the last whole word";
    assert!(rt; seen.as_slice() == wanted);
    Ok(())
}

#[test]
fn a_slip_in_a_book(rt: HostRuntime) -> Result<(), Fail> {
    let seen = seen_of(&rt, "slip", b"3 never c\n5 hold a least x\n", WORDS)?;
    let wanted: &[u8] = b"\
TERM       SAMPLE
STOP           26
slip.txt, line 2, column 16: refusal 26: a number within its range is owed here; expected a time limit from 0 to 999999999";
    assert!(rt; seen.as_slice() == wanted);
    Ok(())
}

#[test]
fn files_that_cannot_be_read(rt: HostRuntime) -> Result<(), Fail> {
    let wanted: &[u8] = b"\
TERM       SAMPLE
STOP           13
none.txt: refusal 13: the file cannot be read";
    assert!(rt; seen(&rt, "none.txt", "none.bin")?.as_slice() == wanted);
    fs::write(&rt, "lone.txt", b"3 never c\n")?;
    let seen = seen(&rt, "lone.txt", "none.bin")?;
    fs::remove_file(&rt, "lone.txt")?;
    let wanted: &[u8] = b"\
TERM       SAMPLE
STOP           13
none.bin: refusal 13: the file cannot be read";
    assert!(rt; seen.as_slice() == wanted);
    Ok(())
}

/// A trace of more than one piece of what is read, which ends within a word.
#[test]
fn a_trace_of_several_pieces(rt: HostRuntime) -> Result<(), Fail> {
    let mut words = Vec::new(rt.alloc());
    for _ in 0..5000 {
        words.extend_from_slice(&[0x40, 0, 0, 1])?;
    }
    words.extend_from_slice(&[0x40, 0, 0, 4, 0x40])?;
    let seen = seen_of(&rt, "long", b"3 never c\n9 never !a\n", &words)?;
    let wanted: &[u8] = b"\
TERM       SAMPLE
   3         5001
   9         5001
STOP           12
long.bin: refusal 12: one to three bytes are left over after the last whole word";
    assert!(rt; seen.as_slice() == wanted);
    Ok(())
}
