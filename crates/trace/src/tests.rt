use crate::decode::{Stop, decode_bytes};
use crate::encode::Encoding;
use arrayvec::ArrayVec;
use std::alloc::Allocator;
use std::io::Write;
use std::test::Fail;
use std::{fmt, fs};

const ENCODING: Encoding<'static> = Encoding {
    lines: "day.txt",
    trace: "day.bin",
};

/// Bytes that were written, and then what is said of a stop.
fn with_stop<A: Allocator, E: fmt::Display + Drop>(
    mut seen: Vec<u8, A>,
    work: Result<(), E>,
) -> Result<Vec<u8, A>, Fail> {
    if let Err(stop) = work {
        write!(seen, "{stop}")?;
    }
    Ok(seen)
}

fn encoded(rt: &HostRuntime, lines: &[u8]) -> Result<Vec<u8>, Fail> {
    let mut words = Vec::new(rt.alloc());
    let work = ENCODING.encode_lines(lines, &mut words);
    with_stop(words, work)
}

fn decoded(rt: &HostRuntime, words: &[u8]) -> Result<Vec<u8>, Fail> {
    let mut lines = Vec::new(rt.alloc());
    let work = decode_bytes("day.bin", words, &mut lines);
    with_stop(lines, work)
}

#[test]
fn lines_to_words_and_back(rt: HostRuntime) -> Result<(), Fail> {
    let lines: &[u8] = b"5 ab\n0 -\n4294967295 x\nend\n";
    let words: &[u8] = &[
        0, 0, 0, 5, 0x40, 0, 0, 3, 0x40, 0, 0, 0, 0x3F, 0xFF, 0xFF, 0xFF, 0x3F, 0xFF, 0xFF, 0xFF,
        0x3F, 0xFF, 0xFF, 0xFF, 0x3F, 0xFF, 0xFF, 0xFF, 0, 0, 0, 3, 0x40, 0x80, 0, 0, 0xC0, 0, 0,
        0,
    ];
    assert!(rt; encoded(&rt, lines)?.as_slice() == words);
    assert!(rt; decoded(&rt, words)?.as_slice() == lines);
    Ok(())
}

/// A slip in the second line, behind the bytes of the first.
#[test]
fn what_is_said_of_a_slip(rt: HostRuntime) -> Result<(), Fail> {
    let slips: [(&[u8], &[u8]); 4] = [
        (
            b"0 a\n0 ba\n",
            b"@\0\0\x01day.txt, line 2, column 4: expected a later letter, up to x, or the end of the line",
        ),
        (
            b"0 a\n0 -",
            b"@\0\0\x01day.txt, line 2, column 4: expected a line end behind the last line",
        ),
        (
            b"end\n0 -\n",
            b"\xC0\0\0\0day.txt, line 2, column 1: expected nothing behind the line that says end",
        ),
        (
            b"0 a\n\n",
            b"@\0\0\x01day.txt, line 2, column 1: expected a gap from 0 to 4294967295 without leading zeros",
        ),
    ];
    for (lines, wanted) in slips {
        assert!(rt; encoded(&rt, lines)?.as_slice() == wanted);
    }
    Ok(())
}

/// The second word is refused, behind the line of the first.
#[test]
fn what_is_said_of_a_word(rt: HostRuntime) -> Result<(), Fail> {
    let stops: [(&[u8], &[u8]); 3] = [
        (
            b"@\0\0\x01A\0\0\0",
            b"0 a\nday.bin, word 2: refusal 4: a letter bit above 23 is set: the letters are a to x",
        ),
        (
            b"@\0\0\x01@",
            b"0 a\nday.bin, word 2: refusal 12: one to three bytes are left over after the last whole word",
        ),
        (
            b"\0\0\0\x01\xC0\0\0\0",
            b"day.bin, word 2: refusal 7: the stream ends with a gap that belongs to no sample",
        ),
    ];
    for (words, wanted) in stops {
        assert!(rt; decoded(&rt, words)?.as_slice() == wanted);
    }
    Ok(())
}

/// Makes the trace of a file of lines in the place of another file. What stands there then, and what is said of a stop.
fn made_of(rt: &HostRuntime, name: &str, lines: &[u8]) -> Result<Vec<u8>, Fail> {
    let lines_path = format!(in rt.alloc(); "{name}.txt")?;
    let trace_path = format!(in rt.alloc(); "{name}.bin")?;
    fs::write(rt, lines_path.as_str(), lines)?;
    fs::write(rt, trace_path.as_str(), b"as before ")?;
    let files = Encoding {
        lines: &lines_path,
        trace: &trace_path,
    };
    let work = files.make_trace(rt);
    let seen = with_stop(fs::read(rt, trace_path.as_str())?, work)?;
    fs::remove_file(rt, lines_path.as_str())?;
    fs::remove_file(rt, trace_path.as_str())?;
    Ok(seen)
}

#[test]
fn a_trace_in_the_place_of_another(rt: HostRuntime) -> Result<(), Fail> {
    let seen = made_of(&rt, "good", b"0 a\nend\n")?;
    let wanted: &[u8] = b"@\0\0\x01\xC0\0\0\0";
    assert!(rt; seen.as_slice() == wanted);
    Ok(())
}

/// Every line is known to be good before any trace is touched.
#[test]
fn a_slip_leaves_the_trace(rt: HostRuntime) -> Result<(), Fail> {
    let seen = made_of(&rt, "bad", b"0 a\n0 ba\n")?;
    let wanted: &[u8] =
        b"as before bad.txt, line 2, column 4: expected a later letter, up to x, or the end of the line";
    assert!(rt; seen.as_slice() == wanted);
    Ok(())
}

/// Lines, their trace, and what is said: of lines that cannot be read, of a trace that cannot be written, and of lines in its place.
const UNUSABLE: [(&str, &str, &[u8]); 6] = [
    ("none.txt", "none.bin", b"none.txt: the file cannot be read"),
    // a folder can be opened, and not read
    (".", "none.bin", b".: the file cannot be read"),
    (
        "lone.txt",
        "none/lone.bin",
        b"none/lone.bin: the file cannot be written",
    ),
    (
        "lone.txt",
        "/dev/full",
        b"/dev/full: the file cannot be written",
    ),
    // more than is held back until the end
    (
        "many.txt",
        "/dev/full",
        b"/dev/full: the file cannot be written",
    ),
    (
        "lone.txt",
        "lone.txt",
        b"lone.txt: the lines would be overwritten",
    ),
];

#[test]
fn files_that_cannot_be_used(rt: HostRuntime) -> Result<(), Fail> {
    let line: &[u8] = b"0 a\n";
    fs::write(&rt, "lone.txt", line)?;
    let mut many = Vec::new(rt.alloc());
    for _ in 0..3000 {
        many.extend_from_slice(line)?;
    }
    fs::write(&rt, "many.txt", many.as_slice())?;
    for (lines, trace, wanted) in UNUSABLE {
        let work = Encoding { lines, trace }.make_trace(&rt);
        assert!(rt; with_stop(Vec::new(rt.alloc()), work)?.as_slice() == wanted);
    }
    assert!(rt; fs::read(&rt, "lone.txt")?.as_slice() == line);
    fs::remove_file(&rt, "lone.txt")?;
    fs::remove_file(&rt, "many.txt")?;
    Ok(())
}

/// A trace that cannot be read, and lines that cannot be written.
#[test]
fn what_is_said_of_a_trace(rt: HostRuntime) -> Result<(), Fail> {
    let seen = with_stop(Vec::new(rt.alloc()), Err(Stop::Unreadable("none.bin")))?;
    let wanted: &[u8] = b"none.bin: the file cannot be read";
    assert!(rt; seen.as_slice() == wanted);
    let mut room: ArrayVec<u8, 2> = ArrayVec::new();
    let words: &[u8] = b"@\0\0\x01";
    let work = decode_bytes("day.bin", words, &mut room);
    let seen = with_stop(Vec::new(rt.alloc()), work)?;
    let wanted: &[u8] = b"the lines cannot be written";
    assert!(rt; seen.as_slice() == wanted);
    Ok(())
}
