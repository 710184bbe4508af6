ghost use Rattle.std.specs.Prelude.{◌≡◌, ◌+◌, ◌/◌};

use crate::ended;
use crate::lines::END_LINE;
use rows::{Decoder, Entry, write_row};
use std::fs::File;
use std::io;
use std::io::{BufReader, BufWriter, Read, Write};
use std::process::ExitCode;
use stream::Refusal;
use thiserror::Error;

/// Why the lines of a trace break off.
#[derive(Clone, Copy, Debug, Error)]
pub enum Stop<'a> {
    #[error("{0}: the file cannot be read")]
    Unreadable(&'a str),
    #[error("the lines cannot be written")]
    Unwritable,
    /// A word is refused, by its number from 1.
    #[error("{trace}, word {word}: refusal {number}: {refusal}", number = .refusal.number())]
    Word {
        trace: &'a str,
        word: usize,
        refusal: Refusal,
    },
}

/// Prints the lines of a trace, up to its end or the first word that is refused.
pub(crate) fn decode_file(rt: &HostRuntime, trace: &str) -> anyhow::Result<ExitCode> {
    let Ok(source) = File::open(rt, trace) else {
        return ended(rt, Err(Stop::Unreadable(trace)));
    };
    let mut out = BufWriter::new(rt.alloc(), rt.stdout())?;
    let read = decode_bytes(trace, BufReader::new(rt.alloc(), source)?, &mut out);
    out.flush()?;
    ended(rt, read)
}

/// Writes the lines of words that are read, up to their end or the first that is refused.
pub(crate) fn decode_bytes<'a>(
    trace: &'a str,
    source: impl Read + Drop,
    out: &mut impl Write,
) -> Result<(), Stop<'a>> {
    let mut decoder = Decoder::new();
    let mut word = 1;
    for (index, byte) in source.bytes().enumerate() {
        word = word_number(index);
        let byte = byte.map_err(|_| Stop::Unreadable(trace))?;
        let entry = decoder.push(byte).map_err(|refusal| Stop::Word {
            trace,
            word,
            refusal,
        })?;
        put_entry(entry, out).map_err(|_| Stop::Unwritable)?;
    }
    decoder.finish().map_err(|refusal| Stop::Word {
        trace,
        word,
        refusal,
    })
}

/// The number, from 1, of the word that begins or goes on behind so many bytes.
fn word_number(bytes: usize) -> usize
    ensures { result ≡ bytes / 4 + 1 }
{
    bytes / 4 + 1
}

/// Writes the line of an entry, if there is one.
fn put_entry(entry: Option<Entry>, out: &mut impl Write) -> io::Result<()> {
    match entry {
        Some(Entry::Row(sample)) => {
            let row = write_row(sample);
            writeln!(out, "{row}")
        }
        Some(Entry::End) => writeln!(out, "{END_LINE}"),
        None => Ok(()),
    }
}
