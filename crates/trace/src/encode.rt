use crate::fault::Fault;
use crate::lines::Encoder;
use std::fs::File;
use std::io;
use std::io::{BufReader, BufWriter, Read, Write};
use thiserror::Error;

/// Why no trace was made.
#[derive(Clone, Copy, Debug, Error)]
pub enum Failure<'a> {
    #[error("{0}: the file cannot be read")]
    Unreadable(&'a str),
    #[error("{0}: the file cannot be written")]
    Unwritable(&'a str),
    /// The lines are to be overwritten by their trace.
    #[error("{0}: the lines would be overwritten")]
    OneFile(&'a str),
    /// A fault in a line, by its number from 1.
    #[error("{lines}, line {line}, column {column}: {fault}", column = .fault.column())]
    Text {
        lines: &'a str,
        line: u64,
        fault: Fault,
    },
}

/// The file of the lines, and that of the trace to be made of them.
#[derive(Clone, Copy)]
pub(crate) struct Encoding<'a> {
    pub(crate) lines: &'a str,
    pub(crate) trace: &'a str,
}

impl<'a> Encoding<'a> {
    /// Makes the trace of the lines. They are read twice: no trace is touched before every line is known to be good.
    pub(crate) fn make_trace(self, rt: &HostRuntime) -> Result<(), Failure<'a>> {
        if self.lines == self.trace {
            return Err(Failure::OneFile(self.trace));
        }
        self.encode_lines(self.open_lines(rt)?, &mut io::sink())?;
        let source = self.open_lines(rt)?;
        let mut out = self.create_trace(rt).map_err(|_| self.unwritable())?;
        self.encode_lines(source, &mut out)
    }

    fn open_lines(self, rt: &HostRuntime) -> Result<BufReader<File>, Failure<'a>> {
        File::open(rt, self.lines)
            .and_then(|file| BufReader::new(rt.alloc(), file))
            .map_err(|_| Failure::Unreadable(self.lines))
    }

    fn create_trace(self, rt: &HostRuntime) -> io::Result<BufWriter<File>> {
        BufWriter::new(rt.alloc(), File::create(rt, self.trace)?)
    }

    /// Writes the words of lines that are read, up to their end or the first fault.
    pub(crate) fn encode_lines(
        self,
        source: impl Read + Drop,
        out: &mut impl Write,
    ) -> Result<(), Failure<'a>> {
        let mut encoder = Encoder::new();
        for byte in source.bytes() {
            let byte = byte.map_err(|_| Failure::Unreadable(self.lines))?;
            let bytes = encoder
                .push(byte)
                .map_err(|fault| self.fault_in(&encoder, fault))?;
            if let Some(bytes) = bytes {
                out.write_all(&bytes).map_err(|_| self.unwritable())?;
            }
        }
        encoder
            .finish()
            .map_err(|fault| self.fault_in(&encoder, fault))?;
        out.flush().map_err(|_| self.unwritable())
    }

    fn unwritable(self) -> Failure<'a> {
        Failure::Unwritable(self.trace)
    }

    /// A fault in the line that the encoder is at.
    fn fault_in(self, encoder: &Encoder, fault: Fault) -> Failure<'a> {
        Failure::Text {
            lines: self.lines,
            line: encoder.line_number(),
            fault,
        }
    }
}
