use crate::fault::Fault;
use arrayvec::ArrayVec;
use rows::{SampleBytes, encode_row};

/// The line that stands for the end of the stream.
pub(crate) const END_LINE: &str = "end";

/// The word that ends a stream.
const END_WORD: [u8; 4] = [0xC0, 0, 0, 0];

/// Lines on their way to bytes.
#[derive(Drop)]
pub struct Encoder {
    /// The line so far, as far as it is kept: one byte more than the longest row has, so that a longer line is no row either.
    line: ArrayVec<u8, 36>,
    /// The number of the line, from 1.
    number: u64,
    /// A flag, and no enum of two states: both keep the number of the line.
    ended: bool,
}

impl Encoder {
    pub(crate) fn new() -> Encoder {
        Encoder {
            line: ArrayVec::new(),
            number: 1,
            ended: false,
        }
    }

    pub(crate) fn line_number(&self) -> u64 {
        self.number
    }

    /// Takes one byte more. Where it ends a line, it answers the bytes of that line.
    pub(crate) fn push(&mut self, byte: u8) -> Result<Option<SampleBytes>, Fault> {
        if self.ended {
            return Err(Fault::BehindEnd);
        }
        if byte != b'\n' {
            let _ = self.line.try_push(byte);
            return Ok(None);
        }
        let bytes = self.end_line()?;
        // A new one, and no `clear`, which blanks byte by byte: by that a trace of short lines took up to a quarter longer.
        self.line = ArrayVec::new();
        self.number = self.number.saturating_add(1);
        Ok(Some(bytes))
    }

    fn end_line(&mut self) -> Result<SampleBytes, Fault> {
        if self.line.as_slice() != END_LINE.as_bytes() {
            return Ok(encode_row(&self.line)?);
        }
        self.ended = true;
        let mut bytes = SampleBytes::new();
        bytes.try_extend_from_slice(&END_WORD).unwrap();
        Ok(bytes)
    }

    /// Refuses if the last line is not ended.
    pub(crate) fn finish(&self) -> Result<(), Fault> {
        if !self.line.is_empty() {
            return Err(Fault::OpenLine(self.line.len()));
        }
        Ok(())
    }
}
