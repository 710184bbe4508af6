use rows::Slip;
use thiserror::Error;

/// What is wrong with a text of lines.
#[derive(Clone, Copy, Debug, Error)]
pub enum Fault {
    /// A line that is no row.
    #[error(transparent)]
    Slip(#[from] Slip),
    /// Something stands behind the end line.
    #[error("expected nothing behind the line that says end")]
    BehindEnd,
    /// The last line, of so many bytes, is not ended.
    #[error("expected a line end behind the last line")]
    OpenLine(usize),
}

impl Fault {
    /// The column, from 1.
    pub(crate) fn column(self) -> usize {
        match self {
            Fault::Slip(slip) => slip.column.saturating_add(1),
            Fault::BehindEnd => 1,
            Fault::OpenLine(len) => len.saturating_add(1),
        }
    }
}
