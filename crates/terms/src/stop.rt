use crate::expected::expected_at;
use grammar::Fault;
use stream::Refusal;
use thiserror::Error;

/// What is said of a STOP on standard error: the file, what its refusal means, and for a fault of the book its line and column, both
/// from 1, and what was expected there.
#[derive(Clone, Copy, Debug, Error)]
pub enum Stop<'a> {
    #[error("{path}: refusal {number}: {refusal}", number = .refusal.number())]
    Refused {
        path: &'a str,
        refusal: Refusal,
    },
    #[error("{path}, line {line}, column {column}: refusal {number}: {refusal}; {expected}", number = .refusal.number())]
    Faulty {
        path: &'a str,
        line: usize,
        column: usize,
        refusal: Refusal,
        expected: &'static str,
    },
}

impl<'a> Stop<'a> {
    /// What is said of a fault in the text of a book.
    pub(crate) fn at_fault(path: &'a str, text: &[u8], fault: Fault) -> Stop<'a> {
        let (column, expected) = expected_at(text, fault);
        Stop::Faulty {
            path,
            line: fault.line(),
            column,
            refusal: fault.refusal(),
            expected,
        }
    }
}
