use crate::sample::Sample;

/// A sample that was taken, with its number in the stream.
#[derive(Clone, Copy, PartialEq, Eq, Debug)]
pub struct Numbered {
    pub number: u64,
    pub sample: Sample,
}
