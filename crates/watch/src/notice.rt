/// That a seat was lost, and the number of the sample at which it was; 0 if it was lost before the first. Notices are ordered by number, and then by seat.
#[derive(Clone, Copy, PartialEq, Eq, PartialOrd, Ord, Debug)]
pub struct Notice {
    pub number: u64,
    pub seat: u8,
}
