ghost use Rattle.std.specs.Prelude.{◌^◌, ◌<◌, ◌≤◌};

/// The last number that a sample can have.
pub const LAST_NUMBER: u64 = 999_999_999_999;

/// Whether a word of a stream was taken, and whether the word that ends it was.
#[derive(Clone, Copy, PartialEq, Eq, Debug)]
pub(crate) enum Stage {
    Unread,
    Begun,
    Ended,
}

/// How far a stream of words was read.
#[derive(Clone, Copy, PartialEq, Eq, Debug)]
pub struct Feed {
    pub(crate) next: u64,
    pub(crate) pending: u32,
    pub(crate) stage: Stage,
    ghost from: { 1 ≤ next },
    ghost upto: { next ≤ 1000000000000 },
    ghost short: { pending < 2 ^ 32 },
}
