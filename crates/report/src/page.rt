ghost use Rattle.std.specs.Prelude.{◌≤◌};

/// The lines of a report as they are printed: each has 17 columns and its line end. There are at most 66: a header, 64 notices, a last line.
// A buffer with its length: a page is `Copy`, which an `ArrayVec` is not, and its lines are bytes, of which an `ArrayString` would ask that they are text.
#[derive(Clone, Copy)]
pub struct Page {
    pub(crate) bytes: [u8; 1188],
    pub(crate) len: usize,
    ghost within: { len ≤ 1188 },
}
