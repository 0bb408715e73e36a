//! Where a key lies beside a range.
//! `bounds` alone tells it, and `scan` ends a search by it.

/// Before the range's low bound, within, or behind the high one.
#[derive(Clone, Copy)]
pub enum Side {
    Before,
    Within,
    Behind,
}
