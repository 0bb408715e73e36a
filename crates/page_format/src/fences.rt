//! Whether the fences of a tree page rise, and its records lie between them.
//! Only the test of a page's order asks this.

ghost use Rattle.std.specs.Prelude.{◌≡◌, [], ◌+◌, ◌≤◌, ◌<◌, length, take, drop, slice_index_or, MatchBool};
ghost use Rattle.stored_pages.specs.declared.layout.TheConstants.{PAGE};
ghost use Rattle.page_format.specs.declared.layout.TheConstants.{FENCE};
ghost use Rattle.page_format.specs.Words.{count_of, low_of, high_of, records_of};
ghost use Rattle.page_format.specs.Found.{key_cmp};
ghost use Rattle.page_format.specs.Fences.{DoFencesRise, BeginsInside, EndsInside};
ghost use Rattle.page_format.specs.Shape.{HasTreeFields};

use crate::behind::behind;
use crate::layout::{COUNT, HIGH, HIGH_LEN, LOW, LOW_LEN, NO_FENCE, WIDTH};
use crate::records::place_of;
use std::cmp::Ordering;
use stored_pages::read_u16;

/// A fence's bytes.
fn fence_at(bytes: &[u8], at: usize, len: u8) -> &[u8]
    requires fits { len ≤ FENCE }
    requires inside { at + FENCE ≤ length bytes.now }
    ensures { result.now ≡ take len (take FENCE (drop at bytes.now)) }
{
    behind(bytes, at).split_at(usize::from(len)).0
}

/// How the first bytes of a record stand to a fence.
fn against(fence: &[u8], rec: &[u8]) -> Ordering
    ensures { result ≡ key_cmp fence.now rec.now }
{
    let len = rec.len().min(fence.len());
    rec.split_at(len).0.cmp(fence)
}

/// The record of that number.
fn record_at(bytes: &[u8], i: u16) -> &[u8]
    requires size { length bytes.now ≡ PAGE }
    requires fields { HasTreeFields bytes.now }
    requires place { i < count_of bytes.now }
    ensures { result.now ≡ slice_index_or (records_of bytes.now) i [] }
{
    let width = usize::from(read_u16(bytes, WIDTH));
    behind(bytes, place_of(bytes, i)).split_at(width).0
}

/// Whether the low fence stands before the high one.
pub fn do_fences_rise(bytes: &[u8]) -> bool
    requires size { length bytes.now ≡ PAGE }
    requires fields { HasTreeFields bytes.now }
    ensures { MatchBool result (DoFencesRise (low_of bytes.now) (high_of bytes.now)) (DoFencesRise (low_of bytes.now) (high_of bytes.now) → ⊥) }
{
    if bytes[LOW_LEN] == NO_FENCE {
        return true;
    }
    if bytes[HIGH_LEN] == NO_FENCE {
        return true;
    }
    let low = fence_at(bytes, LOW, bytes[LOW_LEN]);
    let high = fence_at(bytes, HIGH, bytes[HIGH_LEN]);
    low.cmp(high).is_lt()
}

/// Whether the first record doesn't begin below the low fence.
pub fn begins_inside(bytes: &[u8]) -> bool
    requires size { length bytes.now ≡ PAGE }
    requires fields { HasTreeFields bytes.now }
    ensures { MatchBool result (BeginsInside (low_of bytes.now) (records_of bytes.now)) (BeginsInside (low_of bytes.now) (records_of bytes.now) → ⊥) }
{
    if bytes[LOW_LEN] == NO_FENCE {
        return true;
    }
    if read_u16(bytes, COUNT) == 0 {
        return true;
    }
    let low = fence_at(bytes, LOW, bytes[LOW_LEN]);
    !against(low, record_at(bytes, 0)).is_lt()
}

/// Whether the last record begins below the high fence.
pub fn ends_inside(bytes: &[u8]) -> bool
    requires size { length bytes.now ≡ PAGE }
    requires fields { HasTreeFields bytes.now }
    ensures { MatchBool result (EndsInside (high_of bytes.now) (records_of bytes.now)) (EndsInside (high_of bytes.now) (records_of bytes.now) → ⊥) }
{
    let count = read_u16(bytes, COUNT);
    if bytes[HIGH_LEN] == NO_FENCE {
        return true;
    }
    if count == 0 {
        return true;
    }
    let high = fence_at(bytes, HIGH, bytes[HIGH_LEN]);
    against(high, record_at(bytes, count - 1)).is_lt()
}
