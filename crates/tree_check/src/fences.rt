//! The fences of a tree's page, and whether two pages meet at one.
//! `node`, `rows` and `whole` ask, of bytes that they have; no page is fetched here.

ghost use Rattle.std.specs.Prelude.{◌≡◌, length, MatchBool, MatchOption, None, Some};
ghost use Rattle.stored_pages.specs.declared.layout.TheConstants.{PAGE};
ghost use Rattle.page_format.specs.Shape.{HasTreeFields};
ghost use Rattle.page_format.specs.Words.{low_of, high_of};
ghost use Rattle.law_flat_tree.specs.Pages.{low_fence, high_fence};

use page_format::layout::{HIGH, HIGH_LEN, LOW, LOW_LEN, NO_FENCE};

/// The low fence, if there is one.
pub fn low_fence_of(bytes: &[u8]) -> Option<&[u8]>
    requires size { length bytes.now ≡ PAGE }
    requires fields { HasTreeFields bytes.now }
    ensures { MatchOption result (low_of bytes.now ≡ None) (λ key. low_of bytes.now ≡ Some key.now) }
{
    let len = bytes[LOW_LEN];
    if len == NO_FENCE {
        return None;
    }
    Some(&bytes[LOW..LOW + usize::from(len)])
}

/// The high fence, if there is one.
pub fn high_fence_of(bytes: &[u8]) -> Option<&[u8]>
    requires size { length bytes.now ≡ PAGE }
    requires fields { HasTreeFields bytes.now }
    ensures { MatchOption result (high_of bytes.now ≡ None) (λ key. high_of bytes.now ≡ Some key.now) }
{
    let len = bytes[HIGH_LEN];
    if len == NO_FENCE {
        return None;
    }
    Some(&bytes[HIGH..HIGH + usize::from(len)])
}

/// Whether the right page begins where the left one ends.
pub fn do_meet(left: &[u8], right: &[u8]) -> bool
    requires left_size { length left.now ≡ PAGE }
    requires right_size { length right.now ≡ PAGE }
    requires left_fields { HasTreeFields left.now }
    requires right_fields { HasTreeFields right.now }
    ensures { MatchBool result (low_fence (low_of right.now) ≡ high_fence (high_of left.now))
        (low_fence (low_of right.now) ≡ high_fence (high_of left.now) → ⊥) }
{
    let end = match high_fence_of(left) {
        Some(key) => key,
        None => return false,
    };
    match low_fence_of(right) {
        Some(key) => key == end,
        None => false,
    }
}
