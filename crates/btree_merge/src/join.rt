//! Two leaves in one page, laid out from their bytes. Nothing here asks for a page.
//! `merge_in` puts what `joined` lays out; `look` and `tidying` ask the two questions.

ghost use Rattle.std.specs.Prelude.{◌≡◌, ◌+◌, ◌*◌, ◌<◌, ◌≤◌, length, MatchBool};
ghost use Rattle.page_format.specs.Shape.{HasTreeFields};
ghost use Rattle.page_format.specs.Words.{count_of, record_len_of};
ghost use Rattle.btree_merge.specs.Merges.{IsJoined};
ghost use Rattle.btree_merge.specs.Merged.{FitTogether, HoldsFew};

use big_endian::u16_bytes;
use btree_change::{begin_of, lay};
use page_format::layout::{COUNT, FENCE, HIGH, HIGH_LEN, RECORDS, RIGHT, WIDTH};
use stored_pages::layout::PAGE;
use stored_pages::read_u16;

/// Whether the records of both pages have room in one.
pub fn fit_together(left: &[u8], right: &[u8]) -> bool
    requires left_size { length left.now ≡ PAGE }
    requires right_size { length right.now ≡ PAGE }
    ensures { MatchBool result (FitTogether left.now right.now) (FitTogether left.now right.now → ⊥) }
{
    let count = usize::from(read_u16(left, COUNT)) + usize::from(read_u16(right, COUNT));
    RECORDS + count * usize::from(read_u16(left, WIDTH)) <= PAGE
}

/// Whether a page has less than half of the records that have room on it.
pub fn holds_few(bytes: &[u8]) -> bool
    requires { length bytes.now ≡ PAGE }
    ensures { MatchBool result (HoldsFew bytes.now) (HoldsFew bytes.now → ⊥) }
{
    let more_than_twice = 2 * usize::from(read_u16(bytes, COUNT)) + 1;
    RECORDS + more_than_twice * usize::from(read_u16(bytes, WIDTH)) <= PAGE
}

/// The left page with the records of the right one behind its own, up to where that one ends.
pub fn joined(left: &[u8], right: &[u8]) -> [u8; PAGE]
    requires left_size { length left.now ≡ PAGE }
    requires right_size { length right.now ≡ PAGE }
    requires some { 0 < record_len_of left.now }
    requires alike { record_len_of right.now ≡ record_len_of left.now }
    requires fits { FitTogether left.now right.now }
    ensures { HasTreeFields left.now → HasTreeFields right.now → IsJoined left.now right.now result }
{
    let mut page = [0; PAGE];
    page.copy_from_slice(left);
    let count = read_u16(left, COUNT);
    let more = read_u16(right, COUNT);
    let end = begin_of(left, count);
    lay(&mut page, end, &right[RECORDS..begin_of(right, more)]);
    lay(&mut page, COUNT, &u16_bytes(count + more));
    lay(&mut page, RIGHT, &right[RIGHT..WIDTH]);
    lay(&mut page, HIGH_LEN, &right[HIGH_LEN..HIGH_LEN + 1]);
    lay(&mut page, HIGH, &right[HIGH..HIGH + FENCE]);
    page
}
