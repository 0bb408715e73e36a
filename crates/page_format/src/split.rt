//! The two halves of a tree page that is split, each made of a copy of its bytes.
//! The call of `Page` is made of these.

ghost use Rattle.std.specs.Prelude.{◌≡◌, [], ◌≤◌, ◌<◌, length, take, slice_index_or};
ghost use Rattle.stored_pages.specs.declared.layout.TheConstants.{PAGE};
ghost use Rattle.page_format.specs.declared.layout.TheConstants.{FENCE};
ghost use Rattle.page_format.specs.Changes.{IsLowerHalf, IsUpperHalf};
ghost use Rattle.page_format.specs.Words.{count_of, record_len_of, records_of};
ghost use Rattle.page_format.specs.Shape.{HasTreeFields};

use crate::behind::behind;
use crate::header::{set_high, set_low, set_number, set_right};
use crate::records::{keep_first, keep_last, place_of};

/// The key of a record, its first bytes.
pub fn key_of(bytes: &[u8], i: u16, key_len: u8) -> &[u8]
    requires size { length bytes.now ≡ PAGE }
    requires fields { HasTreeFields bytes.now }
    requires place { i < count_of bytes.now }
    requires key { key_len ≤ record_len_of bytes.now }
    ensures value { result.now ≡ take key_len (slice_index_or (records_of bytes.now) i []) }
    ensures length { length result.now ≡ key_len }
{
    let at = place_of(bytes, i);
    behind(bytes, at).split_at(usize::from(key_len)).0
}

/// Makes the page its lower half.
pub fn keep_lower(bytes: &mut [u8], i: u16, key: &[u8], number: u32)
    requires size { length bytes.old ≡ PAGE }
    requires fields { HasTreeFields bytes.old }
    requires place { i < count_of bytes.old }
    requires key { length key.now ≤ FENCE }
    ensures { IsLowerHalf bytes.old i key.now number bytes.new }
{
    keep_first(bytes, i);
    set_high(bytes, key);
    set_right(bytes, number);
}

/// Makes the page its upper half.
pub fn keep_upper(bytes: &mut [u8], i: u16, key: &[u8], number: u32)
    requires size { length bytes.old ≡ PAGE }
    requires fields { HasTreeFields bytes.old }
    requires place { i < count_of bytes.old }
    requires key { length key.now ≤ FENCE }
    ensures { IsUpperHalf bytes.old i key.now number bytes.new }
{
    keep_last(bytes, i);
    set_low(bytes, key);
    set_number(bytes, number);
}
