//! Edits of the fields in front of a tree page's records, on its bytes.
//! A split of a page is made of these and of the edits of records.

ghost use Rattle.std.specs.Prelude.{◌≡◌, ℕ, ◌≤◌, length, take, drop, slice_index, Some};
ghost use Rattle.stored_pages.specs.declared.layout.TheConstants.{PAGE};
ghost use Rattle.page_format.specs.declared.layout.TheConstants.{FENCE};
ghost use Rattle.page_format.specs.Words.{right_of, low_of, high_of, records_of};
ghost use Rattle.stored_pages.specs.Words.{number_of};
ghost use Rattle.page_format.specs.Shape.{HasTreeFields};

use crate::edits::{clear, write_over};
use crate::layout::{FENCES_END, HIGH, HIGH_LEN, LOW, LOW_LEN, RIGHT};
use big_endian::u32_bytes;
use stored_pages::layout::NUMBER;

pub fn set_number(bytes: &mut [u8], number: u32)
    requires size { length bytes.old ≡ PAGE }
    requires fields { HasTreeFields bytes.old }
    ensures fields { HasTreeFields bytes.new }
    ensures records { records_of bytes.new ≡ records_of bytes.old }
    ensures number { number_of bytes.new ≡ number }
    ensures front { take 8 bytes.new ≡ take 8 bytes.old }
    ensures back { drop 12 bytes.new ≡ drop 12 bytes.old }
{
    write_over(bytes, NUMBER, &u32_bytes(number));
}

pub fn set_right(bytes: &mut [u8], number: u32)
    requires size { length bytes.old ≡ PAGE }
    requires fields { HasTreeFields bytes.old }
    ensures fields { HasTreeFields bytes.new }
    ensures records { records_of bytes.new ≡ records_of bytes.old }
    ensures right { right_of bytes.new ≡ number }
    ensures front { take 28 bytes.new ≡ take 28 bytes.old }
    ensures back { drop 32 bytes.new ≡ drop 32 bytes.old }
{
    write_over(bytes, RIGHT, &u32_bytes(number));
}

pub fn set_low(bytes: &mut [u8], key: &[u8])
    requires size { length bytes.old ≡ PAGE }
    requires fields { HasTreeFields bytes.old }
    requires key { length key.now ≤ FENCE }
    ensures fields { HasTreeFields bytes.new }
    ensures records { records_of bytes.new ≡ records_of bytes.old }
    ensures low { low_of bytes.new ≡ Some key.now }
    ensures front { take 34 bytes.new ≡ take 34 bytes.old }
    ensures between { slice_index bytes.new 35 ≡ slice_index bytes.old 35 }
    ensures back { drop HIGH bytes.new ≡ drop HIGH bytes.old }
{
    write_over(bytes, LOW_LEN, &[key.len() as u8]);
    write_over(bytes, LOW, key);
    clear(bytes, LOW + key.len(), HIGH);
}

pub fn set_high(bytes: &mut [u8], key: &[u8])
    requires size { length bytes.old ≡ PAGE }
    requires fields { HasTreeFields bytes.old }
    requires key { length key.now ≤ FENCE }
    ensures fields { HasTreeFields bytes.new }
    ensures records { records_of bytes.new ≡ records_of bytes.old }
    ensures high { high_of bytes.new ≡ Some key.now }
    ensures front { take 35 bytes.new ≡ take 35 bytes.old }
    ensures between { take FENCE (drop LOW bytes.new) ≡ take FENCE (drop LOW bytes.old) }
    ensures back { drop FENCES_END bytes.new ≡ drop FENCES_END bytes.old }
{
    write_over(bytes, HIGH_LEN, &[key.len() as u8]);
    write_over(bytes, HIGH, key);
    clear(bytes, HIGH + key.len(), FENCES_END);
}
