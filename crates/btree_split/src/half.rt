//! The two halves of a page that is split, each laid out from the page's bytes. Nothing here asks for a page.
//! `btree_grow` alone calls these, and puts the halves.

ghost use Rattle.std.specs.Prelude.{◌≡◌, ◌+◌, ◌*◌, ◌≤◌, length};
ghost use Rattle.page_format.specs.Changes.{IsLowerHalf, IsUpperHalf};
ghost use Rattle.page_format.specs.Shape.{HasTreeFields};
ghost use Rattle.page_format.specs.Words.{count_of, record_len_of};

use big_endian::{u16_bytes, u32_bytes};
use btree_change::{begin_of, lay};
use page_format::layout::{COUNT, FENCE, HIGH, HIGH_LEN, LOW, LOW_LEN, RECORDS, RIGHT};
use stored_pages::layout::{NUMBER, PAGE};
use stored_pages::read_u16;

/// The page with its records before a place, below the key and left of the page of that number.
pub fn lower_half(bytes: &[u8], i: u16, key: &[u8], number: u32) -> [u8; PAGE]
    requires size { length bytes.now ≡ PAGE }
    requires place { i ≤ count_of bytes.now }
    requires inside { RECORDS + count_of bytes.now * record_len_of bytes.now ≤ PAGE }
    requires key { length key.now ≤ FENCE }
    ensures { HasTreeFields bytes.now → IsLowerHalf bytes.now i key.now number result }
{
    let zeros = [0; PAGE];
    let mut half = [0; PAGE];
    half.copy_from_slice(bytes);
    let at = begin_of(bytes, i);
    let end = begin_of(bytes, read_u16(bytes, COUNT));
    lay(&mut half, at, &zeros[..end - at]);
    lay(&mut half, COUNT, &u16_bytes(i));
    lay(&mut half, HIGH_LEN, &[key.len() as u8]);
    let behind = lay(&mut half, HIGH, key);
    lay(&mut half, behind, &zeros[..FENCE - key.len()]);
    lay(&mut half, RIGHT, &u32_bytes(number));
    half
}

/// The page of that number, with the records from a place on, from the key on.
pub fn upper_half(bytes: &[u8], i: u16, key: &[u8], number: u32) -> [u8; PAGE]
    requires size { length bytes.now ≡ PAGE }
    requires place { i ≤ count_of bytes.now }
    requires inside { RECORDS + count_of bytes.now * record_len_of bytes.now ≤ PAGE }
    requires key { length key.now ≤ FENCE }
    ensures { HasTreeFields bytes.now → IsUpperHalf bytes.now i key.now number result }
{
    let zeros = [0; PAGE];
    let mut half = [0; PAGE];
    half.copy_from_slice(bytes);
    let count = read_u16(bytes, COUNT);
    let at = begin_of(bytes, i);
    let moved = lay(&mut half, RECORDS, &bytes[at..begin_of(bytes, count)]);
    lay(&mut half, moved, &zeros[..at - RECORDS]);
    lay(&mut half, COUNT, &u16_bytes(count - i));
    lay(&mut half, LOW_LEN, &[key.len() as u8]);
    let behind = lay(&mut half, LOW, key);
    lay(&mut half, behind, &zeros[..FENCE - key.len()]);
    lay(&mut half, NUMBER, &u32_bytes(number));
    half
}
