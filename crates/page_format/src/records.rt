//! Edits of the records of a tree page, on its bytes.
//! The calls of `Page` are these.

ghost use Rattle.std.specs.Prelude.{◌≡◌, ◌≢◌, ℕ, ◌+◌, ◌*◌, ◌≤◌, ◌<◌, ◌++◌, [], length, take, drop, insert, remove, slice_index_or};
ghost use Rattle.std.specs.declared.cmp.Ordering.TheVariants.{Less};
ghost use Rattle.std.specs.Int.{w16, to_be_bytes};
ghost use Rattle.stored_pages.specs.declared.layout.TheConstants.{PAGE};
ghost use Rattle.page_format.specs.Changes.{KeepsFields, with_byte};
ghost use Rattle.page_format.specs.Found.{key_cmp, AreBelow, IsFound};
ghost use Rattle.page_format.specs.Words.{count_of, record_len_of, records_of};
ghost use Rattle.page_format.specs.Shape.{HasTreeFields, AreRising};

use crate::behind::behind;
use crate::edits::{clear, insert_piece, remove_piece, write_over};
use crate::layout::{COUNT, RECORDS, WIDTH};
use big_endian::u16_bytes;
use std::cmp::Ordering;
use stored_pages::read_u16;

/// Where a key stands: at the record of that number, or before it.
#[derive(Clone, Copy, Debug, PartialEq, Eq)]
pub enum Found {
    At(u16),
    Before(u16),
}

/// Where the record of that number begins.
pub fn place_of(bytes: &[u8], i: u16) -> usize
    requires { RECORDS ≤ length bytes.now }
    ensures { result ≡ RECORDS + i * record_len_of bytes.now }
{
    RECORDS + usize::from(i) * usize::from(read_u16(bytes, WIDTH))
}

fn set_count(bytes: &mut [u8], count: u16)
    requires { RECORDS ≤ length bytes.old }
    ensures { bytes.new ≡ take 22 bytes.old ++ (to_be_bytes w16 count ++ drop 24 bytes.old) }
{
    write_over(bytes, COUNT, &u16_bytes(count));
}

/// Puts a record in.
pub fn insert_record(bytes: &mut [u8], i: u16, rec: &[u8])
    requires size { length bytes.old ≡ PAGE }
    requires fields { HasTreeFields bytes.old }
    requires place { i ≤ count_of bytes.old }
    requires width { length rec.now ≡ record_len_of bytes.old }
    requires room { RECORDS + (count_of bytes.old + 1) * record_len_of bytes.old ≤ PAGE }
    ensures fields { HasTreeFields bytes.new }
    ensures records { records_of bytes.new ≡ insert (records_of bytes.old) i rec.now }
    ensures kept { KeepsFields bytes.old bytes.new }
{
    let count = read_u16(bytes, COUNT);
    let at = place_of(bytes, i);
    let end = place_of(bytes, count);
    insert_piece(bytes, at, end, rec);
    set_count(bytes, count + 1);
}

/// Takes a record out.
pub fn remove_record(bytes: &mut [u8], i: u16)
    requires size { length bytes.old ≡ PAGE }
    requires fields { HasTreeFields bytes.old }
    requires place { i < count_of bytes.old }
    ensures fields { HasTreeFields bytes.new }
    ensures records { records_of bytes.new ≡ remove (records_of bytes.old) i }
    ensures kept { KeepsFields bytes.old bytes.new }
{
    let count = read_u16(bytes, COUNT);
    let at = place_of(bytes, i);
    let end = place_of(bytes, count);
    let width = usize::from(read_u16(bytes, WIDTH));
    remove_piece(bytes, at, end, width);
    set_count(bytes, count - 1);
}

/// Writes the mark of a record, the byte behind its key.
pub fn mark_record(bytes: &mut [u8], i: u16, key_len: u8, mark: u8)
    requires size { length bytes.old ≡ PAGE }
    requires fields { HasTreeFields bytes.old }
    requires place { i < count_of bytes.old }
    requires key { key_len < record_len_of bytes.old }
    ensures fields { HasTreeFields bytes.new }
    ensures records { records_of bytes.new ≡ with_byte i key_len mark (records_of bytes.old) }
    ensures kept { KeepsFields bytes.old bytes.new }
{
    let at = place_of(bytes, i) + usize::from(key_len);
    write_over(bytes, at, &[mark]);
}

/// How the record of that number stands to a key, by its first bytes.
fn compare_at(bytes: &[u8], i: u16, key: &[u8]) -> Ordering
    requires size { length bytes.now ≡ PAGE }
    requires fields { HasTreeFields bytes.now }
    requires place { i < count_of bytes.now }
    requires key { length key.now ≤ record_len_of bytes.now }
    ensures { result ≡ key_cmp key.now (slice_index_or (records_of bytes.now) i []) }
{
    let at = place_of(bytes, i);
    behind(bytes, at).split_at(key.len()).0.cmp(key)
}

/// How many records begin below a key. It halves the records in question each time.
fn count_below(bytes: &[u8], key: &[u8]) -> u16
    requires size { length bytes.now ≡ PAGE }
    requires fields { HasTreeFields bytes.now }
    requires rising { AreRising (records_of bytes.now) }
    requires key { length key.now ≤ record_len_of bytes.now }
    ensures within { result ≤ count_of bytes.now }
    ensures below { AreBelow key.now (take result (records_of bytes.now)) }
    ensures next { result < count_of bytes.now → key_cmp key.now (slice_index_or (records_of bytes.now) result []) ≢ Less }
{
    let mut low = 0;
    let mut high = read_u16(bytes, COUNT);
    while low < high {
        let middle = low + (high - low) / 2;
        match compare_at(bytes, middle, key) {
            Ordering::Less => low = middle + 1,
            _ => high = middle,
        }
    }
    low
}

/// Where a key stands among the records, which rise.
pub fn find_record(bytes: &[u8], key: &[u8]) -> Found
    requires size { length bytes.now ≡ PAGE }
    requires fields { HasTreeFields bytes.now }
    requires rising { AreRising (records_of bytes.now) }
    requires key { length key.now ≤ record_len_of bytes.now }
    ensures { IsFound (records_of bytes.now) key.now result }
{
    let place = count_below(bytes, key);
    if place == read_u16(bytes, COUNT) {
        return Found::Before(place);
    }
    match compare_at(bytes, place, key) {
        Ordering::Equal => Found::At(place),
        _ => Found::Before(place),
    }
}

/// Keeps the records before a place.
pub fn keep_first(bytes: &mut [u8], i: u16)
    requires size { length bytes.old ≡ PAGE }
    requires fields { HasTreeFields bytes.old }
    requires place { i ≤ count_of bytes.old }
    ensures fields { HasTreeFields bytes.new }
    ensures records { records_of bytes.new ≡ take i (records_of bytes.old) }
    ensures kept { KeepsFields bytes.old bytes.new }
{
    let at = place_of(bytes, i);
    let end = place_of(bytes, read_u16(bytes, COUNT));
    clear(bytes, at, end);
    set_count(bytes, i);
}

/// Keeps the records from a place on.
pub fn keep_last(bytes: &mut [u8], i: u16)
    requires size { length bytes.old ≡ PAGE }
    requires fields { HasTreeFields bytes.old }
    requires place { i ≤ count_of bytes.old }
    ensures fields { HasTreeFields bytes.new }
    ensures records { records_of bytes.new ≡ drop i (records_of bytes.old) }
    ensures kept { KeepsFields bytes.old bytes.new }
{
    let count = read_u16(bytes, COUNT);
    let at = place_of(bytes, i);
    let end = place_of(bytes, count);
    remove_piece(bytes, RECORDS, end, at - RECORDS);
    set_count(bytes, count - i);
}
