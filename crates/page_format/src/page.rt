//! A page, and the calls that read and change it.
//! The batches of the doublewrite are made of such pages; the crates over `mtr` work on bytes.

ghost use Rattle.std.specs.Prelude.{◌≡◌, ℕ, [], ◌+◌, ◌*◌, ◌<◌, ◌≤◌, length, drop, take, map, slice_index_or, insert, remove, IfOk, IfErr, MatchBool};
ghost use Rattle.store_api.specs.Areas.{PassesSum};
ghost use Rattle.page_format.specs.declared.layout.TheConstants.{FENCE};
ghost use Rattle.page_format.specs.Words.{count_of, record_len_of, records_of};
ghost use Rattle.stored_pages.specs.Words.{number_of};
ghost use Rattle.page_format.specs.Shape.{IsPage, HasFields, HasOrder, HasTreeFields, HasPlainFields, AreRising};
ghost use Rattle.page_format.specs.Refused.{IsRefused};
ghost use Rattle.page_format.specs.Found.{IsFound};
ghost use Rattle.page_format.specs.Changes.{KeepsFields, with_byte, mark_byte, IsLowerHalf, IsUpperHalf};

use crate::behind::behind;
use crate::edits::write_over;
use crate::layout::{COUNT, KIND, RECORDS, WIDTH};
use crate::read::PageBad;
use crate::records::{Found, find_record, insert_record, mark_record, remove_record};
use crate::shape::{has_fields, has_order, is_tree_kind};
use crate::split::{keep_lower, keep_upper, key_of};
use big_endian::u64_bytes;
use std::marker::Model;
use store_api::PageRule;
use stored_pages::layout::{NUMBER, PAGE, SUM};
use stored_pages::{read_u16, read_u32, read_u64};
use sum64::fnv;

/// A page. Contracts see its bytes.
#[derive(Drop)]
pub struct Page {
    bytes: [u8; PAGE],
}

impl Model for Page {
    ghost use Rattle.std.specs.Prelude.{ℕ, List};

    ghost Value = { List ℕ };

    ghost view = { λ p. p.bytes };
}

impl Page {
    /// The page of that number that these bytes are.
    #[tactic(auto, unfolding(stored_pages::specs::Words::u64_at))]
    pub fn read(bytes: &[u8], number: u32) -> Result<Page, PageBad>
        requires { length bytes.now ≡ PAGE }
        ensures page { IfOk result (λ page. (page ≡ bytes.now) × IsPage number page) }
        ensures refused { IfErr result (IsRefused number bytes.now) }
    {
        let stored = read_u64(bytes, SUM);
        let computed = fnv(behind(bytes, NUMBER));
        if stored != computed {
            return Err(PageBad::Sum { stored, computed });
        }
        let found = read_u32(bytes, NUMBER);
        if found != number {
            return Err(PageBad::Number { found });
        }
        if !has_fields(bytes) {
            return Err(PageBad::Shape {
                rule: PageRule::Fields as u8,
            });
        }
        if !has_order(bytes) {
            return Err(PageBad::Shape {
                rule: PageRule::Order as u8,
            });
        }
        let mut page = [0; PAGE];
        page.copy_from_slice(bytes);
        Ok(Page { bytes: page })
    }

    pub fn as_bytes(&self) -> &[u8]
        ensures value { result.now ≡ self.now }
        ensures size { length self.now ≡ PAGE }
    {
        &self.bytes
    }

    /// Sets the sum, so that the bytes can be read as this page again.
    pub fn seal(&mut self)
        ensures sum { PassesSum self.new }
        ensures kept { drop 8 self.new ≡ drop 8 self.old }
        ensures readable { HasFields self.old → HasOrder self.old → IsPage (number_of self.old) self.new }
    {
        let sum = fnv(behind(&self.bytes, NUMBER));
        write_over(&mut self.bytes, SUM, &u64_bytes(sum));
    }

    /// How many bytes are left behind the records of a tree page.
    pub fn room(&self) -> u16
        requires { HasTreeFields self.now }
        ensures { RECORDS + count_of self.now * record_len_of self.now + result ≡ PAGE }
    {
        let used = usize::from(read_u16(&self.bytes, COUNT))
            * usize::from(read_u16(&self.bytes, WIDTH));
        (PAGE - RECORDS - used) as u16
    }

    /// Whether the page has records, as a leaf or an inner page has.
    pub fn is_tree(&self) -> bool
        requires { HasFields self.now }
        ensures { MatchBool result (HasTreeFields self.now) (HasPlainFields self.now) }
    {
        is_tree_kind(self.bytes[KIND])
    }

    pub fn number(&self) -> u32
        ensures { result ≡ number_of self.now }
    {
        read_u32(&self.bytes, NUMBER)
    }

    pub fn count(&self) -> u16
        ensures { result ≡ count_of self.now }
    {
        read_u16(&self.bytes, COUNT)
    }

    pub fn record_len(&self) -> u16
        ensures { result ≡ record_len_of self.now }
    {
        read_u16(&self.bytes, WIDTH)
    }

    /// Where a key stands among the records, by their first bytes.
    pub fn find(&self, key: &[u8]) -> Found
        requires fields { HasTreeFields self.now }
        requires rising { AreRising (records_of self.now) }
        requires key { length key.now ≤ record_len_of self.now }
        ensures { IsFound (records_of self.now) key.now result }
    {
        find_record(&self.bytes, key)
    }

    /// Puts a record in at a place. The records rise still where they rise with it.
    pub fn insert_at(&mut self, i: u16, rec: &[u8])
        requires fields { HasTreeFields self.old }
        requires place { i ≤ count_of self.old }
        requires width { length rec.now ≡ record_len_of self.old }
        requires room { RECORDS + (count_of self.old + 1) * record_len_of self.old ≤ PAGE }
        ensures fields { HasTreeFields self.new }
        ensures records { records_of self.new ≡ insert (records_of self.old) i rec.now }
        ensures kept { KeepsFields self.old self.new }
    {
        insert_record(&mut self.bytes, i, rec);
    }

    pub fn remove_at(&mut self, i: u16)
        requires fields { HasTreeFields self.old }
        requires place { i < count_of self.old }
        ensures fields { HasTreeFields self.new }
        ensures records { records_of self.new ≡ remove (records_of self.old) i }
        ensures kept { KeepsFields self.old self.new }
        ensures order { AreRising (records_of self.old) → AreRising (records_of self.new) }
    {
        remove_record(&mut self.bytes, i);
    }

    /// Sets or clears a record's mark, the byte behind its key.
    pub fn mark(&mut self, i: u16, key_len: u8, on: bool)
        requires fields { HasTreeFields self.old }
        requires place { i < count_of self.old }
        requires key { key_len < record_len_of self.old }
        ensures fields { HasTreeFields self.new }
        ensures records { records_of self.new ≡ with_byte i key_len (mark_byte on) (records_of self.old) }
        ensures kept { KeepsFields self.old self.new }
        ensures keys { map (take key_len) (records_of self.new) ≡ map (take key_len) (records_of self.old) }
        ensures order { AreRising (map (take key_len) (records_of self.old)) → AreRising (records_of self.new) }
    {
        mark_record(&mut self.bytes, i, key_len, u8::from(on));
    }

    /// Cuts the page at a record: the page of that number gets the records from there on, and is given.
    pub fn split_at(&mut self, i: u16, key_len: u8, number: u32) -> Page
        requires fields { HasTreeFields self.old }
        requires place { i < count_of self.old }
        requires key { key_len ≤ record_len_of self.old }
        requires fence { key_len ≤ FENCE }
        ensures lower { IsLowerHalf self.old i (take key_len (slice_index_or (records_of self.old) i [])) number self.new }
        ensures upper { IsUpperHalf self.old i (take key_len (slice_index_or (records_of self.old) i [])) number result }
        ensures order { AreRising (records_of self.old) → AreRising (records_of self.new) × AreRising (records_of result) }
    {
        let mut above = self.bytes;
        let whole = self.bytes;
        let key = key_of(&whole, i, key_len);
        keep_upper(&mut above, i, key, number);
        keep_lower(&mut self.bytes, i, key, number);
        Page { bytes: above }
    }
}
