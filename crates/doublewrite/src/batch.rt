//! Up to 64 sealed pages that are written together.
//! `stage` takes a batch that its caller has filled.

ghost use Rattle.std.specs.Prelude.{◌≡◌, ◌≢◌, [], ◌+◌, ◌*◌, ◌<◌, ◌≤◌, ◌++◌, ℕ, length, vec_len, vec_capacity, IfOk, MatchBool};
ghost use Rattle.store_api.specs.Areas.{PassesSum};
ghost use Rattle.stored_pages.specs.declared.layout.TheConstants.{SLOTS};
ghost use Rattle.stored_pages.specs.Words.{number_of};
ghost use Rattle.doublewrite.specs.Batches.{IsBatch, page_at, number_at};

use page_format::Page;
use std::alloc::Global;
use std::marker::Model;
use store_api::NoMemory;
use stored_pages::layout::{DOUBLE, PAGE};
use stored_pages::number_in;

/// Up to 64 sealed pages of distinct numbers.
#[derive(Drop)]
pub struct Batch {
    count: usize,
    bytes: Vec<u8>,
}

impl Model for Batch {
    ghost use Rattle.std.specs.Prelude.{vec_capacity};
    ghost use Rattle.doublewrite.specs.Batches.{BatchView, HasRoom};

    ghost Value = { BatchView };

    ghost invariant = { λ b. HasRoom (record { count = b.count; bytes = b.bytes.items }) (vec_capacity b.bytes) };

    ghost view = { λ b. record { count = b.count; bytes = b.bytes.items } };
}

fn put_within(bytes: &[u8], out: &mut Vec<u8>)
    requires { vec_len out.old + length bytes.now ≤ vec_capacity out.old }
    ensures items { out.new.items ≡ out.old.items ++ bytes.now }
    ensures len { vec_len out.new ≡ vec_len out.old + length bytes.now }
    ensures grows { vec_capacity out.old ≤ vec_capacity out.new }
{
    let _ = out.extend_from_slice(bytes);
}

impl Batch {
    /// An empty batch, with room for all its pages.
    pub fn new(alloc: Global) -> Result<Batch, NoMemory>
        ensures { IfOk result (λ batch. batch ≡ record { count = 0; bytes = [] }) }
    {
        Ok(Batch {
            count: 0,
            bytes: Vec::with_capacity(alloc, DOUBLE)?,
        })
    }

    pub fn len(&self) -> usize
        ensures is_batch { IsBatch self.now }
        ensures value { result ≡ self.now.count }
        ensures few { result ≤ SLOTS }
    {
        self.count
    }

    /// The bytes of a page.
    pub fn page(&self, slot: usize) -> &[u8]
        requires { slot < self.now.count }
        ensures is_batch { IsBatch self.now }
        ensures value { result.now ≡ page_at self.now slot }
        ensures size { length result.now ≡ PAGE }
    {
        &self.bytes[slot * PAGE..(slot + 1) * PAGE]
    }

    /// Whether it has a page of that number.
    pub fn contains(&self, number: u32) -> bool
        ensures { MatchBool result ((k : ℕ) × (k < self.now.count) × (number_at self.now k ≡ number)) ((k : ℕ) → k < self.now.count → number_at self.now k ≢ number) }
    {
        for slot in 0..self.len() {
            if number_in(self.page(slot)) == number {
                return true;
            }
        }
        false
    }

    /// All pages, one behind the other.
    pub fn as_bytes(&self) -> &[u8]
        ensures is_batch { IsBatch self.now }
        ensures value { result.now ≡ self.now.bytes }
    {
        &self.bytes
    }

    /// Takes a page, which is sealed and isn't in the batch yet. It takes no memory.
    pub fn add(&mut self, page: &Page)
        requires room { self.old.count < SLOTS }
        requires sealed { PassesSum page.now }
        requires distinct { (k : ℕ) → k < self.old.count → number_at self.old k ≢ number_of page.now }
        ensures { self.new ≡ record { count = self.old.count + 1; bytes = self.old.bytes ++ page.now } }
    {
        self.add_bytes(page.as_bytes());
    }

    /// Takes the bytes of a page, as `add` does.
    pub fn add_bytes(&mut self, page: &[u8])
        requires room { self.old.count < SLOTS }
        requires size { length page.now ≡ PAGE }
        requires sealed { PassesSum page.now }
        requires distinct { (k : ℕ) → k < self.old.count → number_at self.old k ≢ number_of page.now }
        ensures batch { self.new ≡ record { count = self.old.count + 1; bytes = self.old.bytes ++ page.now } }
        ensures earlier { (k : ℕ) → k < self.old.count → page_at self.new k ≡ page_at self.old k }
        ensures last { page_at self.new self.old.count ≡ page.now }
    {
        put_within(page, &mut self.bytes);
        self.count += 1;
    }

    /// Forgets all pages, and keeps the room.
    pub fn clear(&mut self)
        ensures { self.new ≡ record { count = 0; bytes = [] } }
    {
        self.bytes.clear();
        self.count = 0;
    }
}
