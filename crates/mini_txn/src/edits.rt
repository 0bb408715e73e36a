//! The records of a mini-transaction, spelled as they are put, so that its commit spells nothing more.
//! All of the room is taken at the beginning, so that no call takes memory later.

ghost use Rattle.std.specs.Prelude.{◌≡◌, ◌↔◌, ◌+◌, ◌≤◌, [], ◌∷◌, ◌++◌, length, vec_len, vec_capacity, OnOk, OnErr, IsOk, IfOk, IsTrue};
ghost use Rattle.stored_pages.specs.declared.layout.TheConstants.{PAGE};
ghost use Rattle.log_format.specs.declared.group.Record.TheVariants.{Put, Fresh};
ghost use Rattle.log_format.specs.Group.{record_bytes};
ghost use Rattle.redo_log.specs.View.{room_of};
ghost use Rattle.mini_txn.specs.Edits.{spare_of};
ghost use Rattle.mini_txn.specs.Grouped.{IsGrouped};

use big_endian::u32_bytes;
use redo_log::Log;
use schema_codec::{extend_reserved, put_u16_reserved};
use std::alloc::Global;
use std::marker::Model;
use store_api::NoMemory;

/// The most bytes of records.
pub const ROOM: usize = 131_072;

/// The records. Contracts see them in order.
#[derive(Drop)]
pub struct Edits {
    bytes: Vec<u8>,
    count: u16,
}

impl Model for Edits {
    ghost use Rattle.std.specs.Prelude.{List, vec_capacity};
    ghost use Rattle.log_format.specs.declared.group.Record.{Record};
    ghost use Rattle.mini_txn.specs.Edits.{kept, AreKept};

    ghost Value = { List Record };

    ghost view = { λ e. kept e.count e.bytes.items };

    ghost invariant = { λ e. AreKept (kept e.count e.bytes.items) e.count e.bytes.items (vec_capacity e.bytes) };
}

/// Spells the record of a fresh page at the end.
#[tactic(auto, unfolding(schema_codec::specs::Numbers::u32_bytes))]
fn put_fresh(page: u32, out: &mut Vec<u8>)
    requires { vec_len out.old + 5 ≤ vec_capacity out.old }
    ensures items { out.new.items ≡ out.old.items ++ record_bytes (Fresh page) }
    ensures len { vec_len out.new ≡ vec_len out.old + 5 }
    ensures grows { vec_capacity out.old ≤ vec_capacity out.new }
{
    extend_reserved(&[2], out);
    extend_reserved(&u32_bytes(page), out);
}

/// Spells the record of bytes in a page at the end.
#[tactic(auto, unfolding(schema_codec::specs::Numbers::u32_bytes), using(schema_codec::proofs::Lengths::lengths))]
fn put_piece(page: u32, at: u16, bytes: &[u8], out: &mut Vec<u8>)
    requires size { length bytes.now ≤ PAGE }
    requires room { vec_len out.old + (9 + length bytes.now) ≤ vec_capacity out.old }
    ensures items { out.new.items ≡ out.old.items ++ record_bytes (Put page at bytes.now) }
    ensures len { vec_len out.new ≡ vec_len out.old + (9 + length bytes.now) }
    ensures grows { vec_capacity out.old ≤ vec_capacity out.new }
{
    extend_reserved(&[1], out);
    extend_reserved(&u32_bytes(page), out);
    put_u16_reserved(at, out);
    put_u16_reserved(bytes.len() as u16, out);
    extend_reserved(bytes, out);
}

impl Edits {
    /// No records, with the whole spare.
    pub fn new(alloc: Global) -> Result<Edits, NoMemory>
        ensures { IfOk result (λ edits. edits ≡ []) }
    {
        Ok(Edits {
            bytes: Vec::with_capacity(alloc, ROOM)?,
            count: 0,
        })
    }

    pub fn is_empty(&self) -> bool
        ensures { IsTrue result ↔ (self.now ≡ []) }
    {
        self.count == 0
    }

    /// How many bytes of records there is room for.
    pub fn spare(&self) -> usize
        ensures { result ≡ spare_of self.now }
    {
        ROOM - self.bytes.len()
    }

    /// The page becomes zeros.
    pub fn add_fresh(&mut self, page: u32)
        requires { 5 ≤ spare_of self.old }
        ensures { self.new ≡ self.old ++ Fresh page ∷ [] }
    {
        put_fresh(page, &mut self.bytes);
        self.count += 1;
    }

    /// These bytes stand in the page.
    pub fn add_put(&mut self, page: u32, at: u16, bytes: &[u8])
        requires begins { 20 ≤ at }
        requires ends { at + length bytes.now ≤ PAGE }
        requires room { length bytes.now + 9 ≤ spare_of self.old }
        ensures { self.new ≡ self.old ++ Put page at bytes.now ∷ [] }
    {
        put_piece(page, at, bytes, &mut self.bytes);
        self.count += 1;
    }

    pub fn clear(&mut self)
        ensures { self.new ≡ [] }
    {
        self.bytes.clear();
        self.count = 0;
    }

    /// Appends them as one group, if there are any. Answers the LSN of the log's newest group.
    pub fn append(&self, log: &mut Log) -> Result<u64, NoMemory>
        ensures grouped { OnOk result (IsGrouped self.now log.old log.new) }
        ensures newest { IfOk result (λ lsn. lsn + 1 ≡ log.new.next) }
        ensures suffices { room_of self.now ≤ log.old.spare → IsOk result }
        ensures err { OnErr result (log.new ≡ log.old) }
    {
        if self.count == 0 {
            return Ok(log.last());
        }
        log.append_spelled(self.count, &self.bytes)
    }
}
