//! The mini-transaction as everybody sees it: the trait `Mtr` over a pool and a log.
//! It reaches the pool at its commit alone, and the log with it.

ghost use Rattle.std.specs.Prelude.{◌≡◌, ℕ, ◌+◌, ◌<◌, ◌≤◌, [], ◌∷◌, ◌++◌, false, length, is_some, IsTrue, IsOk, IfOk, OnOk, OnErr, Err};
ghost use Rattle.log_format.specs.declared.group.Record.TheVariants.{Put, Fresh};
ghost use Rattle.redo_log.specs.View.{room_of};
ghost use Rattle.buffer_pool.specs.Frames.{HasOneMore, slot_of};
ghost use Rattle.store_api.specs.declared.visits.FreshBad.TheVariants.{Again as FreshAgain, NoMemory as NoFreshMemory};
ghost use Rattle.store_api.specs.declared.visits.Visit.TheVariants.{Again as VisitAgain};
ghost use Rattle.stored_pages.specs.declared.layout.TheConstants.{PAGE};
ghost use Rattle.mtr.specs.declared.store.TheConstants.{MOST_VISITED};
ghost use Rattle.mtr.specs.Seen.{is_in, visit, IsShown, IsShut, IsWithin};
ghost use Rattle.mtr.specs.Calls.{Asks, Makes, Puts, Commits, GivesUp};
ghost use Rattle.mini_txn.specs.Dealt.{pages_of};
ghost use Rattle.mini_txn.specs.Edits.{edited};
ghost use Rattle.mini_txn.specs.Grouped.{IsGrouped};
ghost use Rattle.mini_txn.specs.View.{standing_in, seen_in, state_of, IsRead, IsPut, Begins};

use crate::work::Work;
use buffer_pool::Pool;
use mtr::Mtr;
use redo_log::Log;
use std::alloc::Global;
use std::marker::Model;
use store_api::{FreshBad, NoMemory, Visit};

/// A mini-transaction over the pages of a pool, all of which it keeps there. The next one begins with its end, and takes no
/// memory: the room for 24 pages and 131,072 bytes of records is there since the first.
#[derive(Drop)]
pub struct MiniTxn {
    work: Work,
}

impl Model for MiniTxn {
    ghost use Rattle.mini_txn.specs.View.{MiniView};

    ghost Value = { MiniView };

    ghost view = { λ m. m.work };
}

impl MiniTxn {
    /// The first mini-transaction over a pool and a log. It fixes all pages of the pool, so that none is given up.
    pub fn new(alloc: Global, pool: Pool, log: Log) -> Result<MiniTxn, NoMemory>
        ensures { IfOk result (λ m. Begins pool log m) }
    {
        Ok(MiniTxn {
            work: Work::new(alloc, pool, log)?,
        })
    }

    /// The pool, without the puts of the mini-transaction under way.
    pub fn pool(&self) -> &Pool
        ensures { result.now ≡ self.now.pool }
    {
        self.work.pool()
    }

    pub fn log(&self) -> &Log
        ensures { result.now ≡ self.now.log }
    {
        self.work.log()
    }

    /// One frame more, without a page, in the slot of a page that has none. So there is one for a page that is made.
    pub fn add_frame(&mut self, alloc: Global, page: u32) -> Result<(), NoMemory>
        requires within { page < length self.old.pool.slots }
        requires bare { is_some (slot_of self.old.pool page) ≡ false }
        ensures ok { OnOk result (HasOneMore page self.old.pool self.new.pool) }
        ensures rest { record self.new { pool = self.old.pool } ≡ self.old }
        ensures err { OnErr result (self.new ≡ self.old) }
    {
        self.work.add_frame(alloc, page)
    }

    /// The pool and the log, without the puts of the mini-transaction under way. The pages of the pool stay fixed.
    pub fn into_parts(self) -> (Pool, Log)
        ensures pool { result.0 ≡ self.pool }
        ensures log { result.1 ≡ self.log }
    {
        self.work.into_parts()
    }

    /// Deals with a page, if it can be read. It copies nothing. `bytes` is this and `shown`.
    pub fn reach(&mut self, page: u32) -> Result<(), Visit>
        requires { length (visit page (pages_of self.old.dealt)) ≤ MOST_VISITED }
        ensures asks { Asks page (state_of self.old) result (state_of self.new) }
        ensures read { IsRead self.old self.new }
        ensures reached { OnOk result (IsTrue (is_in page (pages_of self.new.dealt))) }
        ensures dealt_with { IsTrue (is_in page (pages_of self.old.dealt)) → IsOk result }
        ensures shut { IsShut page (state_of self.old) → result ≡ Err VisitAgain }
    {
        self.work.reach(page)
    }

    /// A page that is dealt with, with the puts.
    pub fn shown(&self, page: u32) -> &[u8]
        requires { IsTrue (is_in page (pages_of self.now.dealt)) }
        ensures shown { IsShown (seen_in self.now.pool self.now.dealt page) result.now }
        ensures size { length result.now ≡ PAGE }
    {
        self.work.shown(page)
    }
}

impl Mtr for MiniTxn {
    ghost state = { state_of };

    fn bytes(&mut self, page: u32) -> Result<&[u8], Visit> {
        match self.work.reach(page) {
            Ok(()) => Ok(self.work.shown(page)),
            Err(why) => Err(why),
        }
    }

    fn fresh(&mut self, page: u32) -> Result<(), FreshBad>
        requires few { length (visit page (state_of self.old).visited) ≤ MOST_VISITED }
        requires within { IsWithin page (state_of self.old) }
        ensures made { OnOk result (Makes page (state_of self.old) (state_of self.new)) }
        ensures refused { OnErr result (state_of self.new ≡ state_of self.old) }
        ensures shut { IsShut page (state_of self.old) → result ≡ Err FreshAgain }
        ensures again { result ≡ Err FreshAgain → IsShut page (state_of self.old) }
        ensures memory { result ≡ Err NoFreshMemory → (state_of self.old).spare < 5 }

        // It has one record more, and the log none.
        ensures records { OnOk result (self.new.records ≡ self.old.records ++ Fresh page ∷ []) }
        ensures log { self.new.log ≡ self.old.log }
        ensures err { OnErr result (self.new ≡ self.old) }
    {
        self.work.make(page)
    }

    fn put(&mut self, page: u32, at: u16, bytes: &[u8]) -> Result<(), NoMemory>
        requires begins { 20 ≤ at }
        requires ends { at + length bytes.now ≤ PAGE }
        requires dealt_with { IsTrue (is_in page (state_of self.old).visited) }
        requires within { IsWithin page (state_of self.old) }
        ensures put { OnOk result (Puts page at bytes.now (state_of self.old) (state_of self.new)) }
        ensures refused { OnErr result (state_of self.new ≡ state_of self.old) }
        ensures memory { OnErr result ((state_of self.old).spare < length bytes.now + 9) }

        // It has one record more, and neither the pool nor the log has it.
        ensures records { OnOk result (self.new.records ≡ self.old.records ++ Put page at bytes.now ∷ []) }
        ensures pool { self.new.pool ≡ self.old.pool }
        ensures log { self.new.log ≡ self.old.log }
        ensures err { OnErr result (self.new ≡ self.old) }
    {
        self.work.put(page, at, bytes)
    }

    fn commit(&mut self) -> Result<(), NoMemory>
        ensures committed { OnOk result (Commits (state_of self.old) (state_of self.new)) }
        ensures refused { OnErr result (state_of self.new ≡ state_of self.old) }

        // The log has one group more, whose records make of each page what the mini-transaction saw.
        ensures grouped { OnOk result (IsGrouped self.old.records self.old.log self.new.log) }
        ensures edits { (page : ℕ) → seen_in self.old.pool self.old.dealt page ≡ edited page self.old.records (standing_in self.old.pool page) }

        // Each page that was put is in its frame, with its number and the LSN of that group. The other frames stay.
        ensures frames { OnOk result (IsTrue self.old.told → (lsn page : ℕ) → lsn + 1 ≡ self.new.log.next → IsPut self.old self.new lsn page) }
        ensures ends { OnOk result (self.new.records ≡ []) }
        ensures suffices { room_of self.old.records ≤ self.old.log.spare → IsOk result }
        ensures err { OnErr result (self.new ≡ self.old) }
    {
        self.work.commit()
    }

    fn give_up(&mut self)
        ensures gives_up { GivesUp (state_of self.old) (state_of self.new) }
        ensures log { self.new.log ≡ self.old.log }
        ensures ends { self.new.records ≡ [] }
    {
        self.work.give_up();
    }
}
