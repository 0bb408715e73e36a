//! The mini-transaction as everybody sees it: the trait `Mtr` over a pool, a log and a disk.
//! It reaches the pool at its commit alone, and the log with it.

ghost use Rattle.std.specs.Prelude.{◌≡◌, ◌↔◌, ℕ, List, None, Ok, ◌+◌, ◌<◌, ◌≤◌, [], ◌∷◌, ◌++◌, length, IsTrue, IsOk, IfOk, OnOk, OnErr, Err};
ghost use Rattle.log_format.specs.declared.group.Record.TheVariants.{Put, Fresh};
ghost use Rattle.redo_log.specs.View.{room_of};
ghost use Rattle.store_api.specs.declared.visits.FreshBad.TheVariants.{Again as FreshAgain, NoMemory as NoFreshMemory};
ghost use Rattle.store_api.specs.declared.visits.Visit.TheVariants.{Again as VisitAgain};
ghost use Rattle.mtr.specs.Seen.{is_in, visit, IsShown, IsShut, IsWithin};
ghost use Rattle.mtr.specs.Calls.{Asks, Looks, Makes, Puts, Commits, GivesUp};
ghost use Rattle.mini_txn.specs.Dealt.{pages_of};
ghost use Rattle.mini_txn.specs.Edits.{edited};
ghost use Rattle.mini_txn.specs.Grouped.{IsGrouped};
ghost use Rattle.paged_txn.specs.View.{is_known, seen_in, standing_in, state_of, Begins};
ghost use Rattle.paged_txn.specs.Ending.{IsPut};
ghost use Rattle.inno_types.specs.Order.{IsBelow};
ghost use Rattle.store_api.specs.Causes.{HasCause};
ghost use Rattle.store_api.specs.Past.{Now, Meanwhile};
ghost use Rattle.stored_pages.specs.declared.layout.TheConstants.{PAGE};
ghost use Rattle.mtr.specs.declared.store.TheConstants.{MOST_VISITED};
ghost use Rattle.log_format.specs.declared.group.Group.{Group as GroupValue};
ghost use Rattle.doublewrite.specs.Kept.{IsReady};
ghost use Rattle.flusher.specs.Cleaning.{HasSamePages, to_go};
ghost use Rattle.flusher.specs.Flushing.{AreNewest, HoldsRun, KeepsSince, AreHome, AreKept};
ghost use Rattle.flusher.specs.Working.{IsAtRest, KeepsLog};
ghost use Rattle.flusher.specs.declared.work.Worked.TheVariants.{Did, Idle};

use crate::room::Room;
use crate::work::Work;
use buffer_pool::Pool;
use flusher::Worked;
use mtr::Mtr;
use redo_log::Log;
use store_api::{Disk, Failed, FreshBad, NoMemory, Visit};

/// A mini-transaction over the pages of a file, of which as many are in memory as there are frames. A page that it asks for is
/// read if need be, and stays until the mini-transaction ends; a clean page that nobody deals with goes for it. The next one
/// begins with its end, and takes no memory.
#[derive(Drop)]
pub struct PagedTxn<D: Disk> {
    work: Work<D>,
}

impl<D: Disk> PagedTxn<D> {
    /// The first mini-transaction over the log and the files on a disk. Page 0 alone is read. Where the disk fails, or tells nothing, the
    /// pages are never told.
    pub fn new(room: Room, log: Log, disk: D) -> PagedTxn<D>
        ensures begins { Begins (length room.pool.slots) (D.past disk) (D.past result.work.disk) result.work.pool result.work.told }
        ensures log { result.work.log ≡ log }
        ensures dealt { result.work.dealt ≡ [] }
        ensures records { result.work.edits ≡ [] }
        ensures batch { result.work.flusher ≡ None }
    {
        PagedTxn {
            work: Work::new(room, log, disk),
        }
    }

    /// The pool, without the puts of the mini-transaction under way.
    pub fn pool(&self) -> &Pool
        ensures { result.now ≡ self.now.work.pool }
    {
        &self.work.pool
    }

    pub fn log(&self) -> &Log
        ensures { result.now ≡ self.now.work.log }
    {
        &self.work.log
    }

    pub fn disk(&self) -> &D
        ensures { result.now ≡ self.now.work.disk }
    {
        &self.work.disk
    }

    /// The disk alone. Whatever was changed and isn't flushed goes.
    pub fn into_disk(self) -> D
        ensures { result ≡ self.work.disk }
    {
        let PagedTxn { work } = self;
        work.into_disk()
    }

    /// A step of the flusher: dirty pages are brought to the disk, so that their frames may be given up. The puts of the
    /// mini-transaction under way aren't among them. After a step that failed the pages aren't told any more.
    pub fn flush_step(&mut self) -> Result<Worked, Failed>
        ensures idle { (result ≡ Ok Idle) ↔ IsAtRest self.old.work.flusher self.old.work.pool }
        ensures rests { result ≡ Ok Idle →
            (state_of self.new.work.pool (D.past self.new.work.disk) self.new.work.dealt self.new.work.edits self.new.work.told
            ≡ state_of self.old.work.pool (D.past self.old.work.disk) self.old.work.dealt self.old.work.edits self.old.work.told) }

        // Where it didn't fail, the pages are told still, and stand and are seen as before.
        ensures looks { OnOk result (Looks (pages_of self.old.work.dealt)
            (state_of self.old.work.pool (D.past self.old.work.disk) self.old.work.dealt self.old.work.edits self.old.work.told)
            (state_of self.new.work.pool (D.past self.new.work.disk) self.new.work.dealt self.new.work.edits self.new.work.told)) }

        ensures nears { result ≡ Ok Did → IsBelow (to_go self.new.work.flusher self.new.work.pool) (to_go self.old.work.flusher self.old.work.pool) }
        ensures pages { HasSamePages self.old.work.pool self.new.work.pool }
        ensures log { KeepsLog self.old.work.log self.new.work.log }
        ensures dealt { self.new.work.dealt ≡ self.old.work.dealt }
        ensures records { self.new.work.edits ≡ self.old.work.edits }
        ensures cause { HasCause (D.past self.old.work.disk).faults (D.past self.new.work.disk).faults result }
        ensures home { (first : ℕ) (groups : List GroupValue) (base : ℕ → List ℕ) → AreNewest groups base self.old.work.pool
            → Now IsReady (D.past self.old.work.disk)
            → Now (HoldsRun first groups base self.old.work.flusher self.old.work.log) (D.past self.old.work.disk)
            → Now (AreHome self.old.work.pool self.new.work.pool) (D.past self.new.work.disk) }

        // Each page that isn't changed in the pool is in its place for good, or nobody has written it, if it was so before.
        ensures kept { (first : ℕ) (groups : List GroupValue) (base : ℕ → List ℕ) → AreNewest groups base self.old.work.pool
            → Now IsReady (D.past self.old.work.disk)
            → Now (HoldsRun first groups base self.old.work.flusher self.old.work.log) (D.past self.old.work.disk)
            → Now (AreKept groups base self.old.work.pool) (D.past self.old.work.disk)
            → Now (AreKept groups base self.new.work.pool) (D.past self.new.work.disk) }
        ensures stands { (first : ℕ) (groups : List GroupValue) (base : ℕ → List ℕ) → AreNewest groups base self.old.work.pool
            → Now IsReady (D.past self.old.work.disk)
            → Now (HoldsRun first groups base self.old.work.flusher self.old.work.log) (D.past self.old.work.disk)
            → OnOk result (Now (HoldsRun first groups base self.new.work.flusher self.new.work.log) (D.past self.new.work.disk)) }
        ensures crash { (first : ℕ) (groups : List GroupValue) (base : ℕ → List ℕ) → AreNewest groups base self.old.work.pool
            → Now IsReady (D.past self.old.work.disk)
            → Now (HoldsRun first groups base self.old.work.flusher self.old.work.log) (D.past self.old.work.disk)
            → Meanwhile (KeepsSince self.old.work.log.run first self.old.work.log.flushed groups base) (D.past self.old.work.disk) (D.past self.new.work.disk) }
    {
        self.work.flush_step()
    }
}

impl<D: Disk> Mtr for PagedTxn<D> {
    ghost state = { λ m. state_of m.work.pool (D.past m.work.disk) m.work.dealt m.work.edits m.work.told };

    fn bytes(&mut self, page: u32) -> Result<&[u8], Visit> {
        match self.work.reach(page) {
            Ok(()) => Ok(self.work.shown(page)),
            Err(why) => Err(why),
        }
    }

    fn fresh(&mut self, page: u32) -> Result<(), FreshBad>
        requires few { length (visit page (state_of self.old.work.pool (D.past self.old.work.disk) self.old.work.dealt self.old.work.edits self.old.work.told).visited) ≤ MOST_VISITED }
        requires within { IsWithin page (state_of self.old.work.pool (D.past self.old.work.disk) self.old.work.dealt self.old.work.edits self.old.work.told) }
        ensures made { OnOk result (Makes page (state_of self.old.work.pool (D.past self.old.work.disk) self.old.work.dealt self.old.work.edits self.old.work.told)
            (state_of self.new.work.pool (D.past self.new.work.disk) self.new.work.dealt self.new.work.edits self.new.work.told)) }
        ensures refused { OnErr result
            (state_of self.new.work.pool (D.past self.new.work.disk) self.new.work.dealt self.new.work.edits self.new.work.told
            ≡ state_of self.old.work.pool (D.past self.old.work.disk) self.old.work.dealt self.old.work.edits self.old.work.told) }
        ensures shut { IsShut page (state_of self.old.work.pool (D.past self.old.work.disk) self.old.work.dealt self.old.work.edits self.old.work.told)
            → result ≡ Err FreshAgain }
        ensures again { result ≡ Err FreshAgain → IsShut page (state_of self.old.work.pool (D.past self.old.work.disk) self.old.work.dealt self.old.work.edits self.old.work.told) }
        ensures memory { result ≡ Err NoFreshMemory
            → (state_of self.old.work.pool (D.past self.old.work.disk) self.old.work.dealt self.old.work.edits self.old.work.told).spare < 5 }

        // It has one record more, and the log none.
        ensures records { OnOk result (self.new.work.edits ≡ self.old.work.edits ++ Fresh page ∷ []) }
        ensures log { self.new.work.log ≡ self.old.work.log }
    {
        self.work.make(page)
    }

    fn put(&mut self, page: u32, at: u16, bytes: &[u8]) -> Result<(), NoMemory>
        requires begins { 20 ≤ at }
        requires ends { at + length bytes.now ≤ PAGE }
        requires dealt_with { IsTrue (is_in page (state_of self.old.work.pool (D.past self.old.work.disk) self.old.work.dealt self.old.work.edits self.old.work.told).visited) }
        requires within { IsWithin page (state_of self.old.work.pool (D.past self.old.work.disk) self.old.work.dealt self.old.work.edits self.old.work.told) }
        ensures put { OnOk result (Puts page at bytes.now (state_of self.old.work.pool (D.past self.old.work.disk) self.old.work.dealt self.old.work.edits self.old.work.told)
            (state_of self.new.work.pool (D.past self.new.work.disk) self.new.work.dealt self.new.work.edits self.new.work.told)) }
        ensures refused { OnErr result
            (state_of self.new.work.pool (D.past self.new.work.disk) self.new.work.dealt self.new.work.edits self.new.work.told
            ≡ state_of self.old.work.pool (D.past self.old.work.disk) self.old.work.dealt self.old.work.edits self.old.work.told) }
        ensures memory { OnErr result ((state_of self.old.work.pool (D.past self.old.work.disk) self.old.work.dealt self.old.work.edits self.old.work.told).spare < length bytes.now + 9) }

        // It has one record more, and neither the pool nor the log has it.
        ensures records { OnOk result (self.new.work.edits ≡ self.old.work.edits ++ Put page at bytes.now ∷ []) }
        ensures pool { self.new.work.pool ≡ self.old.work.pool }
        ensures log { self.new.work.log ≡ self.old.work.log }
    {
        self.work.put(page, at, bytes)
    }

    fn commit(&mut self) -> Result<(), NoMemory>
        ensures committed { OnOk result (Commits (state_of self.old.work.pool (D.past self.old.work.disk) self.old.work.dealt self.old.work.edits self.old.work.told)
            (state_of self.new.work.pool (D.past self.new.work.disk) self.new.work.dealt self.new.work.edits self.new.work.told)) }
        ensures refused { OnErr result
            (state_of self.new.work.pool (D.past self.new.work.disk) self.new.work.dealt self.new.work.edits self.new.work.told
            ≡ state_of self.old.work.pool (D.past self.old.work.disk) self.old.work.dealt self.old.work.edits self.old.work.told) }

        // The log has one group more, whose records make of each page what the mini-transaction saw.
        ensures grouped { OnOk result (IsGrouped self.old.work.edits self.old.work.log self.new.work.log) }
        ensures edits { (page : ℕ) → seen_in self.old.work.pool (D.past self.old.work.disk) self.old.work.dealt page
            ≡ edited page self.old.work.edits (standing_in self.old.work.pool (D.past self.old.work.disk) page) }

        // Each page that was put is in its frame, with its number and the LSN of that group. The bytes of the others stay.
        ensures frames { OnOk result (IsTrue (is_known self.old.work.told (D.past self.old.work.disk)) → (lsn page : ℕ) → lsn + 1 ≡ self.new.work.log.next
            → IsPut self.old.work.pool self.old.work.dealt self.new.work.pool lsn page) }
        ensures ends { OnOk result (self.new.work.edits ≡ []) }
        ensures suffices { room_of self.old.work.edits ≤ self.old.work.log.spare → IsOk result }
        ensures kept { OnErr result (self.new.work.log ≡ self.old.work.log) }
    {
        self.work.commit()
    }

    fn give_up(&mut self)
        ensures gives_up { GivesUp (state_of self.old.work.pool (D.past self.old.work.disk) self.old.work.dealt self.old.work.edits self.old.work.told)
            (state_of self.new.work.pool (D.past self.new.work.disk) self.new.work.dealt self.new.work.edits self.new.work.told) }
        ensures log { self.new.work.log ≡ self.old.work.log }
        ensures ends { self.new.work.edits ≡ [] }
    {
        self.work.give_up();
    }
}
