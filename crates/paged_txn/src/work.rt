//! What is under way: the pool, the log and the disk, the pages that are dealt with, and the records that stand.
//! `PagedTxn` alone calls this, and gives it the form of the trait.

ghost use Rattle.std.specs.Prelude.{◌≡◌, ◌↔◌, ℕ, List, None, ◌+◌, ◌<◌, ◌≤◌, [], ◌∷◌, ◌++◌, ◌||◌, true, false, length, is_some, IsTrue, IsOk, IfOk, OnOk, OnErr, Err, Ok};
ghost use Rattle.log_format.specs.declared.group.Record.TheVariants.{Put, Fresh};
ghost use Rattle.redo_log.specs.View.{room_of};
ghost use Rattle.store_api.specs.declared.visits.FreshBad.TheVariants.{Again as FreshAgain, NoMemory as NoFreshMemory};
ghost use Rattle.store_api.specs.declared.visits.Visit.TheVariants.{Again as VisitAgain};
ghost use Rattle.mtr.specs.Seen.{is_in, visit, IsShut, IsWithin, IsShown};
ghost use Rattle.mtr.specs.Calls.{Asks, Looks, Makes, Puts, Commits, GivesUp};
ghost use Rattle.mini_txn.specs.Dealt.{pages_of};
ghost use Rattle.mini_txn.specs.Edits.{edited, spare_of};
ghost use Rattle.mini_txn.specs.Grouped.{IsGrouped};
ghost use Rattle.buffer_pool.specs.Frames.{fixes_of, is_pooled, is_dirty, next_idle};
ghost use Rattle.paged_txn.specs.View.{HasNoPage, Begins, IsPaged, state_of, seen_in, standing_in, is_known};
ghost use Rattle.paged_txn.specs.Ending.{IsPut};
ghost use Rattle.paged_txn.specs.UnderWay.{IsFlushed};
ghost use Rattle.paged_txn.specs.Fixing.{IsSecured};
ghost use Rattle.paged_txn.specs.Bringing.{is_no_fault};
ghost use Rattle.inno_types.specs.Order.{IsBelow};
ghost use Rattle.store_api.specs.Causes.{HasCause};
ghost use Rattle.store_api.specs.Past.{Now, Meanwhile};
ghost use Rattle.mtr.specs.declared.store.TheConstants.{MOST_VISITED};
ghost use Rattle.log_format.specs.declared.group.Group.{Group as GroupValue};
ghost use Rattle.doublewrite.specs.Kept.{IsReady};
ghost use Rattle.flusher.specs.Cleaning.{HasSamePages, to_go};
ghost use Rattle.flusher.specs.Flushing.{AreNewest, HoldsRun, KeepsSince, AreHome, AreKept};
ghost use Rattle.flusher.specs.Working.{IsAtRest, KeepsLog};
ghost use Rattle.flusher.specs.declared.work.Worked.TheVariants.{Did, Idle};

use crate::bringing::bring;
use crate::ending::{let_all_go, let_go};
use crate::room::Room;
use buffer_pool::Pool;
use flusher::{Flusher, Worked};
use mini_txn::{Dealt, Edits, place_copies, shown_in, tells, write_in};
use redo_log::Log;
use store_api::{Disk, Failed, FreshBad, NoMemory, Visit};
use stored_pages::layout::{PAGE, PAGE_COUNT};
use stored_pages::read_u32;

/// A mini-transaction under way.
#[derive(Drop)]
pub struct Work<D: Disk> {
    pub pool: Pool,
    pub log: Log,
    pub disk: D,
    pub dealt: Dealt,
    pub edits: Edits,
    pub flusher: Flusher,
    pub told: bool,
    ghost is_paged: { IsPaged pool (D.past disk) dealt edits told },
    ghost is_flushed: { IsFlushed (is_known told (D.past disk)) pool log (D.past disk) flusher },
}

/// Whether page 0 counts no more pages than the pool may hold. Where it can't be read it isn't known; where what stands there is no
/// page it counts none.
fn counts_few<D: Disk>(pool: &mut Pool, disk: &mut D) -> bool
    requires { HasNoPage (length pool.old.slots) pool.old }
    ensures paged { IsPaged pool.new (D.past disk.new) [] [] result }
    ensures begins { Begins (length pool.old.slots) (D.past disk.old) (D.past disk.new) pool.new result }
    ensures clean { (page : ℕ) → is_dirty pool.new page ≡ false }
{
    match bring(pool, disk, 0) {
        Ok(()) => {
            let few = read_u32(pool.bytes(0), PAGE_COUNT) <= pool.pages();
            let_go(pool, 0);
            few
        }
        Err(Visit::Bad { .. }) => true,
        Err(_) => false,
    }
}

/// Whether the disk gives what it gave before, though a page isn't shown.
fn leaves_disk_whole(why: Visit) -> bool
    ensures { result ≡ is_no_fault why }
{
    why != Visit::Failed
}

/// Whether a page can be made: it is dealt with, or in the pool, or there is a frame for it.
fn is_open(pool: &Pool, known: bool, page: u32) -> bool
    ensures { result ≡ (known || (is_pooled pool.now page || is_some (next_idle pool.now))) }
{
    known || pool.is_pooled(page) || pool.has_idle()
}

/// Fixes a page that isn't dealt with yet, or takes a frame for it, if there is one.
fn secure(pool: &mut Pool, known: bool, page: u32)
    requires { known ≡ false → fixes_of pool.old page ≡ 0 }
    ensures { IsSecured known page pool.old pool.new }
{
    if known || page >= pool.pages() {
        return;
    }
    if pool.is_pooled(page) {
        pool.hold(page);
    } else {
        pool.fix_new(page);
    }
}

impl<D: Disk> Work<D> {
    /// Nothing was put yet. Page 0 alone is read.
    pub fn new(room: Room, log: Log, mut disk: D) -> Work<D>
        ensures begins { Begins (length room.pool.slots) (D.past disk) (D.past result.disk) result.pool result.told }
        ensures log { result.log ≡ log }
        ensures dealt { result.dealt ≡ [] }
        ensures records { result.edits ≡ [] }
        ensures batch { result.flusher ≡ None }
    {
        let Room {
            mut pool,
            dealt,
            edits,
            flusher,
        } = room;
        let told = counts_few(&mut pool, &mut disk);
        Work {
            pool,
            log,
            disk,
            dealt,
            edits,
            flusher,
            told,
        }
    }

    /// The disk, without all else.
    pub fn into_disk(self) -> D
        ensures { result ≡ self.disk }
    {
        let Work {
            pool,
            log,
            disk,
            dealt,
            edits,
            flusher,
            told: _,
        } = self;
        drop(pool);
        drop(log);
        drop(dealt);
        drop(edits);
        drop(flusher);
        disk
    }

    /// Deals with a page, if it can be read.
    pub fn reach(&mut self, page: u32) -> Result<(), Visit>
        requires { length (visit page (pages_of self.old.dealt)) ≤ MOST_VISITED }
        ensures asks { Asks page (state_of self.old.pool (D.past self.old.disk) self.old.dealt self.old.edits self.old.told) result
            (state_of self.new.pool (D.past self.new.disk) self.new.dealt self.new.edits self.new.told) }
        ensures reached { OnOk result (IsTrue (is_in page (pages_of self.new.dealt))) }
        ensures dealt_with { IsTrue (is_in page (pages_of self.old.dealt)) → IsOk result }
        ensures seen { OnOk result (IsTrue (is_known self.old.told (D.past self.old.disk))
            → seen_in self.new.pool (D.past self.new.disk) self.new.dealt page ≡ seen_in self.old.pool (D.past self.old.disk) self.old.dealt page) }
        ensures shut { IsShut page (state_of self.old.pool (D.past self.old.disk) self.old.dealt self.old.edits self.old.told) → result ≡ Err VisitAgain }
        ensures log { self.new.log ≡ self.old.log }
        ensures records { self.new.edits ≡ self.old.edits }
    {
        if self.dealt.contains(page) {
            return Ok(());
        }
        match bring(&mut self.pool, &mut self.disk, page) {
            Ok(()) => {
                self.dealt.visit(page);
                Ok(())
            }
            Err(why) => {
                self.told &= leaves_disk_whole(why);
                Err(why)
            }
        }
    }

    /// A page that is dealt with, with the puts.
    pub fn shown(&self, page: u32) -> &[u8]
        requires { IsTrue (is_in page (pages_of self.now.dealt)) }
        ensures shown { IsShown (seen_in self.now.pool (D.past self.now.disk) self.now.dealt page) result.now }
        ensures size { length result.now ≡ PAGE }
    {
        shown_in(&self.pool, &self.dealt, page)
    }

    /// Makes the page zeros.
    pub fn make(&mut self, page: u32) -> Result<(), FreshBad>
        requires few { length (visit page (pages_of self.old.dealt)) ≤ MOST_VISITED }
        requires within { IsWithin page (state_of self.old.pool (D.past self.old.disk) self.old.dealt self.old.edits self.old.told) }
        ensures made { OnOk result (Makes page (state_of self.old.pool (D.past self.old.disk) self.old.dealt self.old.edits self.old.told)
            (state_of self.new.pool (D.past self.new.disk) self.new.dealt self.new.edits self.new.told)) }
        ensures shut { IsShut page (state_of self.old.pool (D.past self.old.disk) self.old.dealt self.old.edits self.old.told) → result ≡ Err FreshAgain }
        ensures again { result ≡ Err FreshAgain → IsShut page (state_of self.old.pool (D.past self.old.disk) self.old.dealt self.old.edits self.old.told) }
        ensures memory { result ≡ Err NoFreshMemory → spare_of self.old.edits < 5 }
        ensures records { OnOk result (self.new.edits ≡ self.old.edits ++ Fresh page ∷ []) }
        ensures log { self.new.log ≡ self.old.log }
        ensures refused { OnErr result (state_of self.new.pool (D.past self.new.disk) self.new.dealt self.new.edits self.new.told
            ≡ state_of self.old.pool (D.past self.old.disk) self.old.dealt self.old.edits self.old.told) }
    {
        let known = self.dealt.contains(page);
        if !is_open(&self.pool, known, page) {
            return Err(FreshBad::Again);
        }
        if self.edits.spare() < 5 {
            return Err(FreshBad::NoMemory);
        }
        secure(&mut self.pool, known, page);
        self.dealt.visit(page);
        self.dealt.set(page, &[0; PAGE]);
        self.edits.add_fresh(page);
        Ok(())
    }

    /// Puts bytes in a page that is dealt with.
    pub fn put(&mut self, page: u32, at: u16, bytes: &[u8]) -> Result<(), NoMemory>
        requires begins { 20 ≤ at }
        requires ends { at + length bytes.now ≤ PAGE }
        requires dealt_with { IsTrue (is_in page (pages_of self.old.dealt)) }
        ensures put { OnOk result (Puts page at bytes.now (state_of self.old.pool (D.past self.old.disk) self.old.dealt self.old.edits self.old.told)
            (state_of self.new.pool (D.past self.new.disk) self.new.dealt self.new.edits self.new.told)) }
        ensures memory { OnErr result (spare_of self.old.edits < length bytes.now + 9) }
        ensures records { OnOk result (self.new.edits ≡ self.old.edits ++ Put page at bytes.now ∷ []) }
        ensures pool { self.new.pool ≡ self.old.pool }
        ensures log { self.new.log ≡ self.old.log }
        ensures refused { OnErr result (state_of self.new.pool (D.past self.new.disk) self.new.dealt self.new.edits self.new.told
            ≡ state_of self.old.pool (D.past self.old.disk) self.old.dealt self.old.edits self.old.told) }
    {
        if self.edits.spare() < bytes.len() + 9 {
            return Err(NoMemory);
        }
        write_in(&self.pool, &mut self.dealt, page, at, bytes);
        self.edits.add_put(page, at, bytes);
        self.told = tells(self.told, &self.pool, &self.dealt, page);
        Ok(())
    }

    /// Makes all the puts stand at once, with one group of the log.
    pub fn commit(&mut self) -> Result<(), NoMemory>
        ensures committed { OnOk result (Commits (state_of self.old.pool (D.past self.old.disk) self.old.dealt self.old.edits self.old.told)
            (state_of self.new.pool (D.past self.new.disk) self.new.dealt self.new.edits self.new.told)) }
        ensures grouped { OnOk result (IsGrouped self.old.edits self.old.log self.new.log) }
        ensures edits { (page : ℕ) → seen_in self.old.pool (D.past self.old.disk) self.old.dealt page
            ≡ edited page self.old.edits (standing_in self.old.pool (D.past self.old.disk) page) }
        ensures frames { OnOk result (IsTrue (is_known self.old.told (D.past self.old.disk))
            → (lsn page : ℕ) → lsn + 1 ≡ self.new.log.next → IsPut self.old.pool self.old.dealt self.new.pool lsn page) }
        ensures ends { OnOk result (self.new.edits ≡ []) }
        ensures suffices { room_of self.old.edits ≤ self.old.log.spare → IsOk result }
        ensures refused { OnErr result (state_of self.new.pool (D.past self.new.disk) self.new.dealt self.new.edits self.new.told
            ≡ state_of self.old.pool (D.past self.old.disk) self.old.dealt self.old.edits self.old.told) }
        ensures kept { OnErr result (self.new.log ≡ self.old.log) }
    {
        let lsn = self.edits.append(&mut self.log)?;
        place_copies(&mut self.pool, &self.dealt, lsn);
        let_all_go(&mut self.pool, &mut self.dealt);
        self.edits.clear();
        Ok(())
    }

    /// Drops the puts.
    pub fn give_up(&mut self)
        ensures gives_up { GivesUp (state_of self.old.pool (D.past self.old.disk) self.old.dealt self.old.edits self.old.told)
            (state_of self.new.pool (D.past self.new.disk) self.new.dealt self.new.edits self.new.told) }
        ensures log { self.new.log ≡ self.old.log }
        ensures ends { self.new.edits ≡ [] }
    {
        let_all_go(&mut self.pool, &mut self.dealt);
        self.edits.clear();
    }

    /// A step of the flusher. The puts of the mini-transaction under way are not in the pool, so that it brings none of them.
    pub fn flush_step(&mut self) -> Result<Worked, Failed>
        ensures idle { (result ≡ Ok Idle) ↔ IsAtRest self.old.flusher self.old.pool }
        ensures rests { result ≡ Ok Idle → (state_of self.new.pool (D.past self.new.disk) self.new.dealt self.new.edits self.new.told
            ≡ state_of self.old.pool (D.past self.old.disk) self.old.dealt self.old.edits self.old.told) }
        ensures looks { OnOk result (Looks (pages_of self.old.dealt) (state_of self.old.pool (D.past self.old.disk) self.old.dealt self.old.edits self.old.told)
            (state_of self.new.pool (D.past self.new.disk) self.new.dealt self.new.edits self.new.told)) }
        ensures nears { result ≡ Ok Did → IsBelow (to_go self.new.flusher self.new.pool) (to_go self.old.flusher self.old.pool) }
        ensures pages { HasSamePages self.old.pool self.new.pool }
        ensures log { KeepsLog self.old.log self.new.log }
        ensures dealt { self.new.dealt ≡ self.old.dealt }
        ensures records { self.new.edits ≡ self.old.edits }
        ensures cause { HasCause (D.past self.old.disk).faults (D.past self.new.disk).faults result }
        ensures home { (first : ℕ) (groups : List GroupValue) (base : ℕ → List ℕ) → AreNewest groups base self.old.pool
            → Now IsReady (D.past self.old.disk)
            → Now (HoldsRun first groups base self.old.flusher self.old.log) (D.past self.old.disk)
            → Now (AreHome self.old.pool self.new.pool) (D.past self.new.disk) }
        ensures kept { (first : ℕ) (groups : List GroupValue) (base : ℕ → List ℕ) → AreNewest groups base self.old.pool
            → Now IsReady (D.past self.old.disk)
            → Now (HoldsRun first groups base self.old.flusher self.old.log) (D.past self.old.disk)
            → Now (AreKept groups base self.old.pool) (D.past self.old.disk) → Now (AreKept groups base self.new.pool) (D.past self.new.disk) }
        ensures stands { (first : ℕ) (groups : List GroupValue) (base : ℕ → List ℕ) → AreNewest groups base self.old.pool
            → Now IsReady (D.past self.old.disk)
            → Now (HoldsRun first groups base self.old.flusher self.old.log) (D.past self.old.disk)
            → OnOk result (Now (HoldsRun first groups base self.new.flusher self.new.log) (D.past self.new.disk)) }
        ensures crash { (first : ℕ) (groups : List GroupValue) (base : ℕ → List ℕ) → AreNewest groups base self.old.pool
            → Now IsReady (D.past self.old.disk)
            → Now (HoldsRun first groups base self.old.flusher self.old.log) (D.past self.old.disk)
            → Meanwhile (KeepsSince self.old.log.run first self.old.log.flushed groups base) (D.past self.old.disk) (D.past self.new.disk) }
    {
        let worked = self
            .flusher
            .step(&mut self.pool, &mut self.log, &mut self.disk);
        self.told &= worked.is_ok();
        worked
    }
}
