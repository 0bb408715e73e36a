//! What a flusher has under way, and one step of it: pages are gathered and staged, or one page is placed.
//! The flusher keeps it between its steps. The disk is called at most four times in a step.

ghost use Rattle.std.specs.Prelude.{◌≡◌, ◌↔◌, ℕ, ◌<◌, ◌≤◌, List, true, false, Some, None, Ok, OnOk, OnErr};
ghost use Rattle.inno_types.specs.Order.{IsBelow};
ghost use Rattle.store_api.specs.Areas.{State, Contents};
ghost use Rattle.store_api.specs.Causes.{HasCause};
ghost use Rattle.store_api.specs.Past.{Now, Meanwhile};
ghost use Rattle.stored_pages.specs.Words.{lsn_of};
ghost use Rattle.log_format.specs.declared.group.Group.{Group as GroupValue};
ghost use Rattle.redo_log.specs.View.{LogView};
ghost use Rattle.redo_log.specs.Logged.{Stands, StandsMeanwhile};
ghost use Rattle.buffer_pool.specs.Frames.{is_dirty};
ghost use Rattle.doublewrite.specs.Batches.{IsBatch, page_at};
ghost use Rattle.doublewrite.specs.Kept.{IsReady, IsReadyAs, IsStagedHonestly, KeepsPages};
ghost use Rattle.doublewrite.specs.Places.{Leads, LeavesPages};
ghost use Rattle.law_logged_pages.specs.Keeping.{Keeps};
ghost use Rattle.flusher.specs.Cleaning.{HasSamePages, Settles, finished, waits, to_go};
ghost use Rattle.flusher.specs.Flushing.{AreNewest, AreNewestIn, HoldsRun, KeepsSince, AreHome, AreInPlace, Places, AreKept, whole_or};
ghost use Rattle.flusher.specs.Working.{IsWork, staged_of, IsAtRest, IsBegun, GoesOn, Advances, AreChanged, KeepsLog};
ghost use Rattle.flusher.specs.declared.work.Worked.TheVariants.{Did, Idle};

use crate::gathering::{gather, newest_lsn};
use crate::settling::settle;
use buffer_pool::Pool;
use doublewrite::{Batch, Staged, stage};
use redo_log::Log;
use store_api::{Disk, Failed};

/// What a step did.
#[derive(Clone, Copy, Debug, PartialEq, Eq)]
pub enum Worked {
    /// It brought some pages nearer to their places.
    Did,
    /// There was nothing to do: no page was changed, and no batch was under way.
    Idle,
}

/// What a flusher has under way.
#[derive(Drop)]
pub enum Work {
    /// Nothing; here is the room for the next batch.
    Free(Batch),
    /// A batch whose copies are synced, with pages left to be placed.
    Placing(Staged),
    /// It changes; no call leaves it so.
    Changing,
}

/// Flushes the log, unless the groups that changed the batch's pages are flushed.
fn flush_for<D: Disk>(batch: &Batch, log: &mut Log, disk: &mut D) -> Result<(), Failed>
    ensures logged { OnOk result ((k : ℕ) → k < batch.now.count → lsn_of (page_at batch.now k) < log.new.next → lsn_of (page_at batch.now k) ≤ log.new.flushed) }
    ensures log { KeepsLog log.old log.new }
    ensures cause { HasCause (D.past disk.old).faults (D.past disk.new).faults result }
    ensures reads { Leads LeavesPages (D.past disk.old) (D.past disk.new) }
    ensures stands { (first : ℕ) (groups : List GroupValue) (double pages : Contents) →
        Now (Stands first groups log.old double pages) (D.past disk.old) → Now (Stands first groups log.new double pages) (D.past disk.new) }
    ensures crash { (first : ℕ) (groups : List GroupValue) (double pages : Contents) →
        Now (Stands first groups log.old double pages) (D.past disk.old) →
        Meanwhile (StandsMeanwhile log.old.run first groups log.old.flushed double pages) (D.past disk.old) (D.past disk.new) }
{
    if log.flushed() < newest_lsn(batch) {
        log.flush(disk)?;
    }
    Ok(())
}

/// Stages a batch, whose log is flushed.
fn copy_all<D: Disk>(batch: Batch, disk: &mut D) -> (Work, Result<Worked, Failed>)
    requires { 0 < batch.count }
    ensures is_work { IsWork result.0 }
    ensures ok { OnOk result.1 ((result.1 ≡ Ok Did) × (staged_of result.0 ≡ Some (record { batch = batch; placed = 0 }))) }
    ensures err { OnErr result.1 (staged_of result.0 ≡ None) }
    ensures is_batch { IsBatch batch }
    ensures cause { HasCause (D.past disk.old).faults (D.past disk.new).faults result.1 }
    ensures reads { Leads LeavesPages (D.past disk.old) (D.past disk.new) }
    ensures stands { (before : State) → Now (IsReadyAs before) (D.past disk.old)
        → OnOk result.1 (Now (IsStagedHonestly before batch) (D.past disk.new)) }
    ensures crash { (before : State) → Now (IsReadyAs before) (D.past disk.old)
        → Meanwhile (KeepsPages before batch) (D.past disk.old) (D.past disk.new) }
{
    match stage(disk, batch) {
        Ok(staged) => (Work::Placing(staged), Ok(Worked::Did)),
        Err((batch, failed)) => (Work::Free(emptied(batch)), Err(failed)),
    }
}

/// Stages a batch, once its log is flushed.
fn begin<D: Disk>(batch: Batch, log: &mut Log, disk: &mut D) -> (Work, Result<Worked, Failed>)
    requires { 0 < batch.count }
    ensures is_work { IsWork result.0 }
    ensures ok { OnOk result.1 ((result.1 ≡ Ok Did) × (staged_of result.0 ≡ Some (record { batch = batch; placed = 0 }))) }
    ensures err { OnErr result.1 (staged_of result.0 ≡ None) }
    ensures is_batch { OnOk result.1 (IsBatch batch) }
    ensures log { KeepsLog log.old log.new }
    ensures cause { HasCause (D.past disk.old).faults (D.past disk.new).faults result.1 }
    ensures reads { Leads LeavesPages (D.past disk.old) (D.past disk.new) }
    ensures stands { (first : ℕ) (groups : List GroupValue) (base : ℕ → List ℕ) → AreNewestIn groups base batch
        → Now IsReady (D.past disk.old)
        → Now (HoldsRun first groups base None log.old) (D.past disk.old)
        → OnOk result.1 (Now (HoldsRun first groups base (staged_of result.0) log.new) (D.past disk.new)) }
    ensures crash { (first : ℕ) (groups : List GroupValue) (base : ℕ → List ℕ) → AreNewestIn groups base batch
        → Now IsReady (D.past disk.old)
        → Now (HoldsRun first groups base None log.old) (D.past disk.old)
        → Meanwhile (KeepsSince log.old.run first log.old.flushed groups base) (D.past disk.old) (D.past disk.new) }
{
    match flush_for(&batch, log, disk) {
        Ok(()) => copy_all(batch, disk),
        Err(failed) => (Work::Free(emptied(batch)), Err(failed)),
    }
}

/// The batch without its pages.
fn emptied(mut batch: Batch) -> Batch
    ensures { result.count ≡ 0 }
{
    batch.clear();
    batch
}

/// Stages the changed pages, if there are any.
fn gather_and_begin<D: Disk>(
    mut batch: Batch,
    pool: &Pool,
    log: &mut Log,
    disk: &mut D,
) -> (Work, Result<Worked, Failed>)
    requires { batch.count ≡ 0 }
    ensures is_work { IsWork result.0 }
    ensures idle { (result.1 ≡ Ok Idle) ↔ ((page : ℕ) → is_dirty pool.now page ≡ false) }
    ensures rests { result.1 ≡ Ok Idle → (staged_of result.0 ≡ None) × (log.new ≡ log.old) × (D.past disk.new ≡ D.past disk.old) }
    ensures did { result.1 ≡ Ok Did → IsBegun pool.now (staged_of result.0) }
    ensures err { OnErr result.1 (staged_of result.0 ≡ None) }
    ensures log { KeepsLog log.old log.new }
    ensures cause { HasCause (D.past disk.old).faults (D.past disk.new).faults result.1 }
    ensures reads { Leads LeavesPages (D.past disk.old) (D.past disk.new) }
    ensures stands { (first : ℕ) (groups : List GroupValue) (base : ℕ → List ℕ) → AreNewest groups base pool.now
        → Now IsReady (D.past disk.old)
        → Now (HoldsRun first groups base None log.old) (D.past disk.old)
        → OnOk result.1 (Now (HoldsRun first groups base (staged_of result.0) log.new) (D.past disk.new)) }
    ensures crash { (first : ℕ) (groups : List GroupValue) (base : ℕ → List ℕ) → AreNewest groups base pool.now
        → Now IsReady (D.past disk.old)
        → Now (HoldsRun first groups base None log.old) (D.past disk.old)
        → Meanwhile (KeepsSince log.old.run first log.old.flushed groups base) (D.past disk.old) (D.past disk.new) }
{
    gather(pool, &mut batch);
    if batch.len() == 0 {
        return (Work::Free(batch), Ok(Worked::Idle));
    }
    begin(batch, log, disk)
}

/// Places one page more. After the last one the pool is told.
fn go_on<D: Disk>(
    mut staged: Staged,
    pool: &mut Pool,
    disk: &mut D,
) -> (Work, Result<Worked, Failed>)
    requires { staged.placed < staged.batch.count }
    ensures is_work { IsWork result.0 }
    ensures ok { OnOk result.1 ((result.1 ≡ Ok Did) × GoesOn staged (staged_of result.0)) }
    ensures err { OnErr result.1 (staged_of result.0 ≡ Some (record { batch = staged.batch; placed = 0 })) }
    ensures pool { Settles (finished (Some staged) (staged_of result.0)) pool.old pool.new }
    ensures cause { HasCause (D.past disk.old).faults (D.past disk.new).faults result.1 }
    ensures reads { OnOk result.1 (Leads (Places (Some staged)) (D.past disk.old) (D.past disk.new)) }
    ensures in_place { Now (AreInPlace (Some staged)) (D.past disk.old)
        → Now (AreInPlace (whole_or (Some staged) (staged_of result.0))) (D.past disk.new) }
    ensures home { (first : ℕ) (groups : List GroupValue) (base : ℕ → List ℕ) (log : LogView) → AreNewest groups base pool.old
        → Now IsReady (D.past disk.old)
        → Now (HoldsRun first groups base (Some staged) log) (D.past disk.old) → Now (AreHome pool.old pool.new) (D.past disk.new) }
    ensures kept { (first : ℕ) (groups : List GroupValue) (base : ℕ → List ℕ) (log : LogView) → AreNewest groups base pool.old
        → Now IsReady (D.past disk.old) → AreChanged (Some staged) pool.old
        → Now (HoldsRun first groups base (Some staged) log) (D.past disk.old)
        → Now (AreKept groups base pool.old) (D.past disk.old) → Now (AreKept groups base pool.new) (D.past disk.new) }
    ensures stands { (first : ℕ) (groups : List GroupValue) (base : ℕ → List ℕ) (log : LogView) → Now IsReady (D.past disk.old)
        → Now (HoldsRun first groups base (Some staged) log) (D.past disk.old)
        → Now (HoldsRun first groups base (staged_of result.0) log) (D.past disk.new) }
    ensures crash { (first : ℕ) (groups : List GroupValue) (base : ℕ → List ℕ) (log : LogView) → Now IsReady (D.past disk.old)
        → Now (HoldsRun first groups base (Some staged) log) (D.past disk.old)
        → Meanwhile (Keeps log.run first log.flushed groups base) (D.past disk.old) (D.past disk.new) }
{
    match staged.place_next(disk) {
        Ok(true) => (Work::Placing(staged), Ok(Worked::Did)),
        Ok(false) => {
            let batch = staged.done();
            settle(pool, &batch);
            (Work::Free(emptied(batch)), Ok(Worked::Did))
        }
        Err(failed) => (Work::Placing(staged), Err(failed)),
    }
}

/// One step.
pub fn step_of<D: Disk>(
    work: Work,
    pool: &mut Pool,
    log: &mut Log,
    disk: &mut D,
) -> (Work, Result<Worked, Failed>)
    requires { IsWork work }
    ensures is_work { IsWork result.0 }
    ensures idle { (result.1 ≡ Ok Idle) ↔ IsAtRest (staged_of work) pool.old }
    ensures rests { result.1 ≡ Ok Idle → (staged_of result.0 ≡ staged_of work) × (log.new ≡ log.old) × (D.past disk.new ≡ D.past disk.old) }
    ensures nears { result.1 ≡ Ok Did → IsBelow (to_go (staged_of result.0) pool.new) (to_go (staged_of work) pool.old) }
    ensures advances { result.1 ≡ Ok Did → Advances pool.old (staged_of work) (staged_of result.0) }
    ensures pages { HasSamePages pool.old pool.new }
    ensures under_way { AreChanged (staged_of work) pool.old → AreChanged (staged_of result.0) pool.new }
    ensures settles { Settles (finished (staged_of work) (staged_of result.0)) pool.old pool.new }
    ensures changed_again { (page : ℕ) → waits (staged_of work) pool.old page ≡ true → is_dirty pool.new page ≡ true }
    ensures log { KeepsLog log.old log.new }
    ensures cause { HasCause (D.past disk.old).faults (D.past disk.new).faults result.1 }
    ensures reads { OnOk result.1 (Leads (Places (staged_of work)) (D.past disk.old) (D.past disk.new)) }
    ensures in_place { Now (AreInPlace (staged_of work)) (D.past disk.old)
        → Now (AreInPlace (whole_or (staged_of work) (staged_of result.0))) (D.past disk.new) }
    ensures home { (first : ℕ) (groups : List GroupValue) (base : ℕ → List ℕ) → AreNewest groups base pool.old
        → Now IsReady (D.past disk.old)
        → Now (HoldsRun first groups base (staged_of work) log.old) (D.past disk.old) → Now (AreHome pool.old pool.new) (D.past disk.new) }
    ensures kept { (first : ℕ) (groups : List GroupValue) (base : ℕ → List ℕ) → AreNewest groups base pool.old
        → Now IsReady (D.past disk.old) → AreChanged (staged_of work) pool.old
        → Now (HoldsRun first groups base (staged_of work) log.old) (D.past disk.old)
        → Now (AreKept groups base pool.old) (D.past disk.old) → Now (AreKept groups base pool.new) (D.past disk.new) }
    ensures stands { (first : ℕ) (groups : List GroupValue) (base : ℕ → List ℕ) → AreNewest groups base pool.old
        → Now IsReady (D.past disk.old)
        → Now (HoldsRun first groups base (staged_of work) log.old) (D.past disk.old)
        → OnOk result.1 (Now (HoldsRun first groups base (staged_of result.0) log.new) (D.past disk.new)) }
    ensures crash { (first : ℕ) (groups : List GroupValue) (base : ℕ → List ℕ) → AreNewest groups base pool.old
        → Now IsReady (D.past disk.old)
        → Now (HoldsRun first groups base (staged_of work) log.old) (D.past disk.old)
        → Meanwhile (KeepsSince log.old.run first log.old.flushed groups base) (D.past disk.old) (D.past disk.new) }
{
    match work {
        Work::Free(batch) => gather_and_begin(batch, pool, log, disk),
        Work::Placing(staged) => go_on(staged, pool, disk),
        Work::Changing => unreachable!(),
    }
}
