//! The checkpoint as a whole.
//! It writes page 0 alone, and of the pool it changes page 0 alone.

ghost use Rattle.std.specs.Prelude.{◌≡◌, ◌+◌, ◌<◌, ℕ, List, length, IsTrue, IfOk, IfErr, OnOk, OnErr};
ghost use Rattle.store_api.specs.Areas.{State};
ghost use Rattle.store_api.specs.Past.{Now, Meanwhile};
ghost use Rattle.log_format.specs.declared.group.Group.{Group as GroupValue};
ghost use Rattle.buffer_pool.specs.Frames.{is_pooled, bytes_of, fixes_of};
ghost use Rattle.stored_pages.specs.Reading.{IsGoodPage};
ghost use Rattle.doublewrite.specs.Kept.{IsReady, IsReadyAs, IsStaged, HasPlaced, KeepsPages};
ghost use Rattle.law_logged_pages.specs.Stages.{AreBytes};
ghost use Rattle.page_checkpoint.specs.Checkpoints.{begun};
ghost use Rattle.page_checkpoint.specs.Header.{IsNextHeader};
ghost use Rattle.page_checkpoint.specs.Beginning.{IsNextRun, IsCause, IsFault, IsFailure, HasHeader, HoldsAll, HasBegun, LeavesOne, alone};

use crate::checking::{CheckpointBad, NewRun, next_run};
use crate::header::next_header;
use crate::placing::place_header;
use crate::{
    a_checkpoint_begins_a_run, a_crash_leaves_one_of_both_runs, a_placed_checkpoint_stays,
};
use buffer_pool::Pool;
use doublewrite::Batch;
use redo_log::{Log, stands_for_what_is_left};
use std::alloc::Global;
use store_api::{Disk, Failed, NoMemory};
use stored_pages::layout::PAGE;

/// Page 0 of the pool as it says the run.
fn header_of(pool: &Pool, next: NewRun) -> [u8; PAGE]
    requires pooled { IsTrue (is_pooled pool.now 0) }
    requires some { 0 < next.first }
    ensures good { IsGoodPage 0 result }
    ensures front { AreBytes 8 result }
    ensures header { (lsn : ℕ) → lsn + 1 ≡ next.first → IsNextHeader lsn next.run next.first (bytes_of pool.now 0) result }
{
    let mut page = [0; PAGE];
    page.copy_from_slice(pool.bytes(0));
    next_header(&page, next.first - 1, next.run, next.first)
}

/// Writes page 0.
fn write_header<D: Disk>(
    alloc: Global,
    header: &[u8; PAGE],
    disk: &mut D,
) -> Result<(), CheckpointBad>
    requires { IsGoodPage 0 header.now }
    ensures failed { IfErr result (IsFault (D.past disk.old) (D.past disk.new)) }
    ensures failure { IfErr result IsFailure }
    ensures stands { (before : State) → Now (IsReadyAs before) (D.past disk.old)
        → OnOk result (Now (IsStaged before (alone header.now)) (D.past disk.new)) }
    ensures placed { OnOk result (Now (HasPlaced (record { batch = alone header.now; placed = 1 })) (D.past disk.new)) }
    ensures crash { (before : State) → Now (IsReadyAs before) (D.past disk.old)
        → Meanwhile (KeepsPages before (alone header.now)) (D.past disk.old) (D.past disk.new) }
{
    let Ok(batch) = Batch::new(alloc) else {
        return Err(CheckpointBad::NoMemory);
    };
    match place_header(batch, header, disk) {
        Ok(()) => Ok(()),
        Err(Failed) => Err(CheckpointBad::Failed),
    }
}

/// Ends the run where nothing is left to be flushed: page 0 is brought to its place with the next run, and the log begins
/// anew with the answered numbers. After the disk failed, what was written isn't known: the files are to be opened again.
pub fn checkpoint<D: Disk>(
    alloc: Global,
    pool: &mut Pool,
    log: &Log,
    disk: &mut D,
) -> Result<NewRun, CheckpointBad>
    requires pooled { IsTrue (is_pooled pool.old 0) }
    requires fixed { 0 < fixes_of pool.old 0 }
    ensures ok { IfOk result (IsNextRun pool.old log.now) }

    // Where none is made, there is a cause. The pool is as it was, and the disk too unless it has counted a fault.
    ensures bad { IfErr result (IsCause pool.old log.now) }
    ensures same { OnErr result (pool.new ≡ pool.old) }
    ensures failed { IfErr result (IsFault (D.past disk.old) (D.past disk.new)) }

    // Of the pool page 0 alone has changed. It is clean, and says the new run.
    ensures pool { OnOk result (HasHeader pool.old pool.new) }
    ensures header { IfOk result (λ next. IsNextHeader log.now.next next.run next.first (bytes_of pool.old 0) (bytes_of pool.new 0)) }

    // The disk holds the new run without groups, and with the pages that all groups have left.
    ensures done { (capacity first : ℕ) (groups : List GroupValue) (base : ℕ → List ℕ) → Now IsReady (D.past disk.old)
        → Now (HoldsAll capacity first groups base pool.old log.now) (D.past disk.old)
        → IfOk result (λ next. Now (HasBegun capacity next.run log.now.next (begun (bytes_of pool.new 0) base groups)) (D.past disk.new)) }

    // At each moment of the call a crash leaves the old run with all its groups, or the new one.
    ensures crash { (capacity first : ℕ) (groups : List GroupValue) (base : ℕ → List ℕ) → Now IsReady (D.past disk.old)
        → Now (HoldsAll capacity first groups base pool.old log.now) (D.past disk.old)
        → Meanwhile (LeavesOne log.now.run first log.now.flushed groups base (bytes_of pool.old 0)) (D.past disk.old) (D.past disk.new) }
{
    a_checkpoint_begins_a_run();
    a_crash_leaves_one_of_both_runs();
    a_placed_checkpoint_stays();
    stands_for_what_is_left();
    let next = next_run(pool, log)?;
    let header = header_of(pool, next);
    write_header(alloc, &header, disk)?;
    pool.change(0, &header);
    pool.placed(0, next.first - 1);
    Ok(next)
}
