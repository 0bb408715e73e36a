//! The log of a run that has just begun: zeros are written over all that stands in the area, and then groups may be appended.
//! The disk is called three times.

ghost use Rattle.std.specs.Prelude.{◌≡◌, ◌+◌, ◌<◌, ℕ, List, length, replicate, [], IfOk, IfErr, OnOk};
ghost use Rattle.store_api.specs.Past.{Now, Meanwhile};
ghost use Rattle.buffer_pool.specs.Frames.{PoolView, bytes_of};
ghost use Rattle.law_logged_pages.specs.Stages.{SameButSum};
ghost use Rattle.page_checkpoint.specs.Beginning.{IsFailure, HasRisen, HoldsAll, HasBegun, LeavesBegun, IsCleared};

use crate::checking::{CheckpointBad, NewRun};
use redo_log::Log;
use std::alloc::Global;
use store_api::{Area, Disk, NoMemory};

/// So many zeros.
fn zeros(alloc: Global, len: usize) -> Result<Vec<u8>, NoMemory>
    ensures { IfOk result (λ bytes. bytes.items ≡ replicate len 0) }
{
    Ok(vec![in alloc; 0; len]?)
}

/// Writes zeros from the log's beginning on, and syncs.
fn write_zeros<D: Disk>(disk: &mut D, zeros: &[u8]) -> Result<(), CheckpointBad>
    requires { zeros.now ≡ replicate (length zeros.now) 0 }
    ensures failure { IfErr result IsFailure }
    ensures risen { IfErr result (HasRisen (D.past disk.old) (D.past disk.new)) }
    ensures cleared { Now (λ s. length s.log.seen ≡ length zeros.now) (D.past disk.old) → OnOk result (Now (λ s. IsCleared s.log) (D.past disk.new)) }
    ensures stays { (capacity run last : ℕ) (base : ℕ → List ℕ) → Now (λ s. length s.log.seen ≡ length zeros.now) (D.past disk.old)
        → Now (HasBegun capacity run last base) (D.past disk.old)
        → Now (HasBegun capacity run last base) (D.past disk.new) }
    ensures crash { (capacity run last : ℕ) (base : ℕ → List ℕ) → Now (λ s. length s.log.seen ≡ length zeros.now) (D.past disk.old)
        → Now (HasBegun capacity run last base) (D.past disk.old)
        → Meanwhile (HasBegun capacity run last base) (D.past disk.old) (D.past disk.new) }
{
    let Ok(()) = disk.write(Area::Log, 0, zeros) else {
        return Err(CheckpointBad::Failed);
    };
    let Ok(()) = disk.sync(Area::Log) else {
        return Err(CheckpointBad::Failed);
    };
    Ok(())
}

/// Writes zeros over all that stands in the log.
fn clear_log<D: Disk>(alloc: Global, disk: &mut D) -> Result<(), CheckpointBad>
    ensures failure { IfErr result IsFailure }
    ensures risen { IfErr result (HasRisen (D.past disk.old) (D.past disk.new)) }
    ensures cleared { OnOk result (Now (λ s. IsCleared s.log) (D.past disk.new)) }
    ensures stays { (capacity run last : ℕ) (base : ℕ → List ℕ) → Now (HasBegun capacity run last base) (D.past disk.old)
        → Now (HasBegun capacity run last base) (D.past disk.new) }
    ensures crash { (capacity run last : ℕ) (base : ℕ → List ℕ) → Now (HasBegun capacity run last base) (D.past disk.old)
        → Meanwhile (HasBegun capacity run last base) (D.past disk.old) (D.past disk.new) }
{
    let Ok(len) = disk.len(Area::Log) else {
        return Err(CheckpointBad::Failed);
    };
    let Ok(bytes) = zeros(alloc, len as usize) else {
        return Err(CheckpointBad::NoMemory);
    };
    write_zeros(disk, &bytes)
}

/// Begins the log of a run that page 0 says and that has no group. Where the disk failed or no memory was found, it may be
/// asked again.
pub fn begin_log<D: Disk>(alloc: Global, next: NewRun, disk: &mut D) -> Result<Log, CheckpointBad>
    requires { 0 < next.first }
    ensures failure { IfErr result IsFailure }
    ensures risen { IfErr result (HasRisen (D.past disk.old) (D.past disk.new)) }
    ensures run { IfOk result (λ log. log.run ≡ next.run) }
    ensures next { IfOk result (λ log. log.next ≡ next.first) }
    ensures flushed { IfOk result (λ log. log.flushed + 1 ≡ next.first) }
    ensures spare { IfOk result (λ log. log.spare ≡ 1048576) }

    // The disk then holds all of the run with this log. It still begins, whatever was answered,
    ensures holds { (capacity last : ℕ) (base : ℕ → List ℕ) (pool : PoolView) → last + 1 ≡ next.first → SameButSum (bytes_of pool 0) (base 0)
        → Now (HasBegun capacity next.run last base) (D.past disk.old)
        → IfOk result (λ log. Now (HoldsAll capacity next.first [] base pool log) (D.past disk.new)) }
    ensures stays { (capacity run last : ℕ) (base : ℕ → List ℕ) → Now (HasBegun capacity run last base) (D.past disk.old)
        → Now (HasBegun capacity run last base) (D.past disk.new) }

    // and so it does at each moment of the call: whatever a crash leaves is this run.
    ensures crash { (capacity run last : ℕ) (base : ℕ → List ℕ) → Now (HasBegun capacity run last base) (D.past disk.old)
        → Meanwhile (LeavesBegun run last base) (D.past disk.old) (D.past disk.new) }
{
    let Ok(log) = Log::packing(alloc, next.run, 0, next.first) else {
        return Err(CheckpointBad::NoMemory);
    };
    match clear_log(alloc, disk) {
        Ok(()) => Ok(log),
        Err(why) => {
            drop(log);
            Err(why)
        }
    }
}
