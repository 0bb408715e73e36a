//! Recovery of files that keep rows in pages, as a whole: torn pages first, then the log.
//! Nothing else may read or write the files meanwhile.

ghost use Rattle.std.specs.Prelude.{◌≡◌, ◌≤◌, ℕ, List, length, IfOk, IfErr, OnOk};
ghost use Rattle.store_api.specs.Areas.{State, seen_image};
ghost use Rattle.store_api.specs.Past.{Now, Meanwhile};
ghost use Rattle.log_format.specs.declared.group.Group.{Group as GroupValue};
ghost use Rattle.doublewrite.specs.Repairing.{IsRepaired, WasRead};
ghost use Rattle.page_recovery.specs.Looking.{Since};
ghost use Rattle.store_api.specs.Looks.{Looks, LeavesState};
ghost use Rattle.page_recovery.specs.Reading.{StandsIn};
ghost use Rattle.page_recovery.specs.Leaving.{Is, IsStill, StillReads, IsFileRun, LeavesRun, LeavesSame};
ghost use Rattle.page_recovery.specs.Recovering.{IsRead, IsRecovered, IsCause, IsFault, HasAll};

use crate::bad::{RecoverBad, from_repair};
use crate::following::{apply_all, block_behind};
use crate::header::Header;
use crate::pages::Pages;
use crate::reading::{read_header, read_pages};
use doublewrite::repair;
use log_format::Reader;
use std::alloc::Global;
use store_api::Disk;

/// What was recovered.
#[derive(Drop)]
pub struct Recovered {
    /// The run of the log, and the LSN of its first group.
    pub run: u64,
    pub first: u64,
    /// How many whole groups it has, and the LSN of the next one.
    pub count: usize,
    pub next: u64,
    /// The block behind them, or None where more stands in a block of theirs.
    pub block: Option<u64>,
    /// The pages after all of these groups.
    pub pages: Pages,
}

/// Brings the pages that were read on by all groups of the log.
fn bring_on<D: Disk>(
    alloc: Global,
    disk: &mut D,
    header: Header,
    mut pages: Pages,
) -> Result<Recovered, RecoverBad>
    requires capacity { length pages ≡ header.capacity }
    ensures looks { Looks (D.past disk.old) (D.past disk.new) }
    ensures same { OnOk result (LeavesState (D.past disk.old) (D.past disk.new)) }
    ensures read { IfOk result (λ r. Now (λ s. IsRead s.pages.seen header pages → IsRecovered (StandsIn s.pages.seen) s.log.seen r) (D.past disk.new)) }
    ensures refused { IfErr result (λ why. Since (λ s. IsRead s.pages.seen header pages → IsCause (StandsIn s.pages.seen) s.log.seen why)
        (D.past disk.old) (D.past disk.new)) }
    ensures later { (D.past disk.old).faults ≤ (D.past disk.new).faults }
    ensures failed { IfErr result (IsFault (D.past disk.old).faults (D.past disk.new).faults) }
{
    let mut reader = Reader::new(alloc, header.run, header.first)?;
    let (count, past) = apply_all(alloc, disk, &mut reader, &mut pages)?;
    if let Some(page) = past {
        return Err(RecoverBad::PastTheEnd { page });
    }
    let block = block_behind(disk, &reader)?;
    Ok(Recovered {
        run: header.run,
        first: header.first,
        count,
        next: reader.next_lsn(),
        block,
        pages,
    })
}

/// Reads page 0, all pages and the log, and brings the pages on.
fn read_on<D: Disk>(alloc: Global, disk: &mut D) -> Result<Recovered, RecoverBad>
    ensures looks { Looks (D.past disk.old) (D.past disk.new) }
    ensures same { OnOk result (LeavesState (D.past disk.old) (D.past disk.new)) }
    ensures read { IfOk result (λ r. Since (λ s. IsRecovered (StandsIn s.pages.seen) s.log.seen r) (D.past disk.old) (D.past disk.new)) }
    ensures refused { IfErr result (λ why. Since (λ s. IsCause (StandsIn s.pages.seen) s.log.seen why) (D.past disk.old) (D.past disk.new)) }
    ensures later { (D.past disk.old).faults ≤ (D.past disk.new).faults }
    ensures failed { IfErr result (IsFault (D.past disk.old).faults (D.past disk.new).faults) }
{
    let header = read_header(disk)?;
    let pages = read_pages(alloc, disk, header.capacity)?;
    bring_on(alloc, disk, header, pages)
}

/// Puts torn pages right from their copies, and gives the pages after all whole groups of the log, the count of these groups
/// and the next LSN. The log is read in pieces. Pages in memory alone are changed by groups; of the files nothing is written but torn pages, and
/// zeros over their copies. A recovery that was stopped may be made again.
pub fn recover<D: Disk>(alloc: Global, disk: &mut D) -> Result<Recovered, RecoverBad>
    ensures later { (D.past disk.old).faults ≤ (D.past disk.new).faults }
    ensures failed { IfErr result (IsFault (D.past disk.old).faults (D.past disk.new).faults) }

    // Whatever stood in the files, the pages are as they were read from their places or copies, and brought on by all
    // groups that the log has of the run that page 0 says; or it is told what is wrong with them.
    ensures read { (before : State) → IsStill before → Now (Is before) (D.past disk.old)
        → IfOk result (λ r. Now (λ _. IsRecovered (WasRead before) before.log.seen r) (D.past disk.new)) }
    ensures refused { (before : State) → IsStill before → Now (Is before) (D.past disk.old)
        → IfErr result (λ why. Now (λ _. IsCause (WasRead before) before.log.seen why) (D.past disk.new)) }

    // No copy is left, and nothing is pending in pages and copies.
    ensures repaired { (before : State) → IsStill before → Now (Is before) (D.past disk.old)
        → OnOk result (Now (λ s. IsRepaired s × StillReads before s) (D.past disk.new)) }

    // Where a crash has left a run, these are the pages after some of its groups, with all that were flushed.
    ensures done { (capacity run first flushed : ℕ) (groups : List GroupValue) (base : ℕ → List ℕ) (before : State)
        → IsFileRun capacity run first groups base → LeavesRun run first flushed groups base (seen_image before)
        → IsStill before → Now (Is before) (D.past disk.old)
        → IfOk result (λ r. Now (λ _. HasAll capacity run first flushed groups base r) (D.past disk.new)) }

    // At each moment of the call a crash leaves each page as it was read before, and the log; so it leaves the same run.
    ensures crash { (before : State) → IsStill before → Now (Is before) (D.past disk.old)
        → Meanwhile (StillReads before) (D.past disk.old) (D.past disk.new) }
    ensures same { (run first flushed : ℕ) (groups : List GroupValue) (base : ℕ → List ℕ) (before : State)
        → LeavesRun run first flushed groups base (seen_image before) → IsStill before → Now (Is before) (D.past disk.old)
        → Meanwhile (LeavesSame run first flushed groups base before) (D.past disk.old) (D.past disk.new) }
{
    match repair(alloc, disk) {
        Ok(()) => read_on(alloc, disk),
        Err(bad) => Err(from_repair(bad)),
    }
}
