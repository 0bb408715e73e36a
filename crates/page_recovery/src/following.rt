//! The log's groups, one after the other: each is applied to the pages as it is read, and let go. No more of the log stands in
//! memory than a piece of it and the group under way. Nothing is written.

ghost use Rattle.std.specs.Prelude.{◌≡◌, ◌≤◌, ℕ, List, [], IfOk, IfErr, OnOk};
ghost use Rattle.store_api.specs.Causes.{HasCause};
ghost use Rattle.store_api.specs.Past.{Now};
ghost use Rattle.log_format.specs.declared.group.Group.{Group as GroupValue};
ghost use Rattle.log_format.specs.Given.{HasGiven};
ghost use Rattle.store_api.specs.Looks.{Looks, LeavesState};
ghost use Rattle.page_recovery.specs.Reading.{IsFollowed, EndsBefore};
ghost use Rattle.page_recovery.specs.Refused.{IsFailed};

use crate::applying::apply_next;
use crate::bad::RecoverBad;
use crate::pages::Pages;
use log_format::{Next, Reader};
use std::alloc::Global;
use store_api::{Disk, Failed};

/// Applies the groups that the reader gives, each as it comes, and answers how many there are, and a page that one of them
/// names and the file can't have. From that one on none is applied.
pub fn apply_all<D: Disk>(
    alloc: Global,
    disk: &mut D,
    reader: &mut Reader,
    pages: &mut Pages,
) -> Result<(usize, Option<u32>), RecoverBad>
    ensures looks { Looks (D.past disk.old) (D.past disk.new) }
    ensures same { OnOk result (LeavesState (D.past disk.old) (D.past disk.new)) }
    ensures run { OnOk result (reader.new.run ≡ reader.old.run) }
    ensures followed { IfOk result (λ found. (first : ℕ) → ((area : List ℕ) → HasGiven first area [] reader.old)
        → Now (λ s. IsFollowed first s.log.seen pages.old pages.new reader.new found.0 found.1) (D.past disk.new)) }
    ensures later { (D.past disk.old).faults ≤ (D.past disk.new).faults }
    ensures failed { IfErr result (IsFailed (D.past disk.old).faults (D.past disk.new).faults) }
{
    let mut count = 0usize;
    let mut past = None;
    for turn in 0..u64::MAX {
        match reader.step(alloc, disk)? {
            Next::Group(group) => {
                past = apply_next(alloc, pages, past, &group)?;
                count += 1;
            }
            Next::More => {}
            Next::End => return Ok((count, past)),
        }
    }
    Err(RecoverBad::NoMemory)
}

/// The block behind the groups of a reader that has given them all, or None where more stands in a block of theirs. It goes
/// back from the last block that was read: behind the groups stands the piece of one that was cut off, and no more than a
/// piece of the log beside.
pub fn block_behind<D: Disk>(disk: &mut D, reader: &Reader) -> Result<Option<u64>, Failed>
    ensures looks { Looks (D.past disk.old) (D.past disk.new) }
    ensures same { OnOk result (LeavesState (D.past disk.old) (D.past disk.new)) }
    ensures behind { IfOk result (λ block. (first : ℕ) (groups : List GroupValue)
        → Now (λ s. HasGiven first s.log.seen groups reader.now → EndsBefore reader.now.run s.log.seen groups block) (D.past disk.new)) }
    ensures cause { HasCause (D.past disk.old).faults (D.past disk.new).faults result }
{
    let mut block = reader.blocks();
    let mut left = reader.left();
    while left > 0 {
        let Some(before) = block.checked_sub(1) else {
            return Ok(None);
        };
        let len = reader.payload_len(disk, before)?;
        if len > left {
            return Ok(None);
        }
        left -= len;
        block = before;
    }
    Ok(Some(block))
}
