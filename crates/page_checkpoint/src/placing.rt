//! Page 0 alone is staged and placed: its copy is synced first, then it is written in its place and synced.
//! The disk is called four times.

ghost use Rattle.std.specs.Prelude.{◌≡◌, [], OnOk};
ghost use Rattle.store_api.specs.Areas.{State};
ghost use Rattle.store_api.specs.Causes.{HasCause};
ghost use Rattle.store_api.specs.Past.{Now, Meanwhile};
ghost use Rattle.stored_pages.specs.Reading.{IsGoodPage};
ghost use Rattle.doublewrite.specs.Kept.{IsReadyAs, IsStagedHonestly, IsStaged, HasPlaced, KeepsPages};
ghost use Rattle.page_checkpoint.specs.Beginning.{alone};

use doublewrite::{Batch, Staged, stage};
use store_api::{Disk, Failed};
use stored_pages::layout::PAGE;

/// Writes the one page of a batch, whose copy is synced, in its place, and syncs.
fn place_alone<D: Disk>(mut staged: Staged, disk: &mut D) -> Result<(), Failed>
    requires alone { staged.batch.count ≡ 1 }
    requires none { staged.placed ≡ 0 }
    ensures cause { HasCause (D.past disk.old).faults (D.past disk.new).faults result }
    ensures stands { (before : State) → Now (IsStagedHonestly before staged.batch) (D.past disk.old)
        → Now (IsStaged before staged.batch) (D.past disk.new) }
    ensures placed { Now (HasPlaced staged) (D.past disk.old)
        → OnOk result (Now (HasPlaced (record { batch = staged.batch; placed = 1 })) (D.past disk.new)) }
    ensures crash { (before : State) → Now (IsStagedHonestly before staged.batch) (D.past disk.old)
        → Meanwhile (KeepsPages before staged.batch) (D.past disk.old) (D.past disk.new) }
{
    staged.place_next(disk)?;
    Ok(())
}

/// Stages and places page 0. The batch has none yet.
pub fn place_header<D: Disk>(
    mut batch: Batch,
    header: &[u8; PAGE],
    disk: &mut D,
) -> Result<(), Failed>
    requires none { batch ≡ record { count = 0; bytes = [] } }
    requires good { IsGoodPage 0 header.now }
    ensures cause { HasCause (D.past disk.old).faults (D.past disk.new).faults result }
    ensures stands { (before : State) → Now (IsReadyAs before) (D.past disk.old)
        → OnOk result (Now (IsStaged before (alone header.now)) (D.past disk.new)) }
    ensures placed { OnOk result (Now (HasPlaced (record { batch = alone header.now; placed = 1 })) (D.past disk.new)) }
    ensures crash { (before : State) → Now (IsReadyAs before) (D.past disk.old)
        → Meanwhile (KeepsPages before (alone header.now)) (D.past disk.old) (D.past disk.new) }
{
    batch.add_bytes(header);
    match stage(disk, batch) {
        Ok(staged) => place_alone(staged, disk),
        Err((batch, failed)) => {
            drop(batch);
            Err(failed)
        }
    }
}
