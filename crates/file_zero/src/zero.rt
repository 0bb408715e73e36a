//! Zeros from a block of the log to its end, and a sync.
//! `mount` alone calls it, before an engine goes on with the log.

ghost use Rattle.std.specs.Prelude.{◌≡◌, ◌≤◌, ◌^◌, ℕ, List, length, replicate, OnOk};
ghost use Rattle.store_api.specs.Areas.{Contents, State, IsImage, seen_image};
ghost use Rattle.store_api.specs.Causes.{HasCause};
ghost use Rattle.store_api.specs.Past.{Now, Meanwhile};
ghost use Rattle.log_format.specs.declared.group.Group.{Group as GroupValue};
ghost use Rattle.law_crashes.specs.Since.{LogRests, IsBegun, IsScanned, StillScans};

use store_api::{Area, Disk, Failed};

/// Writes zeros from this block to the end of the log area, if anything stands there, and syncs it. Who wrote the groups
/// before the block may have been stopped before its own sync.
pub fn zero_rest<D: Disk>(disk: &mut D, block: u64, zeros: &[u8]) -> Result<(), Failed>
    requires place { block ≤ 2 ^ 54 }
    requires zeros { zeros.now ≡ replicate (length zeros.now) 0 }
    ensures begun { OnOk result ((run first : ℕ) (base : List GroupValue) (double pages : Contents) →
        Now (IsScanned run first block base (length zeros.now) double pages) (D.past disk.old) → Now (IsBegun run first block base double pages) (D.past disk.new)) }

    // At each moment of the call a crash leaves a log that scans to the same groups, if nothing was pending in it.
    ensures crash { (run first : ℕ) (base : List GroupValue) (double pages : Contents) →
        Now (IsScanned run first block base (length zeros.now) double pages) (D.past disk.old) →
        Meanwhile (λ s. LogRests (D.past disk.old) → StillScans run first base double pages s) (D.past disk.old) (D.past disk.new) }
    ensures cause { HasCause (D.past disk.old).faults (D.past disk.new).faults result }
{
    if zeros.is_empty() {
        disk.sync(Area::Log)?;
        return Ok(());
    }
    disk.write(Area::Log, 512 * block, zeros)?;
    disk.sync(Area::Log)?;
    Ok(())
}
