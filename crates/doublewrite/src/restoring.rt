//! Puts torn pages right from their copies, and forgets the copies.
//! It runs before anything else reads pages, with nothing pending on the disk.

ghost use Rattle.std.specs.Prelude.{◌≡◌, ◌+◌, ◌*◌, ◌<◌, ◌≤◌, List, ℕ, length, vec_len, take, is_ok, OnOk, IfOk, IfErr, MatchBool};
ghost use Rattle.store_api.specs.Areas.{State, Within, Looked, piece};
ghost use Rattle.store_api.specs.Causes.{HasCause};
ghost use Rattle.store_api.specs.Past.{Now, Goes, Meanwhile};
ghost use Rattle.store_api.specs.declared.disk.Area.TheVariants.{Double, Pages};
ghost use Rattle.doublewrite.specs.declared.restoring.RepairBad.TheVariants.{Failed as DiskFailed, NoMemory};
ghost use Rattle.stored_pages.specs.Reading.{IsGoodPage, place_of};
ghost use Rattle.doublewrite.specs.Repairing.{IsQuietAs, ReadsAs, IsRestoringFrom, IsClearingFrom, IsRepaired, FailedRose};

use std::alloc::{AllocError, Global};
use store_api::{Area, Disk, Failed};
use stored_pages::layout::{DOUBLE, PAGE, SLOTS};
use stored_pages::{copy_at, good_number, newest_slot, number_of_copy, restorable};

/// Why a repair gave up. It may be made again.
#[derive(Clone, Copy)]
pub enum RepairBad {
    Failed,
    NoMemory,
}

impl From<Failed> for RepairBad {
    ghost from_gives = { λ _ e. e ≡ DiskFailed };

    fn from(_: Failed) -> RepairBad {
        RepairBad::Failed
    }
}

impl From<AllocError> for RepairBad {
    ghost from_gives = { λ _ e. e ≡ NoMemory };

    fn from(_: AllocError) -> RepairBad {
        RepairBad::NoMemory
    }
}

/// Whether a read gives a good page in its place.
fn is_in_place<D: Disk>(disk: &mut D, number: u32) -> Result<bool, Failed>
    ensures goes { Goes (Within Pages (Looked (is_ok result))) (D.past disk.old) (D.past disk.new) }
    ensures good { IfOk result (λ good. Now (λ s. MatchBool good (IsGoodPage number (place_of number s.pages.seen)) (IsGoodPage number (place_of number s.pages.seen) → ⊥)) (D.past disk.old)) }
    ensures cause { HasCause (D.past disk.old).faults (D.past disk.new).faults result }
{
    let mut page = [0; PAGE];
    let len = disk.read(Area::Pages, PAGE as u64 * u64::from(number), &mut page)?;
    if len < PAGE {
        return Ok(false);
    }
    match good_number(&page) {
        Some(found) => Ok(found == number),
        None => Ok(false),
    }
}

/// Writes a page in place from its newest copy, unless it is good there.
fn restore<D: Disk>(disk: &mut D, double: &[u8], number: u32, slot: usize) -> Result<(), Failed>
    requires slot { slot < SLOTS }
    requires good { IsGoodPage number (piece PAGE slot double.now) }
    ensures cause { HasCause (D.past disk.old).faults (D.past disk.new).faults result }
    ensures stands { (before : State) → Now (IsRestoringFrom before double.now slot) (D.past disk.old) → OnOk result (Now (IsRestoringFrom before double.now (slot + 1)) (D.past disk.new)) }
    ensures crash { (before : State) → Now (IsRestoringFrom before double.now slot) (D.past disk.old) → Meanwhile (ReadsAs before) (D.past disk.old) (D.past disk.new) }
{
    if is_in_place(disk, number)? {
        return Ok(());
    }
    let newest = copy_at(double, newest_slot(double, number, slot));
    disk.write(Area::Pages, PAGE as u64 * u64::from(number), newest)?;
    Ok(())
}

fn restore_copy<D: Disk>(disk: &mut D, double: &[u8], slot: usize) -> Result<(), Failed>
    requires { slot < SLOTS }
    ensures cause { HasCause (D.past disk.old).faults (D.past disk.new).faults result }
    ensures stands { (before : State) → Now (IsRestoringFrom before double.now slot) (D.past disk.old) → OnOk result (Now (IsRestoringFrom before double.now (slot + 1)) (D.past disk.new)) }
    ensures crash { (before : State) → Now (IsRestoringFrom before double.now slot) (D.past disk.old) → Meanwhile (ReadsAs before) (D.past disk.old) (D.past disk.new) }
{
    match restorable(double, slot) {
        Some(number) => restore(disk, double, number, slot),
        None => Ok(()),
    }
}

/// Puts right each page that has a copy, and syncs.
fn restore_all<D: Disk>(disk: &mut D, double: &[u8]) -> Result<(), Failed>
    ensures cause { HasCause (D.past disk.old).faults (D.past disk.new).faults result }
    ensures stands { (before : State) → Now (IsRestoringFrom before double.now 0) (D.past disk.old) → OnOk result (Now (IsClearingFrom before double.now 0) (D.past disk.new)) }
    ensures crash { (before : State) → Now (IsRestoringFrom before double.now 0) (D.past disk.old) → Meanwhile (ReadsAs before) (D.past disk.old) (D.past disk.new) }
{
    for slot in 0..SLOTS {
        restore_copy(disk, double, slot)?;
    }
    disk.sync(Area::Pages)?;
    Ok(())
}

fn clear_copy<D: Disk>(disk: &mut D, double: &[u8], slot: usize) -> Result<(), Failed>
    requires { slot < SLOTS }
    ensures cause { HasCause (D.past disk.old).faults (D.past disk.new).faults result }
    ensures stands { (before : State) → Now (IsClearingFrom before double.now slot) (D.past disk.old) → OnOk result (Now (IsClearingFrom before double.now (slot + 1)) (D.past disk.new)) }
    ensures crash { (before : State) → Now (IsClearingFrom before double.now slot) (D.past disk.old) → Meanwhile (ReadsAs before) (D.past disk.old) (D.past disk.new) }
{
    match number_of_copy(double, slot) {
        Some(_) => {
            disk.write(Area::Double, PAGE as u64 * slot as u64, &[0; PAGE])?;
            Ok(())
        }
        None => Ok(()),
    }
}

/// Writes zeros over each good copy, and syncs.
fn clear_all<D: Disk>(disk: &mut D, double: &[u8]) -> Result<(), Failed>
    ensures cause { HasCause (D.past disk.old).faults (D.past disk.new).faults result }
    ensures stands { (before : State) → Now (IsClearingFrom before double.now 0) (D.past disk.old) → OnOk result (Now IsRepaired (D.past disk.new)) }
    ensures crash { (before : State) → Now (IsClearingFrom before double.now 0) (D.past disk.old) → Meanwhile (ReadsAs before) (D.past disk.old) (D.past disk.new) }
{
    for slot in 0..SLOTS {
        clear_copy(disk, double, slot)?;
    }
    disk.sync(Area::Double)?;
    Ok(())
}

/// Reads all copies into a vector of their size, and answers how many bytes there are.
fn read_copies<D: Disk>(disk: &mut D, into: &mut Vec<u8>) -> Result<usize, Failed>
    requires { vec_len into.old ≡ DOUBLE }
    ensures count { IfOk result (λ n. n ≤ length into.new.items) }
    ensures bytes { IfOk result (λ n. Now (λ s. take n into.new.items ≡ take DOUBLE s.double.seen) (D.past disk.old)) }
    ensures goes { Goes (Within Double (Looked (is_ok result))) (D.past disk.old) (D.past disk.new) }
    ensures cause { HasCause (D.past disk.old).faults (D.past disk.new).faults result }
{
    let len = disk.read(Area::Double, 0, into)?;
    Ok(len)
}

/// Puts right with the copies what was read of them.
fn repair_from<D: Disk>(disk: &mut D, double: &[u8]) -> Result<(), Failed>
    ensures cause { HasCause (D.past disk.old).faults (D.past disk.new).faults result }
    ensures repaired { (before : State) → Now (IsRestoringFrom before double.now 0) (D.past disk.old) → OnOk result (Now IsRepaired (D.past disk.new)) }
    ensures crash { (before : State) → Now (IsRestoringFrom before double.now 0) (D.past disk.old) → Meanwhile (ReadsAs before) (D.past disk.old) (D.past disk.new) }
{
    restore_all(disk, double)?;
    clear_all(disk, double)
}

/// Writes each page that isn't good in its place there from its newest good copy, and then zeros over all good copies.
/// A repair that was stopped may be made again.
pub fn repair<D: Disk>(alloc: Global, disk: &mut D) -> Result<(), RepairBad>
    ensures later { (D.past disk.old).faults ≤ (D.past disk.new).faults }
    ensures failed { IfErr result (FailedRose (D.past disk.old).faults (D.past disk.new).faults) }

    // No good copy is left, and nothing is pending.
    ensures repaired { (before : State) → Now (IsQuietAs before) (D.past disk.old) → OnOk result (Now IsRepaired (D.past disk.new)) }

    // At each moment of the call a crash leaves each page as it was read before.
    ensures crash { (before : State) → Now (IsQuietAs before) (D.past disk.old) → Meanwhile (ReadsAs before) (D.past disk.old) (D.past disk.new) }
{
    let mut copies = vec![in alloc; 0; DOUBLE]?;
    let len = read_copies(disk, &mut copies)?;
    repair_from(disk, &copies[..len])?;
    Ok(())
}
