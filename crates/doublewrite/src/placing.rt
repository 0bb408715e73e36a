//! A batch on its way to its places: first the copies, and once they are synced each page in place.
//! No other code writes pages in place but the repair.

ghost use Rattle.std.specs.Prelude.{◌≡◌, ◌↔◌, ◌+◌, ◌*◌, ◌<◌, ◌≤◌, ℕ, length, IsTrue, OnOk, OnErr, IfOk, IfErr};
ghost use Rattle.store_api.specs.Areas.{State};
ghost use Rattle.store_api.specs.Causes.{HasCause};
ghost use Rattle.store_api.specs.Past.{Now, Meanwhile};
ghost use Rattle.stored_pages.specs.declared.layout.TheConstants.{SLOTS};
ghost use Rattle.doublewrite.specs.Batches.{BatchView, StagedView, IsBatch, page_at, number_at};
ghost use Rattle.doublewrite.specs.Kept.{IsReadyAs, IsStaged, IsStagedHonestly, KeepsPages, HasPlaced};
ghost use Rattle.doublewrite.specs.Places.{Leads, LeavesPages, PutsPage};

use crate::batch::Batch;
use std::marker::Model;
use store_api::{Area, Disk, Failed};
use stored_pages::layout::PAGE;
use stored_pages::number_in;

/// A batch whose copies are synced, and how many of its pages are in place.
#[derive(Drop)]
pub struct Staged {
    batch: Batch,
    placed: usize,
}

impl Model for Staged {
    ghost use Rattle.std.specs.Prelude.{◌≤◌};
    ghost use Rattle.doublewrite.specs.Batches.{StagedView};

    ghost Value = { StagedView };

    ghost invariant = { λ s. s.placed ≤ s.batch.count };

    ghost view = { λ s. record { batch = s.batch; placed = s.placed } };
}

/// Writes the copies of all pages in one write, and syncs.
fn copy_all<D: Disk>(disk: &mut D, batch: &Batch) -> Result<(), Failed>
    ensures is_batch { IsBatch batch.now }
    ensures cause { HasCause (D.past disk.old).faults (D.past disk.new).faults result }
    ensures reads { Leads LeavesPages (D.past disk.old) (D.past disk.new) }
    ensures stands { (before : State) → Now (IsReadyAs before) (D.past disk.old) → OnOk result (Now (IsStagedHonestly before batch.now) (D.past disk.new)) }
    ensures crash { (before : State) → Now (IsReadyAs before) (D.past disk.old) → Meanwhile (KeepsPages before batch.now) (D.past disk.old) (D.past disk.new) }
{
    disk.write(Area::Double, 0, batch.as_bytes())?;
    disk.sync(Area::Double)?;
    Ok(())
}

/// Writes one page in place, and syncs after the last one. It answers whether pages are left.
fn place_page<D: Disk>(disk: &mut D, batch: &Batch, slot: usize) -> Result<bool, Failed>
    requires { slot < batch.now.count }
    ensures few { slot < SLOTS }
    ensures is_batch { IsBatch batch.now }
    ensures more { IfOk result (λ more. IsTrue more ↔ (slot + 1 < batch.now.count)) }
    ensures cause { HasCause (D.past disk.old).faults (D.past disk.new).faults result }
    ensures reads { OnOk result (Leads (PutsPage (number_at batch.now slot) (page_at batch.now slot)) (D.past disk.old) (D.past disk.new)) }
    ensures stands { (before : State) → Now (IsStagedHonestly before batch.now) (D.past disk.old) → Now (IsStaged before batch.now) (D.past disk.new) }
    ensures honest { (before : State) → Now (IsStagedHonestly before batch.now) (D.past disk.old) → IfOk result (λ more. IsTrue more → Now (IsStagedHonestly before batch.now) (D.past disk.new)) }
    ensures placed { Now (HasPlaced (record { batch = batch.now; placed = slot })) (D.past disk.old) → OnOk result (Now (HasPlaced (record { batch = batch.now; placed = slot + 1 })) (D.past disk.new)) }
    ensures crash { (before : State) → Now (IsStagedHonestly before batch.now) (D.past disk.old) → Meanwhile (KeepsPages before batch.now) (D.past disk.old) (D.past disk.new) }
{
    let page = batch.page(slot);
    disk.write(Area::Pages, PAGE as u64 * u64::from(number_in(page)), page)?;
    if slot + 1 < batch.len() {
        return Ok(true);
    }
    disk.sync(Area::Pages)?;
    Ok(false)
}

/// Writes a copy of each page into the area Double, in one write, and syncs. From then on a page that is torn while it
/// is written in place can be told from its copy.
pub fn stage<D: Disk>(disk: &mut D, batch: Batch) -> Result<Staged, (Batch, Failed)>
    requires { 0 < batch.count }
    ensures ok { IfOk result (λ staged. staged ≡ record { batch = batch; placed = 0 }) }
    ensures err { IfErr result (λ back. back.0 ≡ batch) }
    ensures is_batch { IsBatch batch }
    ensures cause { HasCause (D.past disk.old).faults (D.past disk.new).faults result }

    // The pages stand as before, whatever was answered.
    ensures reads { Leads LeavesPages (D.past disk.old) (D.past disk.new) }

    // The batch may be placed from then on,
    ensures stands { (before : State) → Now (IsReadyAs before) (D.past disk.old) → OnOk result (Now (IsStagedHonestly before batch) (D.past disk.new)) }

    // and at each moment of the call a crash leaves each page that was ready with its old content or with that of the batch.
    ensures crash { (before : State) → Now (IsReadyAs before) (D.past disk.old) → Meanwhile (KeepsPages before batch) (D.past disk.old) (D.past disk.new) }
{
    match copy_all(disk, &batch) {
        Ok(()) => Ok(Staged { batch, placed: 0 }),
        Err(failed) => Err((batch, failed)),
    }
}

impl Staged {
    /// How many pages are left to be placed.
    pub fn left(&self) -> usize
        ensures { self.now.placed + result ≡ self.now.batch.count }
    {
        self.batch.len() - self.placed
    }

    /// Writes one page in place, and syncs after the last one. It answers whether pages are left. After a failure what
    /// was written since the last sync isn't known, so that all pages are left again.
    pub fn place_next<D: Disk>(&mut self, disk: &mut D) -> Result<bool, Failed>
        requires { self.old.placed < self.old.batch.count }
        ensures batch { self.new.batch ≡ self.old.batch }
        ensures ok { OnOk result (self.new.placed ≡ self.old.placed + 1) }
        ensures more { IfOk result (λ more. IsTrue more ↔ (self.new.placed < self.new.batch.count)) }
        ensures err { OnErr result (self.new.placed ≡ 0) }
        ensures is_batch { IsBatch self.old.batch }
        ensures cause { HasCause (D.past disk.old).faults (D.past disk.new).faults result }

        // A read gives the next page of the batch in its place, and each other page as before. After a failure it may give anything.
        ensures reads { OnOk result (Leads (PutsPage (number_at self.old.batch self.old.placed) (page_at self.old.batch self.old.placed))
            (D.past disk.old) (D.past disk.new)) }

        // The batch stays staged; the other pages may be placed as it is, or after a failure if what reads give is honest.
        ensures stands { (before : State) → Now (IsStagedHonestly before self.old.batch) (D.past disk.old) → Now (IsStaged before self.new.batch) (D.past disk.new) }
        ensures honest { (before : State) → Now (IsStagedHonestly before self.old.batch) (D.past disk.old) → IfOk result (λ more. IsTrue more → Now (IsStagedHonestly before self.new.batch) (D.past disk.new)) }

        // So many pages are in their places, and all of them for good where none is left.
        ensures placed { Now (HasPlaced self.old) (D.past disk.old) → Now (HasPlaced self.new) (D.past disk.new) }

        // At each moment of the call a crash leaves each page that was ready with its old content or with that of the batch.
        ensures crash { (before : State) → Now (IsStagedHonestly before self.old.batch) (D.past disk.old) → Meanwhile (KeepsPages before self.old.batch) (D.past disk.old) (D.past disk.new) }
    {
        match place_page(disk, &self.batch, self.placed) {
            Ok(more) => {
                self.placed += 1;
                Ok(more)
            }
            Err(failed) => {
                self.placed = 0;
                Err(failed)
            }
        }
    }

    /// Gives the batch back.
    pub fn done(self) -> Batch
        ensures { result ≡ self.batch }
    {
        self.batch
    }
}
