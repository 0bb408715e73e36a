//! The flusher: it takes room for one batch when it is made, and no memory later.
//! Whoever has the pool, the log and the disk makes its steps; others may change pages between them.

ghost use Rattle.std.specs.Prelude.{◌≡◌, ◌↔◌, ℕ, List, true, None, Ok, IfOk, OnOk};
ghost use Rattle.inno_types.specs.Order.{IsBelow};
ghost use Rattle.store_api.specs.Causes.{HasCause};
ghost use Rattle.store_api.specs.Past.{Now, Meanwhile};
ghost use Rattle.log_format.specs.declared.group.Group.{Group as GroupValue};
ghost use Rattle.buffer_pool.specs.Frames.{is_dirty};
ghost use Rattle.doublewrite.specs.Kept.{IsReady};
ghost use Rattle.doublewrite.specs.Places.{Leads};
ghost use Rattle.flusher.specs.Cleaning.{HasSamePages, Settles, finished, waits, to_go};
ghost use Rattle.flusher.specs.Flushing.{AreNewest, HoldsRun, KeepsSince, AreHome, AreInPlace, Places, AreKept, whole_or};
ghost use Rattle.flusher.specs.Working.{IsAtRest, Advances, AreChanged, KeepsLog};
ghost use Rattle.flusher.specs.declared.work.Worked.TheVariants.{Did, Idle};

use crate::work::{Work, Worked, step_of};
use buffer_pool::Pool;
use doublewrite::Batch;
use redo_log::Log;
use std::alloc::Global;
use std::marker::Model;
use std::mem;
use store_api::{Disk, Failed, NoMemory};

/// Brings changed pages to the disk, up to 64 at a time. Contracts see the batch under way, if any.
#[derive(Drop)]
pub struct Flusher {
    work: Work,
}

impl Model for Flusher {
    ghost use Rattle.std.specs.Prelude.{Option};
    ghost use Rattle.doublewrite.specs.Batches.{StagedView};
    ghost use Rattle.flusher.specs.Working.{IsWork, staged_of};

    ghost Value = { Option StagedView };

    ghost invariant = { λ f. IsWork f.work };

    ghost view = { λ f. staged_of f.work };
}

impl Flusher {
    /// A flusher with nothing under way, and room for a batch.
    pub fn new(alloc: Global) -> Result<Flusher, NoMemory>
        ensures { IfOk result (λ flusher. flusher ≡ None) }
    {
        Ok(Flusher {
            work: Work::Free(Batch::new(alloc)?),
        })
    }

    pub fn step<D: Disk>(
        &mut self,
        pool: &mut Pool,
        log: &mut Log,
        disk: &mut D,
    ) -> Result<Worked, Failed>
        // Idle comes exactly where there is nothing to do. Nothing has changed then.
        ensures idle { (result ≡ Ok Idle) ↔ IsAtRest self.old pool.old }
        ensures rests { result ≡ Ok Idle → (self.new ≡ self.old) × (log.new ≡ log.old) × (D.past disk.new ≡ D.past disk.old) }

        // Each step that did something brings it nearer to rest.
        ensures nears { result ≡ Ok Did → IsBelow (to_go self.new pool.new) (to_go self.old pool.old) }

        // A batch of changed pages is staged, or one page more of the batch under way is placed.
        ensures advances { result ≡ Ok Did → Advances pool.old self.old self.new }

        // Everybody sees the same pages. Those of a batch whose last page was placed are clean, and one that was changed again
        // while its batch was under way stays changed.
        ensures pages { HasSamePages pool.old pool.new }
        ensures under_way { AreChanged self.old pool.old → AreChanged self.new pool.new }
        ensures settles { Settles (finished self.old self.new) pool.old pool.new }
        ensures changed_again { (page : ℕ) → waits self.old pool.old page ≡ true → is_dirty pool.new page ≡ true }
        ensures log { KeepsLog log.old log.new }
        ensures cause { HasCause (D.past disk.old).faults (D.past disk.new).faults result }

        // Where no call failed, a read gives the page that was placed in its place, and each other page as before.
        ensures reads { OnOk result (Leads (Places self.old) (D.past disk.old) (D.past disk.new)) }

        // The pages of a batch are in their places as far as they were placed, and all of them for good once it is no more under way.
        ensures in_place { Now (AreInPlace self.old) (D.past disk.old) → Now (AreInPlace (whole_or self.old self.new)) (D.past disk.new) }

        // A page that became clean stands in its place for good as it is in the pool.
        ensures home { (first : ℕ) (groups : List GroupValue) (base : ℕ → List ℕ) → AreNewest groups base pool.old
            → Now IsReady (D.past disk.old)
            → Now (HoldsRun first groups base self.old log.old) (D.past disk.old) → Now (AreHome pool.old pool.new) (D.past disk.new) }

        // A page that isn't changed in the pool is in its place for good as all groups have left it, or nobody has written it, if
        // that was so of those that weren't changed before: so it is of each page once nothing is left to be done.
        ensures kept { (first : ℕ) (groups : List GroupValue) (base : ℕ → List ℕ) → AreNewest groups base pool.old
            → Now IsReady (D.past disk.old) → AreChanged self.old pool.old
            → Now (HoldsRun first groups base self.old log.old) (D.past disk.old)
            → Now (AreKept groups base pool.old) (D.past disk.old) → Now (AreKept groups base pool.new) (D.past disk.new) }

        // As long as no call fails, the disk holds the run with its pages at their stages,
        ensures stands { (first : ℕ) (groups : List GroupValue) (base : ℕ → List ℕ) → AreNewest groups base pool.old
            → Now IsReady (D.past disk.old)
            → Now (HoldsRun first groups base self.old log.old) (D.past disk.old)
            → OnOk result (Now (HoldsRun first groups base self.new log.new) (D.past disk.new)) }

        // and at each moment of the step what a crash leaves recovers: no page is placed before its log is flushed and its copy is synced.
        ensures crash { (first : ℕ) (groups : List GroupValue) (base : ℕ → List ℕ) → AreNewest groups base pool.old
            → Now IsReady (D.past disk.old)
            → Now (HoldsRun first groups base self.old log.old) (D.past disk.old)
            → Meanwhile (KeepsSince log.old.run first log.old.flushed groups base) (D.past disk.old) (D.past disk.new) }
    {
        let work = mem::replace(&mut self.work, Work::Changing);
        let (work, worked) = step_of(work, pool, log, disk);
        self.work = work;
        worked
    }
}
