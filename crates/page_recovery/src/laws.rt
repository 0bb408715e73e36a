//! Laws: what recovery asks is what a flusher leaves at each moment of its steps, and what recovery leaves is what a flusher
//! asks. Nothing here runs.

ghost use Rattle.std.specs.Prelude.{◌≡◌, ℕ, ◌+◌, ◌<◌, Option, List, length, take};
ghost use Rattle.store_api.specs.Areas.{State, Image, IsImage, IsHonest, seen_image};
ghost use Rattle.stored_pages.specs.Words.{lsn_of};
ghost use Rattle.log_format.specs.declared.group.Group.{Group as GroupValue};
ghost use Rattle.doublewrite.specs.Repairing.{IsRepaired, WasRead};
ghost use Rattle.law_logged_pages.specs.Applied.{logical};
ghost use Rattle.law_logged_pages.specs.Stages.{SameButSum, or_zeros};
ghost use Rattle.law_logged_pages.specs.Keeping.{IsRun, IsPlaced};
ghost use Rattle.flusher.specs.Flushing.{KeepsSince};
ghost use Rattle.page_recovery.specs.declared.recovering.Recovered.{Recovered as RecoveredValue};
ghost use Rattle.page_recovery.specs.Pages.{page_of};
ghost use Rattle.page_recovery.specs.Leaving.{IsStill, StillReads, IsFileRun, LeavesRun};
ghost use Rattle.page_recovery.specs.Recovering.{IsRecovered};

/// Whatever a crash leaves at a moment of a flusher's step can be recovered, with all groups that were flushed so far.
pub fn what_a_step_leaves_recovers()
    ensures { (run first flushed : ℕ) (groups : List GroupValue) (base : ℕ → List ℕ) (s : State) (image : Image)
        → KeepsSince run first flushed groups base s → IsImage s image → IsHonest s image
        → LeavesRun run first flushed groups base image }
{}

/// A flusher may go on where a recovery has ended, with the groups that were recovered: no batch is under way, the pages in
/// their places are at their stages, and those in memory are the newest.
pub fn a_recovered_run_goes_on()
    ensures run { (capacity run first flushed : ℕ) (groups : List GroupValue) (base : ℕ → List ℕ) (before : State) (r : RecoveredValue)
        → IsFileRun capacity run first groups base → IsStill before → LeavesRun run first flushed groups base (seen_image before)
        → IsRecovered (WasRead before) before.log.seen r → IsRun first (take r.count groups) base }
    ensures newest { (capacity run first flushed : ℕ) (groups : List GroupValue) (base : ℕ → List ℕ) (before : State) (r : RecoveredValue) (page : ℕ)
        → IsFileRun capacity run first groups base → IsStill before → LeavesRun run first flushed groups base (seen_image before)
        → IsRecovered (WasRead before) before.log.seen r → page < capacity
        → SameButSum (page_of r.pages page) (logical base (take r.count groups) (length (take r.count groups)) page) }
    ensures placed { (capacity run first flushed last : ℕ) (groups : List GroupValue) (base : ℕ → List ℕ) (before s : State) (r : RecoveredValue)
        → IsFileRun capacity run first groups base → IsStill before → LeavesRun run first flushed groups base (seen_image before)
        → IsRecovered (WasRead before) before.log.seen r → IsRepaired s → StillReads before s → IsImage s (seen_image s)
        → last + 1 ≡ r.next → IsPlaced first last (take r.count groups) base s }
{}

/// A page whose LSN is below the run's first is as it was read: none of the groups has changed it.
pub fn a_page_below_the_run_is_as_it_was()
    ensures { (before : State) (r : RecoveredValue) (page : ℕ) → IsRecovered (WasRead before) before.log.seen r → page < length r.pages
        → lsn_of (page_of r.pages page) < r.first
        → (content : Option (List ℕ)) × WasRead before page content × (page_of r.pages page ≡ or_zeros content) }
{}
