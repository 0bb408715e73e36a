//! A run begins where another has ended: until page 0 is in its place a crash leaves one of both, and both recover to the
//! same pages.

ghost use Rattle.std.specs.Prelude.{◌≡◌, ◌≢◌, ◌⊎◌, ℕ, ◌+◌, Some, List, [], length};
ghost use Rattle.store_api.specs.Areas.{State, Image, IsImage, IsHonest};
ghost use Rattle.log_format.specs.declared.group.Group.{Group as GroupValue};
ghost use Rattle.redo_log.specs.Logged.{LeavesPrefix};
ghost use Rattle.doublewrite.specs.Batches.{BatchView, StagedView, page_at};
ghost use Rattle.doublewrite.specs.Kept.{KeepsPages, IsStaged, HasPlaced};
ghost use Rattle.stored_pages.specs.Reading.{IsPageIn};
ghost use Rattle.law_logged_pages.specs.Applied.{logical};
ghost use Rattle.law_logged_pages.specs.Keeping.{IsRun, IsPlaced};
ghost use Rattle.page_recovery.specs.Leaving.{IsFileRun, LeavesRun};
ghost use Rattle.page_checkpoint.specs.Checkpoints.{begun, IsClean, IsCheckpoint};

/// The pages with which the new run begins are those of a run without groups. But for page 0 they are what the groups of the
/// old run have left.
pub fn a_checkpoint_begins_a_run()
    ensures run { (capacity run first : ℕ) (groups : List GroupValue) (base : ℕ → List ℕ) (batch : BatchView) (before : State)
        → IsRun first groups base → IsCheckpoint capacity run first groups batch before
        → IsFileRun capacity (run + 1) (first + length groups + 1) [] (begun (page_at batch 0) base groups) }
    ensures same { (groups : List GroupValue) (base : ℕ → List ℕ) (header : List ℕ) (page : ℕ) → page ≢ 0
        → logical (begun header base groups) [] 0 page ≡ logical base groups (length groups) page }
{}

/// At each moment while page 0 is staged and placed, whatever a crash leaves can be recovered: it is the old run with all its
/// groups, or the new one without any.
pub fn a_crash_leaves_one_of_both_runs()
    ensures { (capacity run first flushed : ℕ) (groups : List GroupValue) (base : ℕ → List ℕ) (batch : BatchView) (before s : State)
        (image : Image) (bytes : List ℕ) → IsRun first groups base → IsClean first flushed groups base before
        → LeavesPrefix run first groups flushed before.log → IsCheckpoint capacity run first groups batch before
        → KeepsPages before batch s → IsImage s image → IsHonest s image → IsPageIn image.pages image.double 0 (Some bytes)
        → LeavesRun run first flushed groups base image
        ⊎ LeavesRun (run + 1) (first + length groups + 1) (first + length groups) [] (begun (page_at batch 0) base groups) image }
{}

/// Once page 0 is in its place and synced, no batch is under way, and what stands there are the pages of the new run.
pub fn a_placed_checkpoint_stays()
    ensures { (capacity run first flushed : ℕ) (groups : List GroupValue) (base : ℕ → List ℕ) (staged : StagedView) (before s : State)
        → IsRun first groups base → IsClean first flushed groups base before
        → IsCheckpoint capacity run first groups staged.batch before → IsStaged before staged.batch s → HasPlaced staged s
        → staged.placed ≡ staged.batch.count
        → IsPlaced (first + length groups + 1) (first + length groups) [] (begun (page_at staged.batch 0) base groups) s }
{}
