//! Laws: what a step needs of the disk holds again at the next one, whatever the log and the pool do between them.
//! Nothing here runs.

ghost use Rattle.std.specs.Prelude.{◌≡◌, ℕ, ◌≤◌, List, ◌++◌, Option, IsTrue, false};
ghost use Rattle.store_api.specs.Areas.{State};
ghost use Rattle.log_format.specs.declared.group.Group.{Group as GroupValue};
ghost use Rattle.redo_log.specs.View.{LogView};
ghost use Rattle.redo_log.specs.Logged.{IsLogged};
ghost use Rattle.buffer_pool.specs.Frames.{PoolView, is_dirty};
ghost use Rattle.doublewrite.specs.Batches.{StagedView};
ghost use Rattle.law_logged_pages.specs.Stages.{begins_fresh, records_in, IsUnwritten};
ghost use Rattle.flusher.specs.Flushing.{HoldsRun, AreKept, AreSilent};

/// Groups are appended between two steps, which make a page before they change it, and the log is flushed further.
pub fn a_run_outlasts_the_log()
    ensures { (first : ℕ) (groups more : List GroupValue) (base : ℕ → List ℕ) (staged : Option StagedView) (log later : LogView) (before s : State)
        → HoldsRun first groups base staged log before → IsLogged first (groups ++ more) later s.log → log.flushed ≤ later.flushed
        → ((page : ℕ) → IsUnwritten base groups page → IsTrue (begins_fresh page (records_in (groups ++ more))))
        → s.pages ≡ before.pages → s.double ≡ before.double → HoldsRun first (groups ++ more) base staged later s }
{}

/// Between two steps groups change pages, which are changed in the pool then; others come in from their places, or are given up
/// once they are clean; and the disk's pages are only read. Pages that nobody need flush stay so.
pub fn kept_pages_outlast_changes()
    ensures { (groups more : List GroupValue) (base : ℕ → List ℕ) (pool later : PoolView) (before s : State) → AreKept groups base pool before
        → ((page : ℕ) → is_dirty later page ≡ false → (is_dirty pool page ≡ false) × AreSilent page more)
        → s.pages.synced ≡ before.pages.synced → s.pages.writes ≡ before.pages.writes → AreKept (groups ++ more) base later s }
{}
