//! A law: what a caller holds that has brought all pages to the disk is what a checkpoint asks for.
//! Nothing here runs.

ghost use Rattle.std.specs.Prelude.{◌≡◌, ℕ, List, length, None};
ghost use Rattle.store_api.specs.Areas.{State};
ghost use Rattle.log_format.specs.declared.group.Group.{Group as GroupValue};
ghost use Rattle.redo_log.specs.View.{LogView};
ghost use Rattle.buffer_pool.specs.Frames.{PoolView, bytes_of};
ghost use Rattle.law_logged_pages.specs.Applied.{logical};
ghost use Rattle.law_logged_pages.specs.Stages.{SameButSum};
ghost use Rattle.flusher.specs.Flushing.{HoldsRun, AreKept};
ghost use Rattle.page_recovery.specs.Leaving.{IsFileRun};
ghost use Rattle.page_checkpoint.specs.Beginning.{HoldsAll};

/// The flusher keeps that pages which aren't changed in the pool are in their places (`AreKept`, by each of its steps), and the
/// bytes of page 0 in the pool. So whoever held this at the run's beginning may end the run once no batch is under way.
pub fn a_flushed_run_may_end()
    ensures { (capacity first : ℕ) (groups : List GroupValue) (base : ℕ → List ℕ) (pool : PoolView) (log : LogView) (s : State)
        → IsFileRun capacity log.run first groups base → HoldsRun first groups base None log s → AreKept groups base pool s
        → SameButSum (bytes_of pool 0) (logical base groups (length groups) 0) → HoldsAll capacity first groups base pool log s }
{}
