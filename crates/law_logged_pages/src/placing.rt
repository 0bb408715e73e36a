//! Pages that are placed through the doublewrite: log before page is the one side condition.
//! `flusher` and `page_checkpoint` cite the lemmas behind them (proofs/Placement.antt).

ghost use Rattle.std.specs.Prelude.{◌≡◌, ℕ, ◌+◌, ◌<◌, ◌≤◌, IsTrue, List, ◌++◌, length};
ghost use Rattle.store_api.specs.Areas.{State};
ghost use Rattle.log_format.specs.declared.group.Group.{Group as GroupValue};
ghost use Rattle.redo_log.specs.Logged.{LeavesPrefix};
ghost use Rattle.doublewrite.specs.Batches.{BatchView, StagedView, IsBatch};
ghost use Rattle.doublewrite.specs.Kept.{KeepsPages, IsStaged, HasPlaced};
ghost use Rattle.law_logged_pages.specs.Stages.{begins_fresh, records_in, IsUnwritten};
ghost use Rattle.law_logged_pages.specs.Keeping.{IsRun, Keeps, IsPlaced, IsLoggedBefore, MayBePlaced};

/// While no batch is under way, a crash leaves each page at a stage.
pub fn placed_pages_keep()
    ensures { (run first flushed : ℕ) (groups : List GroupValue) (base : ℕ → List ℕ) (s : State)
        → IsPlaced first flushed groups base s → LeavesPrefix run first groups flushed s.log
        → Keeps run first flushed groups base s }
{}

/// Log before page: a batch may be placed whose pages are as all groups have left them, if those that changed them are flushed.
pub fn a_logged_batch_may_be_placed()
    ensures { (first flushed : ℕ) (groups : List GroupValue) (base : ℕ → List ℕ) (batch : BatchView) (before : State)
        → IsRun first groups base → flushed < first + length groups → IsPlaced first flushed groups base before
        → IsLoggedBefore flushed groups base batch → MayBePlaced first flushed groups base batch before }
{}

/// At each moment while it is staged and placed, a crash leaves each page at a stage.
pub fn a_batch_keeps()
    ensures { (run first flushed : ℕ) (groups : List GroupValue) (base : ℕ → List ℕ) (batch : BatchView) (before s : State)
        → IsPlaced first flushed groups base before → MayBePlaced first flushed groups base batch before → KeepsPages before batch s
        → LeavesPrefix run first groups flushed before.log → Keeps run first flushed groups base s }
{}

/// Also between the steps in which its pages are placed, while nothing but the log goes on.
pub fn a_staged_batch_keeps()
    ensures { (batch : BatchView) (before s : State) → IsBatch batch → IsStaged before batch s → KeepsPages before batch s }
{}

/// Once all pages of the batch are in their places and synced, no batch is under way.
pub fn placed_pages_stay_placed()
    ensures { (first flushed : ℕ) (groups : List GroupValue) (base : ℕ → List ℕ) (staged : StagedView) (before s : State)
        → IsPlaced first flushed groups base before → MayBePlaced first flushed groups base staged.batch before
        → IsStaged before staged.batch s → HasPlaced staged s → staged.placed ≡ staged.batch.count
        → IsPlaced first flushed groups base s }
{}

/// The log goes on beside the pages: it is flushed further, and groups are appended, which make a page before they change it.
pub fn placed_pages_outlast_the_log()
    ensures { (first flushed later : ℕ) (groups more : List GroupValue) (base : ℕ → List ℕ) (before s : State)
        → flushed < first + length groups → flushed ≤ later → IsPlaced first flushed groups base before
        → ((page : ℕ) → IsUnwritten base groups page → IsTrue (begins_fresh page (records_in (groups ++ more))))
        → s.pages ≡ before.pages → s.double ≡ before.double → IsPlaced first later (groups ++ more) base s }
{}

/// Also while a batch is under way, whose pages may be changed meanwhile.
pub fn a_batch_outlasts_the_log()
    ensures { (first flushed later : ℕ) (groups more : List GroupValue) (base : ℕ → List ℕ) (batch : BatchView) (before s : State)
        → flushed < first + length groups → flushed ≤ later → MayBePlaced first flushed groups base batch before
        → s.double ≡ before.double → MayBePlaced first later (groups ++ more) base batch s }
{}
