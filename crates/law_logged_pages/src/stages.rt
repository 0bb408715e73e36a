//! Stages of a page: what it was after some groups of a run, by LSN.
//! `page_recovery` cites the lemmas behind them (proofs/Leading.antt).

ghost use Rattle.std.specs.Prelude.{◌≡◌, ℕ, ◌+◌, ◌<◌, ◌≤◌, IsTrue, Option, None, List, ◌++◌, length, take};
ghost use Rattle.stored_pages.specs.Words.{lsn_of};
ghost use Rattle.log_format.specs.declared.group.Group.{Group as GroupValue};
ghost use Rattle.log_format.specs.Group.{AreGroups};
ghost use Rattle.law_logged_pages.specs.Applied.{page_after, logical};
ghost use Rattle.law_logged_pages.specs.Stages.{SameButSum, IsBase, begins_fresh, records_in, WasOnce, IsStage, or_zeros};

/// Whatever was found of a page, the groups bring it on to what it is after them all, but for its sum.
pub fn a_stage_leads_on()
    ensures { (base : ℕ → List ℕ) (first : ℕ) (groups : List GroupValue) (j m page : ℕ) (content : Option (List ℕ))
        → AreGroups first groups → IsBase first (base page) → j ≤ m → IsStage base groups j page content
        → SameButSum (page_after page (take m groups) (or_zeros content)) (logical base groups m page) }
{}

/// A page whose LSN is flushed is a stage of the flushed groups, however many groups have changed other pages since.
pub fn log_before_page()
    ensures { (base : ℕ → List ℕ) (first : ℕ) (groups : List GroupValue) (count m page : ℕ) (bytes : List ℕ)
        → AreGroups first groups → IsBase first (base page) → count ≤ length groups → lsn_of bytes < first + count
        → SameButSum bytes (logical base groups m page) → WasOnce base groups count page bytes }
{}

/// A stage stays one when more groups are flushed, and when more are appended: these make a page before they change it.
pub fn a_stage_stays()
    ensures { (base : ℕ → List ℕ) (groups more : List GroupValue) (j m page : ℕ) (content : Option (List ℕ))
        → j ≤ m → j ≤ length groups → (content ≡ None → IsTrue (begins_fresh page (records_in (groups ++ more))))
        → IsStage base groups j page content → IsStage base (groups ++ more) m page content }
{}
