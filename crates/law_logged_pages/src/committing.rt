//! The newest pages: what a commit leaves in memory is what the groups make of the page, with the commit's own among
//! them. It is of one page at a time, and nothing in it meets the disk.

ghost use Rattle.std.specs.Prelude.{◌≡◌, ℕ, ◌+◌, true, false, List, [], ◌∷◌, ◌++◌, length};
ghost use Rattle.stored_pages.specs.declared.layout.TheConstants.{PAGE};
ghost use Rattle.log_format.specs.declared.group.Group.{Group as GroupValue};
ghost use Rattle.log_format.specs.Group.{AreGroups};
ghost use Rattle.law_logged_pages.specs.Applied.{names, logical};
ghost use Rattle.law_logged_pages.specs.Stages.{SameButSum, IsBase};
ghost use Rattle.law_logged_pages.specs.Committing.{IsCommitted, MayBe};

/// A page that the group names is the next one, and each other page stays.
pub fn a_commit_makes_the_next_pages()
    ensures named { (first page : ℕ) (groups : List GroupValue) (g : GroupValue) (base : ℕ → List ℕ) (old new : List ℕ)
        → AreGroups first (groups ++ g ∷ []) → IsBase first (base page) → length old ≡ PAGE
        → MayBe page g (logical base groups (length groups) page) old → names page g ≡ true → IsCommitted page g old new
        → SameButSum new (logical base (groups ++ g ∷ []) (length groups + 1) page) }
    ensures others { (first page : ℕ) (groups : List GroupValue) (g : GroupValue) (base : ℕ → List ℕ)
        → AreGroups first (groups ++ g ∷ []) → IsBase first (base page) → names page g ≡ false
        → logical base (groups ++ g ∷ []) (length groups + 1) page ≡ logical base groups (length groups) page }
{}
