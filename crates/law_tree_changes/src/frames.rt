//! A tree hangs on its own pages alone, and the trees of two indexes share none. So what a change of one tree leaves of the
//! pages that stand nowhere in it leaves every other tree.

ghost use Rattle.std.specs.Prelude.{◌≡◌, ◌≢◌, ℕ, List};
ghost use Rattle.std.specs.List.{AllByRecursion};
ghost use Rattle.law_flat_tree.specs.Levels.{AreLevelsAlike};
ghost use Rattle.law_flat_tree.specs.PageSplits.{StandsNowhere};
ghost use Rattle.btree.specs.declared.tree.Tree.{Tree};
ghost use Rattle.btree.specs.Sound.{IsSoundTree, levels_of, tree_pairs};

/// A tree each of whose pages is as it was is as it was.
pub fn a_tree_hangs_on_its_pages_alone()
    ensures sound { (tree : Tree) (old new : ℕ → List ℕ) → IsSoundTree tree old → AreLevelsAlike old new (levels_of tree old)
        → IsSoundTree tree new }
    ensures same_levels { (tree : Tree) (old new : ℕ → List ℕ) → IsSoundTree tree old → AreLevelsAlike old new (levels_of tree old)
        → levels_of tree new ≡ levels_of tree old }
    ensures same_pairs { (tree : Tree) (old new : ℕ → List ℕ) → IsSoundTree tree old → AreLevelsAlike old new (levels_of tree old)
        → tree_pairs tree new ≡ tree_pairs tree old }
{}

/// No page of a tree is one of another index's tree. So the other tree stays, where no page is changed but those of the one.
pub fn another_tree_stays()
    ensures apart { (tree other : Tree) (pages : ℕ → List ℕ) → IsSoundTree tree pages → IsSoundTree other pages
        → tree.index ≢ other.index → AllByRecursion (AllByRecursion (λ page. StandsNowhere page (levels_of tree pages))) (levels_of other pages) }
    ensures sound { (tree other : Tree) (old new : ℕ → List ℕ) → IsSoundTree tree old → IsSoundTree other old → tree.index ≢ other.index
        → ((page : ℕ) → StandsNowhere page (levels_of tree old) → new page ≡ old page) → IsSoundTree other new }
    ensures same_pairs { (tree other : Tree) (old new : ℕ → List ℕ) → IsSoundTree tree old → IsSoundTree other old → tree.index ≢ other.index
        → ((page : ℕ) → StandsNowhere page (levels_of tree old) → new page ≡ old page) → tree_pairs other new ≡ tree_pairs other old }
{}
