//! A sound tree of which a page is split, and what is known of the keys of any inner page.
//! `btree_grow` and `btree_split` cite the lemmas behind them (proofs/Splitting.antt).

ghost use Rattle.std.specs.Prelude.{◌≡◌, ℕ, List, ◌∷◌, ◌++◌, length, take, map};
ghost use Rattle.page_format.specs.Shape.{AreRising};
ghost use Rattle.page_format.specs.Words.{records_of};
ghost use Rattle.law_flat_tree.specs.Levels.{Fence};
ghost use Rattle.law_flat_tree.specs.PageSplits.{StandsNowhere, IsChildAt, SplitsPage};
ghost use Rattle.law_flat_tree.specs.Trees.{IsTree, levels_from};
ghost use Rattle.btree.specs.declared.tree.Tree.{Tree};
ghost use Rattle.btree.specs.Sound.{IsSoundTree, IsTreePage, levels_of};
ghost use Rattle.law_tree_changes.specs.Splits.{IsSoundSplit, later};

/// A page of a sound tree is cut, and its parent names the new page. The tree is sound still, where the three pages are
/// pages of a tree by themselves, and it has the same pairs.
pub fn a_sound_tree_is_split()
    ensures { (tree : Tree) (old new : ℕ → List ℕ) (tops : List (List ℕ)) (upper lower : List ℕ) (under : List (List ℕ)) (key : List ℕ)
        (u p q i : ℕ) (e f : List (Fence × ℕ))
        → IsSoundTree tree old → length key ≡ tree.key_len
        → IsChildAt tree.key_len old (levels_of tree old) tops upper lower under u p e f → StandsNowhere q (levels_of tree old)
        → SplitsPage key i (length e) u p q old new → IsTreePage tree new u → IsTreePage tree new p → IsTreePage tree new q
        → IsSoundSplit tree old new tops upper lower under p q }
{}

/// The keys of an inner page behind its first one rise, since they are the fences of its children.
pub fn keys_behind_the_first_rise()
    ensures { (n : ℕ) (pages : ℕ → List ℕ) (root : ℕ) (lows tops : List (List ℕ)) (cs ds lower : List ℕ) (under : List (List ℕ)) (u : ℕ)
        → IsTree n pages root lows → levels_from root lows ≡ tops ++ (cs ++ u ∷ ds) ∷ lower ∷ under
        → AreRising (map (take n) (later (records_of (pages u)))) }
{}
