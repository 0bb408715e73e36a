//! Pages of a tree by their bytes, at any level: a page that is split, two that are merged, each with the record in the
//! parent, and a root that gets a level below it.

ghost use Rattle.std.specs.Prelude.{◌≡◌, ℕ, List, [], ◌∷◌, length};
ghost use Rattle.law_flat_tree.specs.Levels.{Fence};
ghost use Rattle.law_flat_tree.specs.Trees.{IsTree, levels_from, all_pairs};
ghost use Rattle.law_flat_tree.specs.PageSplits.{StandsNowhere, IsChildAt, SplitsPage, IsSplitTree};
ghost use Rattle.law_flat_tree.specs.PageMerges.{AreChildrenAt, MergesPages, IsMergedTree};
ghost use Rattle.law_flat_tree.specs.PageRaises.{RaisesRoot};

/// A page of a tree keeps its lower half, a page that stands nowhere in the tree gets the upper one, and the parent gets a
/// record with the fence and the new page behind that of the old one. The pages are a tree still, with the same pairs, in
/// which the new page stands behind the old one; no other level has changed.
pub fn a_page_of_a_tree_is_split()
    ensures { (old new : ℕ → List ℕ) (root : ℕ) (lows tops : List (List ℕ)) (upper lower : List ℕ)
        (under : List (List ℕ)) (key : List ℕ) (u p q i : ℕ) (e f : List (Fence × ℕ))
        → IsTree (length key) old root lows
        → IsChildAt (length key) old (levels_from root lows) tops upper lower under u p e f
        → StandsNowhere q (levels_from root lows)
        → SplitsPage key i (length e) u p q old new
        → IsSplitTree (length key) old new root lows tops upper lower under p q }
{}

/// A page gets the records, the high fence and the neighbour of the one to its right under the same parent, which loses the
/// record of that one. The pages are a tree still, with the same pairs, in which the page to the right stands no longer. The
/// first record of an inner page is to begin with its low fence, so that it can stand behind other records.
pub fn two_pages_of_a_tree_are_merged()
    ensures { (n : ℕ) (old new : ℕ → List ℕ) (root : ℕ) (lows tops : List (List ℕ)) (upper lower : List ℕ)
        (under : List (List ℕ)) (u p q : ℕ) (e f : List (Fence × ℕ))
        → IsTree n old root lows
        → AreChildrenAt n old (levels_from root lows) tops upper lower under u p q e f
        → MergesPages n (length e) u p q old new
        → IsMergedTree n old new root lows tops upper lower under p q }
{}

/// A page that stands nowhere in the tree gets all that the root has, and the root, one level higher, has one record alone,
/// which leads to that page. The tree has one level more, and the same pairs.
pub fn a_root_is_raised()
    ensures tree { (n : ℕ) (old new : ℕ → List ℕ) (root page : ℕ) (lows : List (List ℕ))
        → IsTree n old root lows → StandsNowhere page (levels_from root lows) → RaisesRoot n root page old new
        → IsTree n new root ((page ∷ []) ∷ lows) }
    ensures same_pairs { (n : ℕ) (old new : ℕ → List ℕ) (root page : ℕ) (lows : List (List ℕ))
        → IsTree n old root lows → StandsNowhere page (levels_from root lows) → RaisesRoot n root page old new
        → all_pairs n new root ((page ∷ []) ∷ lows) ≡ all_pairs n old root lows }
{}
