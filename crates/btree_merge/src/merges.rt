//! Two neighbours of the lowest level below one parent that become one leaf, and the page that this leaves over.
//! `look`, `merge` and `tidying` go by the lemmas behind them (proofs/Merging.antt, proofs/Freeing.antt).

ghost use Rattle.std.specs.Prelude.{◌≡◌, ℕ, suc, ◌<◌, List, length};
ghost use Rattle.page_format.specs.Words.{records_of};
ghost use Rattle.law_flat_tree.specs.PageSplits.{StandsNowhere};
ghost use Rattle.btree.specs.declared.tree.Tree.{Tree};
ghost use Rattle.btree.specs.Sound.{levels_of, tree_pairs};
ghost use Rattle.btree_split.specs.Placed.{IsPlacedTree};
ghost use Rattle.btree_merge.specs.Merges.{IsAboveLeaves, MergesLeaves, FreesPage, LosesPage, Shrinks};
ghost use Rattle.btree_split.specs.Halves.{child_under};

/// A leaf gets the records of the one to its right under the same parent, which loses the record of that one. The tree is
/// placed still, with the same pairs, and the leaf to the right stands in it no longer.
pub fn two_leaves_become_one()
    ensures { (tree : Tree) (old new : ℕ → List ℕ) (u j : ℕ)
        → IsPlacedTree tree old → IsAboveLeaves tree old u → suc j < length (records_of (old u))
        → MergesLeaves j u (child_under tree.key_len old u j) (child_under tree.key_len old u (suc j)) old new
        → LosesPage tree (child_under tree.key_len old u (suc j)) old new }
{}

/// A page that stands nowhere in the tree, and is none of the file's first ones, is made zeros and marked as free. The tree
/// stays.
pub fn a_page_outside_the_tree_is_freed()
    ensures placed { (tree : Tree) (old new : ℕ → List ℕ) (page : ℕ) → IsPlacedTree tree old → StandsNowhere page (levels_of tree old)
        → 20 < page → FreesPage page old new → IsPlacedTree tree new }
    ensures same_levels { (tree : Tree) (old new : ℕ → List ℕ) (page : ℕ) → IsPlacedTree tree old → StandsNowhere page (levels_of tree old)
        → 20 < page → FreesPage page old new → levels_of tree new ≡ levels_of tree old }
    ensures same_pairs { (tree : Tree) (old new : ℕ → List ℕ) (page : ℕ) → IsPlacedTree tree old → StandsNowhere page (levels_of tree old)
        → 20 < page → FreesPage page old new → tree_pairs tree new ≡ tree_pairs tree old }
{}

/// Two leaves become one, and then the page of the one to the right is given back.
pub fn a_merge_that_frees_its_page_shrinks_the_tree()
    ensures { (tree : Tree) (old between new : ℕ → List ℕ) (u j : ℕ)
        → IsPlacedTree tree old → IsAboveLeaves tree old u → suc j < length (records_of (old u))
        → MergesLeaves j u (child_under tree.key_len old u j) (child_under tree.key_len old u (suc j)) old between
        → FreesPage (child_under tree.key_len old u (suc j)) between new
        → Shrinks tree (child_under tree.key_len old u (suc j)) old new }
{}
