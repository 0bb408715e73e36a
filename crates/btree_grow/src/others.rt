//! Trees of several indexes in one file.
//! Whoever keeps several trees in one file is to cite it for those that a change does not touch; it changes nothing itself.

ghost use Rattle.std.specs.Prelude.{◌≡◌, ◌≢◌, ℕ, List};
ghost use Rattle.entries.specs.Pairs.{Pair};
ghost use Rattle.btree.specs.declared.tree.Tree.{Tree as ATree};
ghost use Rattle.btree.specs.Sound.{tree_pairs, levels_of};
ghost use Rattle.btree_split.specs.Placed.{IsPlacedTree};
ghost use Rattle.btree_grow.specs.Grown.{Grows};

/// A tree that grows leaves each tree of another index.
pub fn another_tree_stays()
    ensures { (tree other : ATree) (pairs : List Pair) (taken : List ℕ) (old new : ℕ → List ℕ) → tree.index ≢ other.index
        → IsPlacedTree tree old → IsPlacedTree other old → Grows tree pairs taken old new
        → IsPlacedTree other new × (tree_pairs other new ≡ tree_pairs other old) × (levels_of other new ≡ levels_of other old) }
{}
