//! A placed tree whose root gets a level below it: the laws that calls above are to be proved by. Each function has
//! an empty body, and nothing calls it.

ghost use Rattle.std.specs.Prelude.{◌≡◌, ℕ, List, [], ◌∷◌, drop};
ghost use Rattle.law_flat_tree.specs.Descents.{Holds};
ghost use Rattle.law_flat_tree.specs.Trees.{nodes};
ghost use Rattle.btree.specs.declared.tree.Tree.{Tree};
ghost use Rattle.btree.specs.Sound.{lows_of, levels_of, tree_pairs};
ghost use Rattle.btree_split.specs.Halves.{IsTakenFor};
ghost use Rattle.btree_split.specs.Placed.{IsPlacedTree};
ghost use Rattle.btree_grow.specs.Raised.{IsRaised, RaisesTree};

/// What the root had moves to a page that was taken, and the root leads to that page. The tree is placed still, with the same
/// pairs; that page is the one on the level below the root, with the levels below it that the root had.
pub fn a_placed_tree_is_raised()
    ensures placed { (tree : Tree) (old new : ℕ → List ℕ) (q : ℕ) → IsPlacedTree tree old → IsTakenFor tree old q
        → RaisesTree tree q old new → IsPlacedTree tree new }
    ensures same_pairs { (tree : Tree) (old new : ℕ → List ℕ) (q : ℕ) → IsPlacedTree tree old → IsTakenFor tree old q
        → RaisesTree tree q old new → tree_pairs tree new ≡ tree_pairs tree old }
    ensures levels { (tree : Tree) (old new : ℕ → List ℕ) (q : ℕ) → IsPlacedTree tree old → IsTakenFor tree old q
        → RaisesTree tree q old new → levels_of tree new ≡ (tree.root ∷ []) ∷ (q ∷ []) ∷ lows_of tree old }
    ensures held { (tree : Tree) (old new : ℕ → List ℕ) (q : ℕ) (sought : List ℕ) → IsPlacedTree tree old → IsTakenFor tree old q
        → RaisesTree tree q old new
        → Holds (nodes tree.key_len new) (tree.root ∷ []) sought tree.root × Holds (nodes tree.key_len new) (q ∷ []) sought q }
{}

/// The new root is laid out from bytes that show the old one, and put from byte 20 on: what stands before it is no tree's.
pub fn a_raised_root_is_put()
    ensures { (key_len number level : ℕ) (bytes page image new : List ℕ) → drop 20 bytes ≡ drop 20 page → drop 20 new ≡ drop 20 image
        → IsRaised key_len number level bytes image → IsRaised key_len number level page new }
{}
