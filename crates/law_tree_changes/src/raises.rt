//! A sound tree whose root gets a level below it.
//! `btree_grow` cites the lemma behind it (proofs/Raising.antt).

ghost use Rattle.std.specs.Prelude.{◌≡◌, ℕ, List, [], ◌∷◌};
ghost use Rattle.law_flat_tree.specs.PageSplits.{StandsNowhere};
ghost use Rattle.law_flat_tree.specs.PageRaises.{RaisesRoot};
ghost use Rattle.btree.specs.declared.tree.Tree.{Tree};
ghost use Rattle.btree.specs.Sound.{IsSoundTree, IsTreePage, lows_of, levels_of, tree_pairs};

/// A page that stands nowhere in a sound tree gets all that the root has, and the root leads to that page alone. The tree is
/// sound still, where the two are pages of a tree by themselves; it has one level more, and the same pairs.
pub fn a_sound_tree_is_raised()
    ensures sound { (tree : Tree) (old new : ℕ → List ℕ) (page : ℕ) → IsSoundTree tree old → StandsNowhere page (levels_of tree old)
        → RaisesRoot tree.key_len tree.root page old new → IsTreePage tree new tree.root → IsTreePage tree new page → IsSoundTree tree new }
    ensures levels { (tree : Tree) (old new : ℕ → List ℕ) (page : ℕ) → IsSoundTree tree old → StandsNowhere page (levels_of tree old)
        → RaisesRoot tree.key_len tree.root page old new → levels_of tree new ≡ (tree.root ∷ []) ∷ (page ∷ []) ∷ lows_of tree old }
    ensures same_pairs { (tree : Tree) (old new : ℕ → List ℕ) (page : ℕ) → IsSoundTree tree old → StandsNowhere page (levels_of tree old)
        → RaisesRoot tree.key_len tree.root page old new → tree_pairs tree new ≡ tree_pairs tree old }
{}
