//! A page of a placed tree that is split: the laws that calls above are to be proved by. Each function has an empty body, and
//! nothing calls it.

ghost use Rattle.std.specs.Prelude.{◌≡◌, ℕ, ◌<◌, List, ◌∷◌, ◌++◌, length, drop, if◌then◌else◌};
ghost use Rattle.std.specs.Ordering.{is_le};
ghost use Rattle.entries.specs.Pairs.{key_cmp};
ghost use Rattle.page_format.specs.Changes.{IsLowerHalf, IsUpperHalf};
ghost use Rattle.page_format.specs.Words.{records_of};
ghost use Rattle.btree.specs.declared.tree.Tree.{Tree};
ghost use Rattle.law_flat_tree.specs.Descents.{Holds};
ghost use Rattle.law_flat_tree.specs.Trees.{nodes};
ghost use Rattle.law_tree_changes.specs.Splits.{IsSoundSplit};
ghost use Rattle.btree.specs.Sound.{tree_pairs};
ghost use Rattle.btree_split.specs.Placed.{IsPlacedTree, IsParent};
ghost use Rattle.btree_split.specs.Halves.{child_under, IsTakenFor, IsLowerPut, IsUpperPut, SplitsChild};

/// A page is cut, on any level, a page that was taken gets its upper half, and the parent names that page. The tree is placed
/// still, with the same pairs, and the new page stands behind the old one.
pub fn a_page_of_a_placed_tree_is_split()
    ensures placed { (tree : Tree) (old new : ℕ → List ℕ) (sought key : List ℕ) (i j u q : ℕ)
        → IsPlacedTree tree old → IsParent tree old sought u → j < length (records_of (old u)) → IsTakenFor tree old q
        → SplitsChild tree key i j u (child_under tree.key_len old u j) q old new → IsPlacedTree tree new }
    ensures same_pairs { (tree : Tree) (old new : ℕ → List ℕ) (sought key : List ℕ) (i j u q : ℕ)
        → IsPlacedTree tree old → IsParent tree old sought u → j < length (records_of (old u)) → IsTakenFor tree old q
        → SplitsChild tree key i j u (child_under tree.key_len old u j) q old new → tree_pairs tree new ≡ tree_pairs tree old }
    ensures levels { (tree : Tree) (old new : ℕ → List ℕ) (sought key : List ℕ) (i j u q : ℕ)
        → IsPlacedTree tree old → (parent : IsParent tree old sought u) → j < length (records_of (old u)) → IsTakenFor tree old q
        → SplitsChild tree key i j u (child_under tree.key_len old u j) q old new
        → IsSoundSplit tree old new parent.tops parent.upper parent.lower parent.under (child_under tree.key_len old u j) q }
    ensures held { (tree : Tree) (old new : ℕ → List ℕ) (sought key : List ℕ) (i j u p q : ℕ) (level other : List ℕ)
        → SplitsChild tree key i j u p q old new → Holds (nodes tree.key_len old) level sought p
        → (xs ys : List ℕ) → other ≡ xs ++ p ∷ q ∷ ys
        → Holds (nodes tree.key_len new) other sought (if is_le (key_cmp key sought) then q else p) }
{}

/// Halves are laid out from bytes that show a page, and put from byte 20 on: what stands before it is no tree's.
pub fn halves_are_put()
    ensures lower { (bytes page image new key : List ℕ) (i number : ℕ) → drop 20 bytes ≡ drop 20 page → drop 20 new ≡ drop 20 image
        → IsLowerHalf bytes i key number image → IsLowerPut page i key number new }
    ensures upper { (bytes page image new key : List ℕ) (i number : ℕ) → drop 20 bytes ≡ drop 20 page → drop 20 new ≡ drop 20 image
        → IsUpperHalf bytes i key number image → IsUpperPut page i key new }
{}
