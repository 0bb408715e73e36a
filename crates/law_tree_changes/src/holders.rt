//! Where a key belongs: one page on each level holds it.
//! `btree_grow` cites the lemma behind it (proofs/Held.antt).

ghost use Rattle.std.specs.Prelude.{◌≡◌, ℕ, List, ◌∷◌, ◌++◌};
ghost use Rattle.law_flat_tree.specs.Descents.{Holds};
ghost use Rattle.law_flat_tree.specs.Trees.{IsTree, nodes, levels_from};

/// No two pages of one level hold the same key.
pub fn one_page_of_a_level_holds_a_key()
    ensures { (n : ℕ) (pages : ℕ → List ℕ) (root : ℕ) (lows tops : List (List ℕ)) (level : List ℕ) (under : List (List ℕ)) (key : List ℕ) (p q : ℕ)
        → IsTree n pages root lows → levels_from root lows ≡ tops ++ level ∷ under
        → Holds (nodes n pages) level key p → Holds (nodes n pages) level key q → p ≡ q }
{}
