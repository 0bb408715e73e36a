//! Splits, merges and raises, as they are seen in the fences and entries of pages (`Node`): the levels are levels of a tree
//! still, and the pairs of the leaves are the same.

ghost use Rattle.std.specs.Prelude.{◌≡◌, ◌⊎◌, ℕ, List, [], ◌∷◌, ◌++◌};
ghost use Rattle.entries.specs.Pairs.{Pair};
ghost use Rattle.law_flat_tree.specs.Levels.{Fence, Node, heads, children, AreAlike, Splits, Merges, Raises, AreLevels, AreLevelsAlike};
ghost use Rattle.law_flat_tree.specs.Leaves.{IsLeaf, AreLeaves, pairs_of};
ghost use Rattle.law_flat_tree.specs.Descents.{BeginsAt, AreAllInner, leaves_of};

/// A page is split, and its parent names the new page behind it. `tops` are the levels above the parent's, `under` those
/// below the page's; `before` and `behind` say where the page stands below its parent.
pub fn a_split_keeps_the_tree()
    ensures levels { (old new : ℕ → Node) (cs ds xs ys : List ℕ) (u p q : ℕ) (fence : Fence) (e f : List (Fence × ℕ))
        → Splits old new cs ds xs ys u p q fence e f
        → heads old xs ≡ children old cs ++ e → heads old ys ≡ f ++ children old ds
        → (tops under : List (List ℕ)) → AreLevelsAlike old new tops → AreLevelsAlike old new under
        → AreLevels old (tops ++ (cs ++ u ∷ ds) ∷ (xs ++ p ∷ ys) ∷ under)
        → AreLevels new (tops ++ (cs ++ u ∷ ds) ∷ (xs ++ p ∷ q ∷ ys) ∷ under) }
    ensures inner { (old new : ℕ → Node) (cs ds xs ys : List ℕ) (u p q : ℕ) (fence : Fence) (e f : List (Fence × ℕ))
        → Splits old new cs ds xs ys u p q fence e f
        → (tops under : List (List ℕ)) → AreLevelsAlike old new tops → AreLevelsAlike old new under
        → BeginsAt (new p).low (new p).entries ⊎ (under ≡ []) → BeginsAt (new q).low (new q).entries ⊎ (under ≡ [])
        → AreAllInner old (tops ++ (cs ++ u ∷ ds) ∷ (xs ++ p ∷ ys) ∷ under)
        → AreAllInner new (tops ++ (cs ++ u ∷ ds) ∷ (xs ++ p ∷ q ∷ ys) ∷ under) }
    ensures pairs { (old new : ℕ → Node) (held kept : ℕ → List Pair) (tops : List (List ℕ)) (upper xs ys : List ℕ) (p q : ℕ)
        → AreAlike old new xs → AreAlike held kept xs → AreAlike old new ys → AreAlike held kept ys
        → IsLeaf (new p) (kept p) → IsLeaf (new q) (kept q) → kept p ++ kept q ≡ held p
        → AreLeaves old held (leaves_of (tops ++ upper ∷ (xs ++ p ∷ ys) ∷ []))
        → AreLeaves new kept (leaves_of (tops ++ upper ∷ (xs ++ p ∷ q ∷ ys) ∷ []))
        × (pairs_of kept (leaves_of (tops ++ upper ∷ (xs ++ p ∷ q ∷ ys) ∷ [])) ≡ pairs_of held (leaves_of (tops ++ upper ∷ (xs ++ p ∷ ys) ∷ []))) }
    ensures pairs_below { (old new : ℕ → Node) (held kept : ℕ → List Pair) (tops : List (List ℕ))
        (upper level other low : List ℕ) (under : List (List ℕ))
        → AreLevelsAlike old new (low ∷ under) → AreLevelsAlike held kept (low ∷ under)
        → AreLeaves old held (leaves_of (tops ++ upper ∷ level ∷ low ∷ under))
        → AreLeaves new kept (leaves_of (tops ++ upper ∷ other ∷ low ∷ under))
        × (pairs_of kept (leaves_of (tops ++ upper ∷ other ∷ low ∷ under)) ≡ pairs_of held (leaves_of (tops ++ upper ∷ level ∷ low ∷ under))) }
{}

/// Two neighbours below one parent become one page: a split, read backwards.
pub fn a_merge_keeps_the_tree()
    ensures levels { (old new : ℕ → Node) (cs ds xs ys : List ℕ) (u p q : ℕ) (fence : Fence) (e f : List (Fence × ℕ))
        → Merges old new cs ds xs ys u p q fence e f
        → heads old xs ≡ children old cs ++ e → heads old ys ≡ f ++ children old ds
        → (tops under : List (List ℕ)) → AreLevelsAlike old new tops → AreLevelsAlike old new under
        → AreLevels old (tops ++ (cs ++ u ∷ ds) ∷ (xs ++ p ∷ q ∷ ys) ∷ under)
        → AreLevels new (tops ++ (cs ++ u ∷ ds) ∷ (xs ++ p ∷ ys) ∷ under) }
    ensures inner { (old new : ℕ → Node) (cs ds xs ys : List ℕ) (u p q : ℕ) (fence : Fence) (e f : List (Fence × ℕ))
        → Merges old new cs ds xs ys u p q fence e f
        → (tops under : List (List ℕ)) → AreLevelsAlike old new tops → AreLevelsAlike old new under
        → AreAllInner old (tops ++ (cs ++ u ∷ ds) ∷ (xs ++ p ∷ q ∷ ys) ∷ under)
        → AreAllInner new (tops ++ (cs ++ u ∷ ds) ∷ (xs ++ p ∷ ys) ∷ under) }
    ensures pairs { (old new : ℕ → Node) (held kept : ℕ → List Pair) (tops : List (List ℕ)) (upper xs ys : List ℕ) (p q : ℕ)
        → AreAlike old new xs → AreAlike held kept xs → AreAlike old new ys → AreAlike held kept ys
        → IsLeaf (new p) (kept p) → held p ++ held q ≡ kept p
        → AreLeaves old held (leaves_of (tops ++ upper ∷ (xs ++ p ∷ q ∷ ys) ∷ []))
        → AreLeaves new kept (leaves_of (tops ++ upper ∷ (xs ++ p ∷ ys) ∷ []))
        × (pairs_of kept (leaves_of (tops ++ upper ∷ (xs ++ p ∷ ys) ∷ [])) ≡ pairs_of held (leaves_of (tops ++ upper ∷ (xs ++ p ∷ q ∷ ys) ∷ []))) }
{}

/// The root's content moves to a new page, and the root names that page alone: the tree has one level more.
pub fn a_raise_keeps_the_tree()
    ensures levels { (old new : ℕ → Node) (root page : ℕ) (lows : List (List ℕ))
        → Raises old new root page → AreLevelsAlike old new lows
        → AreLevels old ((root ∷ []) ∷ lows) → AreLevels new ((root ∷ []) ∷ (page ∷ []) ∷ lows) }
    ensures inner { (old new : ℕ → Node) (root page : ℕ) (lows : List (List ℕ))
        → Raises old new root page → AreLevelsAlike old new lows
        → AreAllInner old ((root ∷ []) ∷ lows) → AreAllInner new ((root ∷ []) ∷ (page ∷ []) ∷ lows) }
    ensures pairs { (old new : ℕ → Node) (held kept : ℕ → List Pair) (root page : ℕ)
        → Raises old new root page → kept page ≡ held root → AreLeaves old held (root ∷ [])
        → AreLeaves new kept (page ∷ []) × (pairs_of kept (page ∷ []) ≡ pairs_of held (root ∷ [])) }
{}
