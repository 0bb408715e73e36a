//! What a search finds: a descent comes to the leaf whose fences hold its key, and that leaf, with the first pairs of those
//! to its right, tells what the whole tree has.

ghost use Rattle.std.specs.Prelude.{◌≡◌, ℕ, List, [], ◌∷◌, ◌++◌, length, take, map, slice_index_or};
ghost use Rattle.std.specs.Option.{option_or};
ghost use Rattle.entries.specs.Pairs.{AreRising, value_of, first_from, first_after};
ghost use Rattle.page_format.specs.declared.records.Found.{Found};
ghost use Rattle.page_format.specs.Found.{IsFound};
ghost use Rattle.page_format.specs.Shape.{AreRising as DoKeysRise};
ghost use Rattle.page_format.specs.Words.{level_of, right_of, records_of};
ghost use Rattle.law_flat_tree.specs.Levels.{head_or, levels_under};
ghost use Rattle.law_flat_tree.specs.Leaves.{first_held};
ghost use Rattle.law_flat_tree.specs.Descents.{Holds, LeadsTo, IsWay, IsAsDeep, end_of, leaves_of};
ghost use Rattle.law_flat_tree.specs.Pages.{child_of, child_place, leaf_pairs};
ghost use Rattle.law_flat_tree.specs.Trees.{IsTree, nodes, pairs_in, levels_from, all_pairs};

/// The root holds every key. What `find` answers in an inner page is the place of the child that holds the key, so a
/// descent from the root, one child a level, ends at the leaf whose fences hold the key.
pub fn a_descent_ends_at_the_leaf_of_its_key()
    ensures root_holds { (n : ℕ) (pages : ℕ → List ℕ) (root : ℕ) (lows : List (List ℕ)) (key : List ℕ)
        → IsTree n pages root lows → Holds (nodes n pages) (root ∷ []) key root }
    ensures child_holds { (n : ℕ) (pages : ℕ → List ℕ) (root : ℕ) (lows : List (List ℕ)) (key : List ℕ)
        (tops under : List (List ℕ)) (upper lower : List ℕ) (page child : ℕ)
        → IsTree n pages root lows → levels_from root lows ≡ tops ++ upper ∷ lower ∷ under
        → Holds (nodes n pages) upper key page → LeadsTo (nodes n pages) key page child
        → Holds (nodes n pages) lower key child }
    ensures find_leads { (pages : ℕ → List ℕ) (root : ℕ) (lows : List (List ℕ)) (key : List ℕ)
        (tops under : List (List ℕ)) (upper lower : List ℕ) (page : ℕ) (found : Found)
        → IsTree (length key) pages root lows → levels_from root lows ≡ tops ++ upper ∷ lower ∷ under
        → Holds (nodes (length key) pages) upper key page → DoKeysRise (map (take (length key)) (records_of (pages page)))
        → IsFound (records_of (pages page)) key found
        → LeadsTo (nodes (length key) pages) key page (child_of (length key) (slice_index_or (records_of (pages page)) (child_place found) [])) }
    ensures leaf_found { (n : ℕ) (pages : ℕ → List ℕ) (root : ℕ) (lows : List (List ℕ)) (key way : List ℕ)
        → IsTree n pages root lows → IsAsDeep way (levels_from root lows) → IsWay (nodes n pages) key root way
        → Holds (nodes n pages) (leaves_of (levels_from root lows)) key (end_of root way) }
    ensures one_shape { (n : ℕ) (pages : ℕ → List ℕ) (root : ℕ) (lows : List (List ℕ))
        → IsTree n pages root lows → lows ≡ levels_under (level_of (pages root)) (nodes n pages) (root ∷ []) }
{}

/// The leaf whose fences hold a key has the key's pair, if any leaf has. The first pair at or above the key, or above it,
/// is in that leaf or else the first pair to its right, and the walk there goes from neighbour to neighbour.
pub fn a_leaf_tells_what_the_tree_has()
    ensures value_read { (n : ℕ) (pages : ℕ → List ℕ) (root : ℕ) (lows : List (List ℕ)) (key : List ℕ) (leaf : ℕ)
        → IsTree n pages root lows → Holds (nodes n pages) (leaves_of (levels_from root lows)) key leaf
        → value_of key (all_pairs n pages root lows) ≡ value_of key (leaf_pairs n (pages leaf)) }
    ensures seeking { (n : ℕ) (pages : ℕ → List ℕ) (root : ℕ) (lows : List (List ℕ)) (key : List ℕ) (leaf : ℕ)
        → IsTree n pages root lows → (holds : Holds (nodes n pages) (leaves_of (levels_from root lows)) key leaf)
        → first_from key (all_pairs n pages root lows) ≡ option_or (first_from key (leaf_pairs n (pages leaf))) (first_held (pairs_in n pages) holds.ys) }
    ensures following { (n : ℕ) (pages : ℕ → List ℕ) (root : ℕ) (lows : List (List ℕ)) (key : List ℕ) (leaf : ℕ)
        → IsTree n pages root lows → (holds : Holds (nodes n pages) (leaves_of (levels_from root lows)) key leaf)
        → first_after key (all_pairs n pages root lows) ≡ option_or (first_after key (leaf_pairs n (pages leaf))) (first_held (pairs_in n pages) holds.ys) }
    ensures right_neighbour { (n : ℕ) (pages : ℕ → List ℕ) (root : ℕ) (lows : List (List ℕ)) (xs ys : List ℕ) (leaf : ℕ)
        → IsTree n pages root lows → leaves_of (levels_from root lows) ≡ xs ++ leaf ∷ ys → right_of (pages leaf) ≡ head_or 0 ys }
    ensures rising { (n : ℕ) (pages : ℕ → List ℕ) (root : ℕ) (lows : List (List ℕ))
        → IsTree n pages root lows → AreRising (all_pairs n pages root lows) }
{}
