//! The tree of an empty index, and edits of one leaf's records: the tree is a tree still, and its pairs are the old ones with
//! the edit. Keys have the length that all keys of the tree have.

ghost use Rattle.std.specs.Prelude.{◌≡◌, ℕ, List, [], ◌++◌, IsSome, length, insert, remove, slice_set};
ghost use Rattle.entries.specs.Pairs.{value_of, with_pair, without_key};
ghost use Rattle.page_format.specs.declared.records.Found.TheVariants.{At, Before};
ghost use Rattle.page_format.specs.Found.{IsFound};
ghost use Rattle.page_format.specs.Words.{level_of, low_of, high_of, right_of, records_of};
ghost use Rattle.law_flat_tree.specs.Descents.{Holds, leaves_of};
ghost use Rattle.law_flat_tree.specs.Trees.{IsTree, IsEmptyRoot, nodes, levels_from, all_pairs, ChangesRecords};

/// A leaf of level 0 with no fences, no neighbour and no records is a tree by itself, and has no pairs.
pub fn an_empty_root_is_a_tree()
    ensures tree { (n : ℕ) (pages : ℕ → List ℕ) (root : ℕ) → IsEmptyRoot (pages root) → IsTree n pages root [] }
    ensures no_pairs { (n : ℕ) (pages : ℕ → List ℕ) (root : ℕ) → IsEmptyRoot (pages root) → all_pairs n pages root [] ≡ [] }
{}

/// A record is put into the leaf that holds its key, before the place where `find` missed the key.
pub fn a_pair_is_put_into_its_leaf()
    ensures tree { (old new : ℕ → List ℕ) (root : ℕ) (lows : List (List ℕ)) (key value : List ℕ) (leaf i : ℕ)
        → IsTree (length key) old root lows → Holds (nodes (length key) old) (leaves_of (levels_from root lows)) key leaf
        → IsFound (records_of (old leaf)) key (Before i) → records_of (new leaf) ≡ insert (records_of (old leaf)) i (key ++ value)
        → ChangesRecords leaf old new → IsTree (length key) new root lows }
    ensures inserts { (old new : ℕ → List ℕ) (root : ℕ) (lows : List (List ℕ)) (key value : List ℕ) (leaf i : ℕ)
        → IsTree (length key) old root lows → Holds (nodes (length key) old) (leaves_of (levels_from root lows)) key leaf
        → IsFound (records_of (old leaf)) key (Before i) → records_of (new leaf) ≡ insert (records_of (old leaf)) i (key ++ value)
        → ChangesRecords leaf old new
        → all_pairs (length key) new root lows ≡ with_pair key value (all_pairs (length key) old root lows) }
{}

/// The record that `find` met in the leaf that holds its key is taken out.
pub fn a_key_is_removed_from_its_leaf()
    ensures tree { (old new : ℕ → List ℕ) (root : ℕ) (lows : List (List ℕ)) (key : List ℕ) (leaf i : ℕ)
        → IsTree (length key) old root lows → Holds (nodes (length key) old) (leaves_of (levels_from root lows)) key leaf
        → IsFound (records_of (old leaf)) key (At i) → records_of (new leaf) ≡ remove (records_of (old leaf)) i
        → ChangesRecords leaf old new → IsTree (length key) new root lows }
    ensures removes { (old new : ℕ → List ℕ) (root : ℕ) (lows : List (List ℕ)) (key : List ℕ) (leaf i : ℕ)
        → IsTree (length key) old root lows → Holds (nodes (length key) old) (leaves_of (levels_from root lows)) key leaf
        → IsFound (records_of (old leaf)) key (At i) → records_of (new leaf) ≡ remove (records_of (old leaf)) i
        → ChangesRecords leaf old new
        → all_pairs (length key) new root lows ≡ without_key key (all_pairs (length key) old root lows) }
{}

/// The record that `find` met in the leaf that holds its key gets another value.
pub fn a_value_is_replaced_in_its_leaf()
    ensures tree { (old new : ℕ → List ℕ) (root : ℕ) (lows : List (List ℕ)) (key value : List ℕ) (leaf i : ℕ)
        → IsTree (length key) old root lows → Holds (nodes (length key) old) (leaves_of (levels_from root lows)) key leaf
        → IsFound (records_of (old leaf)) key (At i) → records_of (new leaf) ≡ slice_set (records_of (old leaf)) i (key ++ value)
        → ChangesRecords leaf old new → IsTree (length key) new root lows }
    ensures replaces { (old new : ℕ → List ℕ) (root : ℕ) (lows : List (List ℕ)) (key value : List ℕ) (leaf i : ℕ)
        → IsTree (length key) old root lows → Holds (nodes (length key) old) (leaves_of (levels_from root lows)) key leaf
        → IsFound (records_of (old leaf)) key (At i) → records_of (new leaf) ≡ slice_set (records_of (old leaf)) i (key ++ value)
        → ChangesRecords leaf old new
        → all_pairs (length key) new root lows ≡ with_pair key value (all_pairs (length key) old root lows) }
{}

/// Where `find` meets a key in the leaf that holds it, the tree has the key; where it misses it, the tree hasn't.
pub fn a_leaf_tells_whether_a_key_is_there()
    ensures there { (pages : ℕ → List ℕ) (root : ℕ) (lows : List (List ℕ)) (key : List ℕ) (leaf i : ℕ)
        → IsTree (length key) pages root lows → Holds (nodes (length key) pages) (leaves_of (levels_from root lows)) key leaf
        → IsFound (records_of (pages leaf)) key (At i) → IsSome (value_of key (all_pairs (length key) pages root lows)) }
    ensures absent { (pages : ℕ → List ℕ) (root : ℕ) (lows : List (List ℕ)) (key : List ℕ) (leaf i : ℕ)
        → IsTree (length key) pages root lows → Holds (nodes (length key) pages) (leaves_of (levels_from root lows)) key leaf
        → IsFound (records_of (pages leaf)) key (Before i) → value_of key (all_pairs (length key) pages root lows) ≡ None }
{}
