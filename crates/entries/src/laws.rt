//! Laws of pairs in order, and of indexes in memory. Each function has an empty body: its contract is the law. Nothing
//! calls them; proofs above cite the lemmas behind them, in proofs/.

ghost use Rattle.std.specs.Prelude.{◌≡◌, ◌≢◌, ℕ, None, Some, List, MatchOption};
ghost use Rattle.std.specs.Ordering.{is_le, is_lt};
ghost use Rattle.entries.specs.Pairs.{Pair, key_cmp, AreRising, IsFirstOf, NonePasses, value_of, first_from, first_after, with_pair, without_key};
ghost use Rattle.entries.specs.Index.{Index, IsHeld};
ghost use Rattle.entries.specs.Calls.{Seeks, Follows, Fetches, NextKeys, Inserts, Replaces, Removes, Tidies, IsAtOnce, IsWithoutPages, IsKeptOffBy};
ghost use Rattle.store_api.specs.declared.moves.Move.{Move};
ghost use Rattle.entries.specs.declared.list_index.ListIndex.{ListIndex};
ghost use Rattle.entries.specs.Lists.{shown};

/// The keys still rise after an edit.
pub fn edits_keep_the_order()
    ensures put { (key value : List ℕ) (pairs : List Pair) → AreRising pairs → AreRising (with_pair key value pairs) }
    ensures removed { (key : List ℕ) (pairs : List Pair) → AreRising pairs → AreRising (without_key key pairs) }
{}

/// A value that was put is found, a key that was removed is not, and other keys are found as before.
pub fn each_edit_is_of_one_key()
    ensures put { (key value : List ℕ) (pairs : List Pair) → value_of key (with_pair key value pairs) ≡ Some value }
    ensures stays { (key value other : List ℕ) (pairs : List Pair) → other ≢ key
        → value_of other (with_pair key value pairs) ≡ value_of other pairs }
    ensures removed { (key : List ℕ) (pairs : List Pair) → AreRising pairs → value_of key (without_key key pairs) ≡ None }
    ensures is_left { (key other : List ℕ) (pairs : List Pair) → other ≢ key
        → value_of other (without_key key pairs) ≡ value_of other pairs }
{}

/// What a search finds is the pair of the least key at or above the key, or above it.
pub fn finds_are_first()
    ensures from { (key : List ℕ) (pairs : List Pair) → AreRising pairs
        → MatchOption (first_from key pairs) (NonePasses (λ other. is_le (key_cmp key other)) pairs) (IsFirstOf (λ other. is_le (key_cmp key other)) pairs) }
    ensures after { (key : List ℕ) (pairs : List Pair) → AreRising pairs
        → MatchOption (first_after key pairs) (NonePasses (λ other. is_lt (key_cmp key other)) pairs) (IsFirstOf (λ other. is_lt (key_cmp key other)) pairs) }
{}

/// An index in memory is never in pages.
pub fn a_list_has_no_pages()
    ensures { (list : ListIndex) → (shown list).paged ≡ None }
{}

/// Over an index without pages a call ends, or finds no memory; a call on keys is kept off exactly where another actor is
/// awaited, and by that actor.
pub fn without_pages_calls_end()
    ensures seek { (actor : ℕ) (from : List ℕ) (old new : Index) (answer : Move) → old.paged ≡ None
        → Seeks actor from old new answer → IsAtOnce answer }
    ensures following { (actor : ℕ) (old new : Index) (answer : Move) → old.paged ≡ None
        → Follows actor old new answer → IsAtOnce answer }
    ensures fetch { (actor : ℕ) (key read : List ℕ) (old new : Index) (answer : Move) → old.paged ≡ None
        → Fetches actor key read old new answer → IsAtOnce answer }
    ensures next_key { (actor : ℕ) (key read : List ℕ) (old new : Index) (answer : Move) → old.paged ≡ None
        → NextKeys actor key read old new answer → IsWithoutPages answer }
    ensures insert { (actor : ℕ) (key value : List ℕ) (old new : Index) (answer : Move) → old.paged ≡ None
        → Inserts actor key value old new answer → IsWithoutPages answer }
    ensures replace { (actor : ℕ) (key value : List ℕ) (old new : Index) (answer : Move) → old.paged ≡ None
        → Replaces actor key value old new answer → IsAtOnce answer }
    ensures remove { (actor : ℕ) (key : List ℕ) (old new : Index) (answer : Move) → old.paged ≡ None
        → Removes actor key old new answer → IsWithoutPages answer }
    ensures tidy { (actor : ℕ) (old new : Index) (answer : Move) → old.paged ≡ None
        → Tidies actor old new answer → IsAtOnce answer }
    ensures next_key_held { (actor by : ℕ) (key read : List ℕ) (old new : Index) (answer : Move) → old.paged ≡ None
        → IsHeld actor by old → NextKeys actor key read old new answer → IsKeptOffBy by answer }
    ensures insert_held { (actor by : ℕ) (key value : List ℕ) (old new : Index) (answer : Move) → old.paged ≡ None
        → IsHeld actor by old → Inserts actor key value old new answer → IsKeptOffBy by answer }
    ensures remove_held { (actor by : ℕ) (key : List ℕ) (old new : Index) (answer : Move) → old.paged ≡ None
        → IsHeld actor by old → Removes actor key old new answer → IsKeptOffBy by answer }
{}
