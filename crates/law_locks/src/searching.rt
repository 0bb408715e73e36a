//! What a search guards with the locks that it is granted, spot by spot.
//! They speak of locks once they are granted; that these last is in `guards` and `pins`.

ghost use Rattle.std.specs.Prelude.{◌≡◌, ℕ, ◌≤◌, true, false, Option, Some, List, length};
ghost use Rattle.inno_types.specs.declared.lock.Lock.{Lock};
ghost use Rattle.store_api.specs.declared.answers.Undo.{Undo};
ghost use Rattle.lock_rules.specs.Kinds.{locks_gap, locks_record, is_shared};
ghost use Rattle.lock_rules.specs.Conflicts.{kind_of};
ghost use Rattle.lock_rules.specs.Coverage.{stands_in, is_in_gap};
ghost use Rattle.lock_table.specs.View.{Table, IsGranted};
ghost use Rattle.law_locks.specs.Guards.{IsSpotOf, Guards, Pinned, has_gap, has_record, has_alone};

/// Each key has a spot, and one alone.
pub fn each_key_has_one_spot()
    ensures some { (records : List (List ℕ)) (key : List ℕ) → (spot : Option (List ℕ)) × IsSpotOf records key spot }
    ensures one { (records : List (List ℕ)) (key : List ℕ) (spot other : Option (List ℕ)) → IsSpotOf records key spot → IsSpotOf records key other → spot ≡ other }
{}

/// Who is granted a request has what it asked for, also where a lock that it had covers the request.
pub fn granted_requests_lock_their_spots()
    ensures gap { (old new : Table) (lock : Lock) → IsGranted old new lock → locks_gap (kind_of lock) ≡ true
        → has_gap lock.txn lock.spot.index lock.spot.key new.granted ≡ true }
    ensures own { (old new : Table) (lock : Lock) (key : List ℕ) → IsGranted old new lock → lock.spot.key ≡ Some key → locks_record (kind_of lock) ≡ true
        → has_record lock.txn lock.spot.index key new.granted ≡ true }
    ensures alone { (old new : Table) (lock : Lock) (key : List ℕ) → IsGranted old new lock → lock.spot.key ≡ Some key → locks_record (kind_of lock) ≡ true → is_shared lock.mode ≡ false
        → has_alone lock.txn lock.spot.index key new.granted ≡ true }
{}

/// Who has the gap before a record or the supremum guards each key in it.
pub fn gap_locks_guard_their_gaps()
    ensures { (txn index : ℕ) (records : List (List ℕ)) (locks : List Lock) (spot : Option (List ℕ)) (key : List ℕ)
        → stands_in records spot ≡ true → has_gap txn index spot locks ≡ true → is_in_gap records spot key ≡ true
        → Guards txn index records locks key }
{}

/// Who has a record and the gap before it guards the record's key.
pub fn next_key_locks_guard_their_records()
    ensures { (txn index : ℕ) (records : List (List ℕ)) (locks : List Lock) (key : List ℕ)
        → stands_in records (Some key) ≡ true → has_gap txn index (Some key) locks ≡ true → has_record txn index key locks ≡ true
        → Guards txn index records locks key }
{}

/// Who has the record that its unique search finds has it pinned, as its log is now, and as it is counted later.
pub fn records_found_are_pinned()
    ensures found { (txn index : ℕ) (records : List (List ℕ)) (locks : List Lock) (key : List ℕ) (log : List Undo)
        → stands_in records (Some key) ≡ true → has_record txn index key locks ≡ true
        → Pinned txn index records locks key (length log) log }
    ensures later { (txn index : ℕ) (records : List (List ℕ)) (locks : List Lock) (key : List ℕ) (made later : ℕ) (log : List Undo)
        → made ≤ later → Pinned txn index records locks key made log → Pinned txn index records locks key later log }
{}
