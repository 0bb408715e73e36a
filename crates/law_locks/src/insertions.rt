//! Laws of an insertion that is made with its locks in one step: the intention is asked for and granted in the step in which
//! the record comes. Each function has an empty body: its contract is the law.

ghost use Rattle.std.specs.Prelude.{◌≡◌, ◌≢◌, ℕ, ◌+◌, true, List, ◌∷◌};
ghost use Rattle.inno_types.specs.declared.lock.Spot.{Spot};
ghost use Rattle.inno_types.specs.declared.lock.Lock.{Lock};
ghost use Rattle.store_api.specs.declared.answers.Undo.{Undo};
ghost use Rattle.lock_table.specs.Records.{own_gaps};
ghost use Rattle.lock_table.specs.View.{Table, HasPlaces, IsGranted};
ghost use Rattle.law_locks.specs.Guards.{Guards, Guarded, has_alone};
ghost use Rattle.law_locks.specs.Stand.{Inserts};
ghost use Rattle.law_locks.specs.AtOnce.{IsIntention, InsertsAtOnce};

/// The intention takes no place: the room that was taken for the copies and the lock of the record is left.
pub fn room_lasts_behind_the_intention()
    ensures { (txn : ℕ) (next : Spot) (intention : Lock) (old asked : Table)
        → IsIntention txn next intention → IsGranted old asked intention
        → HasPlaces (own_gaps txn next old.granted + 1) old → HasPlaces (own_gaps txn next asked.granted + 1) asked }
{}

/// It is an insertion as the laws on guards have it, over the locks behind the intention.
pub fn it_is_an_insertion()
    ensures { (txn : ℕ) (records : List (List ℕ)) (key : List ℕ) (new next : Spot) (intention own : Lock) (old last : Table)
        → (step : InsertsAtOnce txn records key new next intention own old last)
        → Inserts txn records key new next step.asked.granted last.granted }
{}

/// So each transaction guards and keeps what it did, and has alone what it had alone.
pub fn it_keeps_guards()
    ensures guards { (txn other : ℕ) (records : List (List ℕ)) (key guarded : List ℕ) (new next : Spot) (intention own : Lock) (old last : Table)
        → InsertsAtOnce txn records key new next intention own old last
        → Guards other new.index records old.granted guarded → Guards other new.index (key ∷ records) last.granted guarded }
    ensures guarded { (txn other : ℕ) (records : List (List ℕ)) (key guarded : List ℕ) (new next : Spot) (intention own : Lock) (old last : Table) (made : ℕ) (log : List Undo)
        → InsertsAtOnce txn records key new next intention own old last
        → Guarded other new.index records old.granted guarded made log → Guarded other new.index (key ∷ records) last.granted guarded made log }
    ensures alone { (txn other index : ℕ) (records : List (List ℕ)) (key kept : List ℕ) (new next : Spot) (intention own : Lock) (old last : Table)
        → InsertsAtOnce txn records key new next intention own old last
        → has_alone other index kept old.granted ≡ true → has_alone other index kept last.granted ≡ true }
{}

/// Nobody else guarded the new key.
pub fn nobody_else_guarded_the_new_key()
    ensures { (txn other : ℕ) (records : List (List ℕ)) (key : List ℕ) (new next : Spot) (intention own : Lock) (old last : Table)
        → other ≢ txn → InsertsAtOnce txn records key new next intention own old last
        → Guards other new.index records old.granted key → ⊥ }
{}

/// The inserter has the new record alone.
pub fn the_inserter_has_the_record_alone()
    ensures { (txn : ℕ) (records : List (List ℕ)) (key : List ℕ) (new next : Spot) (intention own : Lock) (old last : Table)
        → InsertsAtOnce txn records key new next intention own old last
        → has_alone txn new.index key last.granted ≡ true }
{}
