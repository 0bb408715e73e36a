//! Whose a place is, by the locks of records. Each function has an empty body: its contract is the law.

ghost use Rattle.std.specs.Prelude.{◌≡◌, ◌≢◌, ℕ, false, List, Some, None};
ghost use Rattle.std.specs.List.{list_any};
ghost use Rattle.inno_types.specs.declared.lock.Lock.{Lock};
ghost use Rattle.inno_types.specs.declared.lock.LockKind.TheVariants.{Rec};
ghost use Rattle.inno_types.specs.declared.lock.Mode.TheVariants.{X};
ghost use Rattle.inno_model.specs.Past.{own};
ghost use Rattle.entries.specs.Pairs.{Pair, value_of};
ghost use Rattle.row_versions.specs.declared.place.Place.{Place};
ghost use Rattle.row_versions.specs.Chains.{Chains, is_same_place};
ghost use Rattle.law_stored_rows.specs.Edits.{clustered_index};
ghost use Rattle.law_past_agreement.specs.Rows.{is_at};
ghost use Rattle.world.specs.State.{WorldState, Session, Work, HasWork};
ghost use Rattle.law_world_agreement.specs.Agreement.{Agrees};
ghost use Rattle.lock_table.specs.Queue.{AreApart};
ghost use Rattle.lock_table.specs.View.{Table, IsGranted};
ghost use Rattle.law_locks.specs.Stand.{LocksStand};
ghost use Rattle.law_locks.specs.Index.{keys_of};
ghost use Rattle.desks.specs.declared.desk.Desk.{Desk};
ghost use Rattle.desks.specs.Desks.{doing_at};
ghost use Rattle.law_other_places.specs.Beside.{IsKeyOf};
ghost use Rattle.desks.specs.Holding.{works_in};
ghost use Rattle.law_locked_rows.specs.Owning.{HasAlone, AreOwned};
ghost use Rattle.law_other_places.specs.Steps.{MayPut};

/// A place has one owner at most.
pub fn a_place_has_one_owner()
    ensures { (chains : Chains) (state : WorldState) (granted : List Lock) (s t : ℕ) (place : Place)
        → Agrees chains state → AreApart granted → s ≢ t → HasAlone s place state granted → HasAlone t place state granted → ⊥ }
{}

/// So nobody else is at work at an owner's place, or has changed it: the owner may put a record there.
pub fn an_owner_may_put_a_record()
    ensures { (chains : Chains) (state : WorldState) (desks : List Desk) (granted : List Lock) (t : ℕ) (place : Place)
        → Agrees chains state → AreApart granted → AreOwned state desks granted → HasAlone t place state granted → MayPut t place state desks }
{}

/// A place without a record is nobody's, where locks stand on records: none is at work there, and none has changed it.
pub fn a_place_without_a_record_is_nobodys()
    ensures apart { (state : WorldState) (desks : List Desk) (granted : List Lock) (place : Place) (key : List ℕ) (pairs : List Pair)
        → AreOwned state desks granted → IsKeyOf place state.schemas key → value_of key pairs ≡ None
        → LocksStand (clustered_index place.table) (keys_of pairs) granted
        → (s : ℕ) (other : Place) → works_in state s (doing_at s desks) ≡ Some other → is_same_place place other ≡ false }
    ensures unchanged { (state : WorldState) (desks : List Desk) (granted : List Lock) (place : Place) (key : List ℕ) (pairs : List Pair)
        → AreOwned state desks granted → IsKeyOf place state.schemas key → value_of key pairs ≡ None
        → LocksStand (clustered_index place.table) (keys_of pairs) granted
        → (s : ℕ) → list_any (is_at state.schemas place) (own s state.past) ≡ false }
{}

/// Who asks for the record of a place for itself alone, and is granted it, owns the place.
pub fn who_is_granted_the_record_owns_the_place()
    ensures { (s : ℕ) (place : Place) (state : WorldState) (session : Session) (work : Work) (key : List ℕ) (lock : Lock) (old new : Table)
        → HasWork s session work state → IsKeyOf place state.schemas key → lock.txn ≡ work.txn
        → lock.spot ≡ record { index = clustered_index place.table; key = Some key } → lock.kind ≡ Rec → lock.mode ≡ X
        → IsGranted old new lock → HasAlone s place state new.granted }
{}
