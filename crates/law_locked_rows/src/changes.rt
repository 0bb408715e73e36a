//! Changes of rows, and their taking back, beside those of others: each step keeps what is held of all sessions. Each
//! function has an empty body: its contract is the law.

ghost use Rattle.std.specs.Prelude.{◌≡◌, ◌≢◌, ℕ, ◌<◌, ◌^◌, ◌+◌, Bool, List, length, Option, Some, slice_get};
ghost use Rattle.inno_types.specs.declared.lock.Lock.{Lock};
ghost use Rattle.inno_types.specs.declared.value.Schema.{Schema};
ghost use Rattle.store_api.specs.declared.moves.Move.TheVariants.{Done};
ghost use Rattle.row_versions.specs.declared.place.Place.{Place};
ghost use Rattle.row_versions.specs.Chains.{Chains};
ghost use Rattle.law_stored_rows.specs.Tables.{Said};
ghost use Rattle.world.specs.State.{WorldState, Session, Work, Logged, HasWork};
ghost use Rattle.world.specs.Told.{IsTold};
ghost use Rattle.world.specs.Undoing.{read_into, ReadsLast, HoldsRecord};
ghost use Rattle.world.specs.declared.undo_room.UndoRoom.{UndoRoom};
ghost use Rattle.law_world_agreement.specs.Agreement.{Agrees};
ghost use Rattle.row_changes.specs.Records.{IsTable};
ghost use Rattle.row_changes.specs.Edits.{FitsEdit};
ghost use Rattle.row_changes.specs.Rows.{IsAtRow, MakesRow};
ghost use Rattle.row_changes.specs.Reached.{Reached};
ghost use Rattle.row_changes.specs.declared.row_edit.RowEdit.{RowEdit};
ghost use Rattle.row_changes.specs.declared.row_change.RowChange.{RowChange};
ghost use Rattle.undo_apply.specs.Stages.{IsPuttingBack, ChangesOneEntry};
ghost use Rattle.undo_apply.specs.declared.work_room.WorkRoom.{WorkRoom};
ghost use Rattle.law_logged_changes.specs.Logs.{LogsAgree};
ghost use Rattle.law_logged_changes.specs.Steps.{ChangesPairsAlone, LeavesRecords};
ghost use Rattle.lock_table.specs.Queue.{AreApart};
ghost use Rattle.desks.specs.declared.desk.Desk.{Desk};
ghost use Rattle.desks.specs.declared.desk.Doing.TheVariants.{Nothing, Changing, Undoing};
ghost use Rattle.desks.specs.Desks.{Store, desk_at, doing_at, with_doing, with_read, with_room};
ghost use Rattle.desks.specs.Holding.{IsLast, IsGoingBack, said_beside};
ghost use Rattle.law_held_steps.specs.Making.{begun, doing_after, made_to};
ghost use Rattle.desks.specs.Holding.{RowsHeld, works_in};
ghost use Rattle.law_locked_rows.specs.Owning.{HasAlone, KeepsAlone};
ghost use Rattle.law_locked_rows.specs.Many.{IsHeldByAll};
ghost use Rattle.law_other_places.specs.Steps.{MayReach, IsReady};
ghost use Rattle.law_locked_rows.specs.Undoing.{IsTakenBack, KeepsAllBut};

/// A change may begin while others are at work: it has no place yet.
pub fn a_change_begins()
    ensures { (t : ℕ) (store : Store) (granted : List Lock) (session : Session) (work : Work) (table : ℕ) (schema : Schema) (edit : RowEdit) (key : List ℕ)
        → IsHeldByAll store granted → IsTold store.world → doing_at t store.desks ≡ Nothing → HasWork t session work store.world
        → IsTable table schema store.world → FitsEdit schema edit key
        → IsHeldByAll (record store { desks = with_doing t (Changing (begun table edit key)) store.desks }) granted }
{}

/// Who has a change at its desk may make its next step, whatever others do.
pub fn a_change_may_go_on()
    ensures { (t : ℕ) (store : Store) (granted : List Lock) (held : IsHeldByAll store granted) (change : RowChange) → doing_at t store.desks ≡ Changing change
        → IsAtRow t held.chains (said_beside held.chains held.rows.said store.world store.desks t) store.world change }
{}

/// The step keeps what is held of all, where the session owns the place at which it is at work behind it, and each keeps its locks.
pub fn a_step_of_a_change_keeps_all()
    ensures { (t : ℕ) (store : Store) (new : WorldState) (granted now : List Lock) (change : RowChange) (reached : Reached RowChange)
        → IsHeldByAll store granted → IsTold store.world → IsTold new → length new.past < 2 ^ 63
        → AreApart now → ((s : ℕ) → KeepsAlone s store.world granted now) → doing_at t store.desks ≡ Changing change
        → ((chains : Chains) (said : Said) → IsAtRow t chains said store.world change → MakesRow t chains said store.world new change reached)
        → MayReach t store.world store.desks change reached
        → ((place : Place) → works_in new t (doing_after change reached) ≡ Some place → HasAlone t place new now)
        → IsHeldByAll (made_to t store new change reached) now }
{}

/// The newest change's undo record is read, and its taking back begins: that keeps what is held.
pub fn a_taking_back_begins()
    ensures { (t : ℕ) (store : Store) (new : WorldState) (granted now : List Lock) (desk : Desk) (logged : Logged) (place : Place) (read : UndoRoom) (there : Bool)
        → IsHeldByAll store granted → desk_at t store.desks ≡ Some desk → IsLast store.world t logged place → IsTold store.world → IsTold new
        → AreApart now → ((s : ℕ) → KeepsAlone s store.world granted now)
        → ReadsLast t t (read_into read) there store.world new Done → IsReady desk.doing → HoldsRecord read
        → IsHeldByAll (record store { world = new; desks = with_read t read store.desks }) now }
{}

/// Who takes a change back knows how far it is, and a step before the last keeps what is held.
pub fn a_taking_back_goes_on()
    ensures known { (t : ℕ) (store : Store) (granted : List Lock) (desk : Desk) (held : IsHeldByAll store granted)
        → desk_at t store.desks ≡ Some desk → desk.doing ≡ Undoing
        → IsGoingBack held.chains (said_beside held.chains held.rows.said store.world store.desks t) store.world t (read_into desk.undo) desk.room }
    ensures kept { (t : ℕ) (store : Store) (new : WorldState) (granted now : List Lock) (desk : Desk) (next : WorkRoom) (held : IsHeldByAll store granted)
        → (going : IsGoingBack held.chains (said_beside held.chains held.rows.said store.world store.desks t) store.world t (read_into desk.undo) desk.room)
        → IsTold store.world → IsTold new → AreApart now → ((s : ℕ) → KeepsAlone s store.world granted now)
        → desk_at t store.desks ≡ Some desk → desk.doing ≡ Undoing
        → LeavesRecords store.world new × ChangesPairsAlone store.world new
        → ((schema : Schema) → slice_get new.schemas (read_into desk.undo).table ≡ Some schema → ChangesOneEntry schema (read_into desk.undo) store.world new)
        → ((index : ℕ) → (new.indexes index).place ≡ (store.world.indexes index).place)
        → IsPuttingBack held.chains (said_beside held.chains held.rows.said store.world store.desks t) going.place (read_into desk.undo) next new
        → IsHeldByAll (record store { world = new; desks = with_room t next store.desks }) now }
{}

/// So does the last step, by which the history tells it; and of a record that goes its lock may go.
pub fn a_change_that_is_taken_back_keeps_all()
    ensures { (t keep : ℕ) (store : Store) (mid cut new : WorldState) (granted now : List Lock) (desk : Desk) (next : WorkRoom) (held : IsHeldByAll store granted)
        → (taken : IsTakenBack t keep store granted held mid cut new desk next)
        → AreApart now → ((s : ℕ) → s ≢ t → KeepsAlone s store.world granted now)
        → KeepsAllBut taken.going.logged.undo taken.back.work.txn granted now
        → IsHeldByAll (record store { world = new; desks = with_doing t Nothing (with_room t next store.desks); cuts = store.cuts + 1 }) now }
{}
