//! The calls of every world. Each is one short step of an actor, a session's by its number.
//! Searches, changes of rows, rollback and `world_lists` make them, and an opening some; `PartsWorld` alone answers
//! them.

ghost use Rattle.std.specs.Prelude.{◌≡◌, ◌≢◌, ℕ, ◌+◌, ◌-◌, ◌≤◌, ◌<◌, ◌^◌, [], false, true, length, slice_get, option_copied, OnOk, OnErr, IfOk, IfSome, IfNone, IsOk, IsSome, Some, None, vec_capacity};
ghost use Rattle.inno_db.specs.declared.change.Change.TheVariants.{Put, Remove};
ghost use Rattle.entries.specs.Calls.{is_done, Seeks, Follows, Fetches, NextKeys, Removes, Tidies, Leaves};
ghost use Rattle.row_versions.specs.Versions.{IsPointer};
ghost use Rattle.row_versions.specs.Calls.{ShowsVersion, ShowsBytes, has_read};
ghost use Rattle.txn_table.specs.Txns.{ids_of, id_at, is_there};
ghost use Rattle.sql_history.specs.Settings.{made_at};
ghost use Rattle.world.specs.State.{WorldState, Session, Work, IsIndex, IsSession, HasWork, standing_of};
ghost use Rattle.world.specs.Indexes.{Calls, Changes, MayBring, InsertsWith, ReplacesWith};
ghost use Rattle.world.specs.Widths.{HasKeyLen, HasValueLen};
ghost use Rattle.world.specs.Undoing.{IsUnchanged, MakesRoom, HoldsRecord, read_into, ReadsLast, CutsBack};
ghost use Rattle.world.specs.Sessions.{IsShown, begun, identified, with_save, back_at_save, with_room, begin_added, view_added, change_added, undone_added};
ghost use Rattle.world.specs.Endings.{Commits, RollsBack, FreesLog};

use crate::undo_room::UndoRoom;
use entries::PairBuffers;
use inno_types::{Bytes, Ids, Level, Row, Schema, Value};
use row_versions::ChainBad;
use store_api::{Move, NoMemory, Standing, Undo, Version, Visit};

/// All that the sessions of one engine share. An actor is a session by its number.
pub trait World {
    /// Everything that is shared, as plain lists.
    ghost state: { Self → WorldState };

    // ---- indexes

    /// Gives the first pair at or above the key, in the memory of the buffers, or answers `End`. The pair is the actor's
    /// place from now on.
    fn seek(&mut self, index: u32, actor: u32, from: &Bytes, buffers: &mut PairBuffers) -> Move
        requires { IsIndex (state self.old).schemas index }
        ensures { Calls index (λ before after. Seeks actor from.now before after result) (state self.old) (state self.new) };

    /// Gives the first pair above the actor's place, in the memory of the buffers, or answers `End`.
    fn following(&mut self, index: u32, actor: u32, buffers: &mut PairBuffers) -> Move
        requires index { IsIndex (state self.old).schemas index }
        requires place { IsSome (((state self.old).indexes index).place actor) }
        ensures { Calls index (λ before after. Follows actor before after result) (state self.old) (state self.new) };

    /// Puts the key's value into `into`, or answers `End`.
    fn fetch(&mut self, index: u32, actor: u32, key: &Bytes, into: &mut Vec<u8>) -> Move
        requires index { IsIndex (state self.old).schemas index }
        requires holds { 1024 ≤ vec_capacity into.old }
        ensures answer { Calls index (λ before after. Fetches actor key.now into.new.items before after result) (state self.old) (state self.new) }
        ensures untouched { is_done result ≡ false → into.new.items ≡ into.old.items }
        ensures room { vec_capacity into.old ≤ vec_capacity into.new };

    /// Puts the first key above this one into `into`, or answers `End`. Until this actor's next `insert` or `remove` there
    /// has ended, or it leaves, no other actor changes the keys.
    fn next_key(&mut self, index: u32, actor: u32, key: &Bytes, into: &mut Vec<u8>) -> Move
        requires index { IsIndex (state self.old).schemas index }
        requires holds { 67 ≤ vec_capacity into.old }
        ensures answer { Calls index (λ before after. NextKeys actor key.now into.new.items before after result) (state self.old) (state self.new) }
        ensures untouched { is_done result ≡ false → into.new.items ≡ into.old.items }
        ensures room { vec_capacity into.old ≤ vec_capacity into.new };

    /// Adds a pair, or answers `At` with the key's pair, which stays. In an index all keys are equally long, and all values
    /// are. The undo record comes with the pair.
    fn insert(
        &mut self,
        index: u32,
        actor: u32,
        key: &Bytes,
        value: &Bytes,
        undo: Option<&Undo>,
    ) -> Move
        requires index { IsIndex (state self.old).schemas index }
        requires key { length key.now ≤ 67 }
        requires value { length value.now ≤ 1024 }
        requires key_len { HasKeyLen (state self.old).schemas index key.now }
        requires value_len { HasValueLen (state self.old).schemas index value.now }
        requires undo { MayBring actor (option_copied undo) (state self.old) }
        ensures { Changes index actor (option_copied undo.entry) (λ before after answer. InsertsWith (option_copied undo.entry) actor key.now value.now before after answer) (state self.old) (state self.new) result };

    /// Gives the key another value, or answers `End`. The undo record comes with the value.
    fn replace(
        &mut self,
        index: u32,
        actor: u32,
        key: &Bytes,
        value: &Bytes,
        undo: Option<&Undo>,
    ) -> Move
        requires index { IsIndex (state self.old).schemas index }
        requires value { length value.now ≤ 1024 }
        requires value_len { HasValueLen (state self.old).schemas index value.now }
        requires undo { MayBring actor (option_copied undo) (state self.old) }
        ensures { Changes index actor (option_copied undo.entry) (λ before after answer. ReplacesWith (option_copied undo.entry) actor key.now value.now before after answer) (state self.old) (state self.new) result };

    /// Removes the key's pair, or answers `End`.
    fn remove(&mut self, index: u32, actor: u32, key: &Bytes) -> Move
        requires { IsIndex (state self.old).schemas index }
        ensures { Calls index (λ before after. Removes actor key.now before after result) (state self.old) (state self.new) };

    /// Merges the pages that the actor left too thin, up to `Done`.
    fn tidy(&mut self, index: u32, actor: u32) -> Move
        requires { IsIndex (state self.old).schemas index }
        ensures { Calls index (λ before after. Tidies actor before after result) (state self.old) (state self.new) };

    /// Drops the actor's place. It is no longer awaited.
    fn leave(&mut self, index: u32, actor: u32)
        requires { IsIndex (state self.old).schemas index }
        ensures { Calls index (Leaves actor) (state self.old) (state self.new) };

    // ---- versions and undo

    /// The version of a roll pointer, or `None` for pointer 0.
    fn version(&mut self, pointer: u64) -> Result<Option<Version>, ChainBad>
        requires { IsPointer pointer (state self.old).versions }
        ensures answer { ShowsVersion pointer (state self.old).versions (state self.new).versions result }
        ensures rest { IsUnchanged (state self.old) (state self.new) };

    /// Puts the encoded version of a pointer into `into`, or answers false for pointer 0.
    fn value(&mut self, pointer: u64, into: &mut Vec<u8>) -> Result<bool, Visit>
        requires pointer { IsPointer pointer (state self.old).versions }
        requires holds { 1024 ≤ vec_capacity into.old }
        ensures answer { ShowsBytes pointer into.new.items (state self.old).versions (state self.new).versions result }
        ensures untouched { has_read result ≡ false → into.new.items ≡ into.old.items }
        ensures room { vec_capacity into.old ≤ vec_capacity into.new }
        ensures rest { IsUnchanged (state self.old) (state self.new) };

    /// Gives the log of the actor's transaction room for one record of so many bytes.
    fn undo_room(&mut self, actor: u32, bytes: u16) -> Move
        requires joined { actor < length (state self.old).sessions }
        requires few { bytes ≤ 4032 }
        ensures { MakesRoom actor bytes (state self.old) (state self.new) result };

    /// The roll pointer that the actor's next undo record will have.
    fn next_pointer(&self, actor: u32) -> u64
        requires { actor < length (state self.now).sessions }
        ensures { (session : Session) → IsSession actor session (state self.now) → result ≡ session.next_pointer };

    /// Reads the newest record of a log, if there is one.
    fn last(&mut self, actor: u32, slot: u8, into: &mut UndoRoom, there: &mut bool) -> Move
        requires joined { slot < length (state self.old).sessions }
        requires holds { HoldsRecord into.old }
        ensures answer { ReadsLast actor slot (read_into into.new) there.new (state self.old) (state self.new) result }
        ensures room { HoldsRecord into.new };

    /// Takes the newest record of a log away.
    fn cut_back(&mut self, actor: u32, slot: u8) -> Move
        requires { (session : Session) × (work : Work) × HasWork slot session work (state self.old) × (work.log ≢ []) }
        ensures { CutsBack actor slot (state self.old) (state self.new) result };

    // ---- transactions

    /// Opens the session's next transaction, and gives its number.
    fn begin(&mut self, s: u32, level: Level) -> Result<u64, NoMemory>
        requires closed { (session : Session) × IsSession s session (state self.old) × (session.work ≡ None) }
        requires few { (state self.old).txns.begun < 2 ^ 64 - 1 }
        ensures number { IfOk result (λ n. n ≡ (state self.old).txns.begun + 1) }
        ensures ok { OnOk result ((session : Session) → IsSession s session (state self.old) → state self.new ≡ begun s level session (state self.old)) }
        ensures err { OnErr result (state self.new ≡ state self.old) };

    /// The id that is given next.
    fn next_id(&self) -> u64
        ensures { result ≡ (state self.now).txns.next };

    /// Gives the transaction its id.
    fn give_id(&mut self, txn: u64) -> u64
        requires there { is_there txn (state self.old).txns.open_txns }
        requires none { id_at txn (state self.old).txns.open_txns ≡ 0 }
        requires fits { (state self.old).txns.next < 2 ^ 64 - 1 }
        ensures id { result ≡ (state self.old).txns.next }
        ensures given { state self.new ≡ identified txn (state self.old) };

    /// Puts the ids that were given and not ended into `out`, in order of begin.
    fn active(&self, out: &mut Ids) -> Result<(), NoMemory>
        ensures ok { OnOk result (out.new ≡ ids_of (state self.now).txns.open_txns) }
        ensures err { OnErr result (out.new ≡ out.old) };

    /// Keeps a savepoint of the transaction, which has made so many changes. It takes the place of one of its name.
    fn savepoint(&mut self, txn: u64, name: &Bytes, own: u64) -> Result<(), NoMemory>
        requires { is_there txn (state self.old).txns.open_txns }
        ensures ok { OnOk result (state self.new ≡ with_save txn name.now own (state self.old)) }
        ensures err { OnErr result (state self.new ≡ state self.old) };

    /// How many changes the transaction had made at its savepoint. The later ones go.
    fn find_savepoint(&mut self, txn: u64, name: &Bytes) -> Option<u64>
        requires { is_there txn (state self.old).txns.open_txns }
        ensures found { (s : ℕ) (session : Session) (work : Work) → HasWork s session work (state self.old) → work.txn ≡ txn → result ≡ made_at name.now session.setting.saves }
        ensures some { IfSome result (λ _. state self.new ≡ back_at_save txn name.now (state self.old)) }
        ensures none { IfNone result (state self.new ≡ state self.old) };

    /// Commits the session's open transaction. The history tells it, and it is to be acknowledged. It takes no memory.
    fn commit(&mut self, s: u32) -> Move
        requires { (session : Session) × (work : Work) × HasWork s session work (state self.old) × (work.can_end ≡ true) }
        ensures { Commits s (state self.old) (state self.new) result };

    /// Ends the session's open transaction, whose changes are taken back. The history tells it. It takes no memory.
    fn roll_back(&mut self, s: u32) -> Move
        requires { (session : Session) × (work : Work) × HasWork s session work (state self.old) × (work.can_end ≡ true) }
        ensures { RollsBack s (state self.old) (state self.new) result };

    /// Gives back what the log of the session's last transaction kept, up to `Done`. It takes no memory.
    fn free_log(&mut self, s: u32) -> Move
        requires { (session : Session) × IsSession s session (state self.old) × (session.work ≡ None) }
        ensures { FreesLog s (state self.old) (state self.new) result };

    // ---- the history

    /// Takes the room for one Begin, and for one change of a row with its Undone.
    fn event_room(&mut self, s: u32) -> Result<(), NoMemory>
        requires { s < length (state self.old).sessions }
        ensures ok { OnOk result ((session : Session) → IsSession s session (state self.old) → state self.new ≡ with_room s session (state self.old)) }
        ensures err { OnErr result (state self.new ≡ state self.old) };

    /// Adds the entry of a transaction that has begun.
    fn add_begin(&mut self, s: u32, txn: u64, level: Level) -> Result<(), NoMemory>
        requires { (session : Session) × (work : Work) × HasWork s session work (state self.old) × (work.txn ≡ txn) × (work.level ≡ level) }
        ensures ok { OnOk result ((session : Session) (work : Work) → HasWork s session work (state self.old) → state self.new ≡ begin_added s txn level session work (state self.old)) }
        ensures err { OnErr result (state self.new ≡ state self.old) }
        ensures sure { (session : Session) → IsSession s session (state self.old) → session.can_begin ≡ true → IsOk result };

    /// Adds the entry of a view, which the transaction keeps.
    fn add_view(&mut self, s: u32, active: &Ids, next: u64) -> Result<(), NoMemory>
        requires { (session : Session) × (work : Work) × HasWork s session work (state self.old) }
        ensures ok { OnOk result ((session : Session) (work : Work) → HasWork s session work (state self.old) → state self.new ≡ view_added s active.now next session work (state self.old)) }
        ensures err { OnErr result (state self.new ≡ state self.old) };

    /// Adds the entry of a row that was put.
    fn add_put(&mut self, s: u32, table: u8, row: Row) -> Result<(), NoMemory>
        requires { (session : Session) × (work : Work) × HasWork s session work (state self.old) }
        ensures ok { OnOk result ((session : Session) (work : Work) → HasWork s session work (state self.old) → state self.new ≡ change_added s (Put table row) 1 session work (state self.old)) }
        ensures err { OnErr result (state self.new ≡ state self.old) }
        ensures sure { (session : Session) → IsSession s session (state self.old) → session.can_change ≡ true → IsOk result };

    /// Adds the entry of a row that was removed.
    fn add_remove(&mut self, s: u32, table: u8, key: Value) -> Result<(), NoMemory>
        requires { (session : Session) × (work : Work) × HasWork s session work (state self.old) }
        ensures ok { OnOk result ((session : Session) (work : Work) → HasWork s session work (state self.old) → state self.new ≡ change_added s (Remove table key) 0 session work (state self.old)) }
        ensures err { OnErr result (state self.new ≡ state self.old) }
        ensures sure { (session : Session) → IsSession s session (state self.old) → session.can_change ≡ true → IsOk result };

    /// Adds the entry of a change that was put back. It takes no memory.
    fn add_undone(&mut self, s: u32, keep: u64)
        requires { (session : Session) × (work : Work) × HasWork s session work (state self.old) × (0 < work.own) }
        ensures { (session : Session) (work : Work) → HasWork s session work (state self.old) → state self.new ≡ undone_added s keep session work (state self.old) };

    // ---- what is read

    /// The table of a number, and `None` from the number of tables on.
    fn schema(&self, table: u8) -> Option<&Schema>
        ensures { option_copied result ≡ slice_get (state self.now).schemas table };

    /// Where a session stands.
    fn session(&self, s: u32) -> Standing
        requires { s < length (state self.now).sessions }
        ensures { (session : Session) → IsSession s session (state self.now) → result ≡ standing_of session };

    /// Puts the active ids of the view that the open transaction keeps into `into`, and gives the view's next id.
    fn view(&self, s: u32, into: &mut Ids) -> Result<Option<u64>, NoMemory>
        requires { (session : Session) × (work : Work) × HasWork s session work (state self.now) }
        ensures shown { IfOk result (λ next. (session : Session) (work : Work) → HasWork s session work (state self.now) → IsShown work.view into.new next) }
        ensures err { OnErr result (into.new ≡ into.old) };

    /// How many rows the history holds.
    fn rows(&self) -> u64
        ensures { result ≡ (state self.now).rows };
}
