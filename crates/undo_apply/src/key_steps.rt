//! The steps that deal with the entries of one secondary key: the newest row's is marked, or removed where no older version
//! has its value; then that of the row before is unmarked.

ghost use Rattle.std.specs.Prelude.{◌≡◌, ℕ, ◌*◌, ◌+◌, ◌<◌, ◌≤◌, if◌then◌else◌, ◌↔◌, length, slice_get, IsTrue, Some};
ghost use Rattle.inno_types.specs.declared.value.Schema.{Schema as ASchema};
ghost use Rattle.store_api.specs.declared.answers.Version.{Version};
ghost use Rattle.row_codec.specs.Rows.{IsRecordOf, IsVersion};
ghost use Rattle.law_stored_rows.specs.Edits.{key_index};
ghost use Rattle.row_changes.specs.Awaited.{AwaitsNoMore};
ghost use Rattle.row_versions.specs.declared.place.Place.{Place};
ghost use Rattle.row_versions.specs.Chains.{Chains};
ghost use Rattle.law_stored_rows.specs.Tables.{Said};
ghost use Rattle.secondary.specs.Entries.{entry_of};
ghost use Rattle.undo_apply.specs.Moves.{HasKeyAt, LooksOn};
ghost use Rattle.undo_apply.specs.Standing.{had_row as row_was_there};
ghost use Rattle.world.specs.Told.{TellsTogether};
ghost use Rattle.undo_apply.specs.Stages.{IsPuttingBack, PutsBack};

use crate::entry_room::EntryRoom;
use crate::moves::{go_on, go_on_or_end, go_to};
use crate::record_bytes::{is_marked, pointer_of};
use crate::removal::remove_pair;
use crate::work_room::{Stage, WorkRoom};
use inno_db::index_number;
use store_api::{Move, Undo, UndoKind, Visit};
use world::{EngineWorld, World};

/// The number of the index of a key.
fn entries_of(undo: &Undo, which: u8) -> u32
    ensures { result ≡ key_index undo.now.table which }
{
    index_number(undo.table, which) + 1
}

/// Whether there was a row before the change.
fn had_row(undo: &Undo) -> bool
    ensures { result ≡ row_was_there undo.now }
{
    undo.kind != UndoKind::NewRow as u8 && undo.value.as_slice().first().copied().unwrap_or(1) == 0
}

/// What comes once the newest row's entry has been dealt with.
fn after_entry(undo: &Undo, which: u8) -> Stage
    requires { which < 255 }
    ensures { result ≡ (if row_was_there undo.now then Stage.Unmark which else Stage.Key (which + 1)) }
{
    if had_row(undo) {
        Stage::Unmark { which }
    } else {
        Stage::Key { which: which + 1 }
    }
}

/// Writes the entry that a record of the undo record's key has.
fn write_entry<W: World>(
    world: &W,
    undo: &Undo,
    which: u8,
    value: &[u8],
    entries: &mut EntryRoom,
) -> bool
    requires { HasKeyAt (W.state world.now) undo.now.table which }
    ensures { (schema : ASchema) (version : Version) → slice_get (W.state world.now).schemas undo.now.table ≡ Some schema
        → IsVersion version → IsRecordOf schema version undo.now.key value.now
        → length (entry_of schema (which + 1) version.row undo.now.key) ≤ 67
        → IsTrue result × (entries.new ≡ entry_of schema (which + 1) version.row undo.now.key) }
{
    let schema = world.schema(undo.table).unwrap();
    entries.write(schema, which + 1, undo.key.as_slice(), value)
}

/// Whether two records of the undo record's key have one entry.
fn have_one_entry<W: World>(
    world: &W,
    undo: &Undo,
    which: u8,
    one: &[u8],
    other: &[u8],
    entries: &mut EntryRoom,
) -> bool
    requires { HasKeyAt (W.state world.now) undo.now.table which }
    ensures { (schema : ASchema) (first second : Version) → slice_get (W.state world.now).schemas undo.now.table ≡ Some schema
        → IsVersion first → IsVersion second
        → IsRecordOf schema first undo.now.key one.now → IsRecordOf schema second undo.now.key other.now
        → length (entry_of schema (which + 1) first.row undo.now.key) ≤ 67
        → length (entry_of schema (which + 1) second.row undo.now.key) ≤ 67
        → IsTrue result ↔ (entry_of schema (which + 1) first.row undo.now.key ≡ entry_of schema (which + 1) second.row undo.now.key) }
{
    let schema = world.schema(undo.table).unwrap();
    entries.is_same(schema, which + 1, undo.key.as_slice(), one, other)
}

/// How many keys the table has.
fn number_of_keys<W: World>(world: &W, undo: &Undo) -> usize
    ensures { (schema : ASchema) → slice_get (W.state world.now).schemas undo.now.table ≡ Some schema → result ≡ length schema.keys }
{
    match world.schema(undo.table) {
        Some(schema) => schema.keys.len(),
        None => 0,
    }
}

pub(crate) fn look_at_key<W: World>(world: &W, undo: &Undo, room: &mut WorkRoom, which: u8) -> Move
    requires under_way { (chains : Chains) × (beside : Said) × (place : Place) × IsPuttingBack chains beside place undo.now room.old (W.state world.now) }
    requires stage { room.old.stage ≡ Stage.Key which }
    ensures { (chains : Chains) (beside : Said) (place : Place) (actor : ℕ) → IsPuttingBack chains beside place undo.now room.old (W.state world.now)
        → PutsBack chains beside place actor undo.now room.old room.new (W.state world.now) (W.state world.now) result }
{
    if usize::from(which) >= number_of_keys(world, undo) {
        return go_to(room, Stage::Record);
    }
    if is_marked(&room.newest) {
        return go_to(room, after_entry(undo, which));
    }
    let pointer = pointer_of(&room.newest);
    if had_row(undo)
        && have_one_entry(
            world,
            undo,
            which,
            &room.newest,
            undo.value.as_slice(),
            &mut room.entries,
        )
    {
        return go_to(room, Stage::Unmark { which });
    }
    go_to(room, Stage::Walk { which, pointer })
}

pub(crate) fn walk<W: World>(
    world: &mut W,
    undo: &Undo,
    room: &mut WorkRoom,
    which: u8,
    pointer: u64,
) -> Move
    requires under_way { (chains : Chains) × (beside : Said) × (place : Place) × IsPuttingBack chains beside place undo.now room.old (W.state world.old) }
    requires together { TellsTogether (W.state world.old) }
    requires stage { room.old.stage ≡ Stage.Walk which pointer }
    ensures puts { (chains : Chains) (beside : Said) (place : Place) (actor : ℕ) → IsPuttingBack chains beside place undo.now room.old (W.state world.old)
        → PutsBack chains beside place actor undo.now room.old room.new (W.state world.old) (W.state world.new) result }
    ensures awaits { AwaitsNoMore (W.state world.old) (W.state world.new) }
{
    match world.value(pointer, &mut room.older) {
        Ok(true) => look_at_version(world, undo, room, which),
        Ok(false) => go_to(room, Stage::Remove { which }),
        Err(Visit::Failed) => Move::Failed,
        Err(Visit::Again) => Move::Again,
        Err(Visit::Bad { page, rule }) => Move::Bad { page, rule },
    }
}

/// An older version was read: it has the newest row's value, or the walk goes on behind it.
fn look_at_version<W: World>(world: &W, undo: &Undo, room: &mut WorkRoom, which: u8) -> Move
    requires { HasKeyAt (W.state world.now) undo.now.table which }
    ensures { LooksOn (W.state world.now) undo.now which room.old room.new result }
{
    let pointer = pointer_of(&room.older);
    if !is_marked(&room.older)
        && have_one_entry(
            world,
            undo,
            which,
            &room.newest,
            &room.older,
            &mut room.entries,
        )
    {
        return go_to(room, Stage::Mark { which });
    }
    go_to(room, Stage::Walk { which, pointer })
}

pub(crate) fn mark<W: World>(
    world: &mut W,
    actor: u32,
    undo: &Undo,
    room: &mut WorkRoom,
    which: u8,
) -> Move
    requires under_way { (chains : Chains) × (beside : Said) × (place : Place) × IsPuttingBack chains beside place undo.now room.old (W.state world.old) }
    requires stage { room.old.stage ≡ Stage.Mark which }
    ensures puts { (chains : Chains) (beside : Said) (place : Place) → IsPuttingBack chains beside place undo.now room.old (W.state world.old)
        → PutsBack chains beside place actor undo.now room.old room.new (W.state world.old) (W.state world.new) result }
    ensures awaits { AwaitsNoMore (W.state world.old) (W.state world.new) }
{
    if !write_entry(world, undo, which, &room.newest, &mut room.entries) {
        return Move::NoMemory;
    }
    let answer = world.replace(
        entries_of(undo, which),
        actor,
        room.entries.entry(),
        &room.marked,
        None,
    );
    go_on(room, answer, after_entry(undo, which))
}

pub(crate) fn remove_entry<W: EngineWorld>(
    world: &mut W,
    actor: u32,
    undo: &Undo,
    room: &mut WorkRoom,
    which: u8,
) -> Move
    requires under_way { (chains : Chains) × (beside : Said) × (place : Place) × IsPuttingBack chains beside place undo.now room.old (W.state world.old) }
    requires stage { room.old.stage ≡ Stage.Remove which }
    ensures puts { (chains : Chains) (beside : Said) (place : Place) → IsPuttingBack chains beside place undo.now room.old (W.state world.old)
        → PutsBack chains beside place actor undo.now room.old room.new (W.state world.old) (W.state world.new) result }
    ensures awaits { AwaitsNoMore (W.state world.old) (W.state world.new) }
{
    if !write_entry(world, undo, which, &room.newest, &mut room.entries) {
        return Move::NoMemory;
    }
    let answer = remove_pair(
        world,
        entries_of(undo, which),
        actor,
        room.entries.entry(),
        &mut room.next,
    );
    go_on_or_end(room, answer, after_entry(undo, which))
}

pub(crate) fn unmark<W: World>(
    world: &mut W,
    actor: u32,
    undo: &Undo,
    room: &mut WorkRoom,
    which: u8,
) -> Move
    requires under_way { (chains : Chains) × (beside : Said) × (place : Place) × IsPuttingBack chains beside place undo.now room.old (W.state world.old) }
    requires stage { room.old.stage ≡ Stage.Unmark which }
    ensures puts { (chains : Chains) (beside : Said) (place : Place) → IsPuttingBack chains beside place undo.now room.old (W.state world.old)
        → PutsBack chains beside place actor undo.now room.old room.new (W.state world.old) (W.state world.new) result }
    ensures awaits { AwaitsNoMore (W.state world.old) (W.state world.new) }
{
    if !write_entry(world, undo, which, undo.value.as_slice(), &mut room.entries) {
        return Move::NoMemory;
    }
    let answer = world.replace(
        entries_of(undo, which),
        actor,
        room.entries.entry(),
        &room.unmarked,
        None,
    );
    go_on(room, answer, Stage::Key { which: which + 1 })
}
