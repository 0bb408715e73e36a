//! The steps that deal with the record: it is found first, and put back last.
//! `put_back` alone calls these, by the stage that the room is in.

ghost use Rattle.std.specs.Prelude.{◌≡◌, ◌*◌, ◌↔◌, IsTrue, Some};
ghost use Rattle.law_stored_rows.specs.Edits.{clustered_index};
ghost use Rattle.row_changes.specs.Awaited.{AwaitsNoMore};
ghost use Rattle.row_versions.specs.declared.place.Place.{Place};
ghost use Rattle.row_versions.specs.Chains.{Chains};
ghost use Rattle.law_stored_rows.specs.Tables.{Said};
ghost use Rattle.undo_apply.specs.Standing.{was_before};
ghost use Rattle.undo_apply.specs.Stages.{IsPuttingBack, PutsBack};

use crate::moves::{end, go_to};
use crate::removal::remove_pair;
use crate::work_room::{Stage, WorkRoom};
use inno_db::index_number;
use store_api::{Move, Undo, UndoKind};
use world::{EngineWorld, World};

/// The number of the table's clustered index.
fn records_of(undo: &Undo) -> u32
    ensures { result ≡ clustered_index undo.now.table }
{
    index_number(undo.table, 0)
}

/// Whether these bytes are the version that was there before the change.
fn is_version_before(undo: &Undo, value: &[u8]) -> bool
    ensures { IsTrue result ↔ (Some value.now ≡ was_before undo.now) }
{
    undo.kind != UndoKind::NewRow as u8 && value == undo.value.as_slice()
}

pub(crate) fn find<W: World>(world: &mut W, actor: u32, undo: &Undo, room: &mut WorkRoom) -> Move
    requires under_way { (chains : Chains) × (beside : Said) × (place : Place) × IsPuttingBack chains beside place undo.now room.old (W.state world.old) }
    requires stage { room.old.stage ≡ Stage.Find }
    ensures puts { (chains : Chains) (beside : Said) (place : Place) → IsPuttingBack chains beside place undo.now room.old (W.state world.old)
        → PutsBack chains beside place actor undo.now room.old room.new (W.state world.old) (W.state world.new) result }
    ensures awaits { AwaitsNoMore (W.state world.old) (W.state world.new) }
{
    match world.fetch(records_of(undo), actor, &undo.key, &mut room.newest) {
        Move::Done => {
            if is_version_before(undo, room.newest.as_slice()) {
                return Move::Done;
            }
            go_to(room, Stage::Key { which: 0 })
        }
        Move::End => Move::Done,
        hindrance => hindrance,
    }
}

pub(crate) fn put_record<W: EngineWorld>(
    world: &mut W,
    actor: u32,
    undo: &Undo,
    room: &mut WorkRoom,
) -> Move
    requires under_way { (chains : Chains) × (beside : Said) × (place : Place) × IsPuttingBack chains beside place undo.now room.old (W.state world.old) }
    requires stage { room.old.stage ≡ Stage.Record }
    ensures puts { (chains : Chains) (beside : Said) (place : Place) → IsPuttingBack chains beside place undo.now room.old (W.state world.old)
        → PutsBack chains beside place actor undo.now room.old room.new (W.state world.old) (W.state world.new) result }
    ensures awaits { AwaitsNoMore (W.state world.old) (W.state world.new) }
{
    if undo.kind == UndoKind::NewRow as u8 {
        let answer = remove_pair(world, records_of(undo), actor, &undo.key, &mut room.next);
        return end(room, answer);
    }
    let answer = world.replace(records_of(undo), actor, &undo.key, &undo.value, None);
    end(room, answer)
}
