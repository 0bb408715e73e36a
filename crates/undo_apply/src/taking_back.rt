//! One change is taken back, a call of the world a step, or the two of a removal. Rows of other places may change between the steps: what keys say of
//! those is a parameter of each step.

ghost use Rattle.std.specs.Prelude.{◌≡◌};
ghost use Rattle.row_changes.specs.Awaited.{AwaitsNoMore};
ghost use Rattle.row_versions.specs.declared.place.Place.{Place};
ghost use Rattle.row_versions.specs.Chains.{Chains};
ghost use Rattle.law_stored_rows.specs.Tables.{Said};
ghost use Rattle.world.specs.Told.{TellsTogether};
ghost use Rattle.undo_apply.specs.Stages.{IsPuttingBack, PutsBack};

use crate::key_steps::{look_at_key, mark, remove_entry, unmark, walk};
use crate::record_steps::{find, put_record};
use crate::work_room::{Stage, WorkRoom};
use store_api::{Move, Undo};
use world::EngineWorld;

/// One step of the taking back of the change that an undo record tells of. What keys say of other places may be anything, and
/// the step leaves it; what is known of this place must hold yet when the next step begins, and nobody is awaited then. After `Step`, `Latch` and `Again`
/// the same call is to be made again. After `Done` the room serves another change; the same one once more is left as it is.
pub fn put_back<W: EngineWorld>(world: &mut W, actor: u32, undo: &Undo, room: &mut WorkRoom) -> Move
    requires under_way { (chains : Chains) × (beside : Said) × (place : Place) × IsPuttingBack chains beside place undo.now room.old (W.state world.old) }
    requires together { TellsTogether (W.state world.old) }
    ensures puts { (chains : Chains) (beside : Said) (place : Place) → IsPuttingBack chains beside place undo.now room.old (W.state world.old)
        → PutsBack chains beside place actor undo.now room.old room.new (W.state world.old) (W.state world.new) result }
    ensures awaits { AwaitsNoMore (W.state world.old) (W.state world.new) }
{
    match room.stage {
        Stage::Find => find(world, actor, undo, room),
        Stage::Key { which } => look_at_key(world, undo, room, which),
        Stage::Walk { which, pointer } => walk(world, undo, room, which, pointer),
        Stage::Mark { which } => mark(world, actor, undo, room, which),
        Stage::Remove { which } => remove_entry(world, actor, undo, room, which),
        Stage::Unmark { which } => unmark(world, actor, undo, room, which),
        Stage::Record => put_record(world, actor, undo, room),
    }
}
