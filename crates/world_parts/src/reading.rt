//! What is copied out of a world.
//! `parts_world` alone calls these, for answers that outlast the call.

ghost use Rattle.std.specs.Prelude.{◌≡◌, ◌≤◌, IfOk, OnErr, true, false, length, option_copied, vec_capacity};
ghost use Rattle.world.specs.Undoing.{HoldsRecord, IsRead, read_into};
ghost use Rattle.world_parts.specs.Rooms.{IsShortRecord};
ghost use Rattle.std.specs.Prelude.{IfSome};

use index_store::copy_into;
use inno_types::Ids;
use std::alloc::{AllocError, Global};
use store_api::Undo;
use world::UndoRoom;

/// The same ids.
pub fn copy_ids(alloc: Global, ids: &Ids) -> Result<Ids, AllocError>
    ensures { IfOk result (λ copy. copy ≡ ids.now) }
{
    Ok(Ids::from_vec(Vec::from_slice(alloc, ids.as_slice())?))
}

/// Puts the record into the room, if there is one.
pub fn read_undo(undo: Option<&Undo>, into: &mut UndoRoom) -> bool
    requires holds { HoldsRecord into.old }
    requires short { IfSome undo (λ undo. IsShortRecord undo.now) }
    ensures read { IsRead (option_copied undo.entry) (read_into into.new) result }
    ensures room { HoldsRecord into.new }
{
    match undo {
        Some(undo) => {
            into.kind = undo.kind;
            into.table = undo.table;
            copy_into(undo.key.as_slice(), &mut into.key);
            copy_into(undo.value.as_slice(), &mut into.value);
            true
        }
        None => false,
    }
}

/// The same record.
pub fn copy_undo(undo: &Undo) -> Result<Undo, AllocError>
    ensures { IfOk result (λ copy. copy ≡ undo.now) }
{
    Ok(Undo {
        kind: undo.kind,
        table: undo.table,
        key: undo.key.copied()?,
        value: undo.value.copied()?,
    })
}
