//! The removal of a pair, one step: the key behind it is looked up, which keeps others from changing keys, and then it goes.
//! `key_steps` and `record_steps` alone call it.

ghost use Rattle.std.specs.Prelude.{◌≡◌, ◌≤◌, vec_capacity};
ghost use Rattle.world.specs.State.{WorldState, IsIndex};
ghost use Rattle.row_changes.specs.Awaited.{AwaitsNoMore};
ghost use Rattle.undo_apply.specs.Removal.{HasNext, RemovesPair};

use inno_types::Bytes;
use store_api::Move;
use world::EngineWorld;

/// Removes the key's pair, or answers `End`. The key behind it is put into `next`. Where a call is put off, nobody stays awaited, and the
/// step begins anew.
pub(crate) fn remove_pair<W: EngineWorld>(
    world: &mut W,
    index: u32,
    actor: u32,
    key: &Bytes,
    next: &mut Vec<u8>,
) -> Move
    requires index { IsIndex (W.state world.old).schemas index }
    requires holds { 67 ≤ vec_capacity next.old }
    ensures removes { RemovesPair actor index key.now (W.state world.old) (W.state world.new) result }
    ensures awaits { AwaitsNoMore (W.state world.old) (W.state world.new) }
    ensures room { vec_capacity next.old ≤ vec_capacity next.new }
{
    match world.next_key(index, actor, key, next) {
        Move::Done | Move::End => remove_before(world, index, actor, key),
        hindrance => hindrance,
    }
}

/// The key behind it is known. The actor leaves the index where the removal is put off.
fn remove_before<W: EngineWorld>(world: &mut W, index: u32, actor: u32, key: &Bytes) -> Move
    requires next { (start : WorldState) × HasNext actor index start (W.state world.old) }
    ensures removes { (start : WorldState) → HasNext actor index start (W.state world.old) → RemovesPair actor index key.now start (W.state world.new) result }
    ensures awaits { (start : WorldState) → HasNext actor index start (W.state world.old) → AwaitsNoMore start (W.state world.new) }
{
    match world.remove(index, actor, key) {
        Move::Done => Move::Done,
        Move::End => Move::End,
        hindrance => {
            world.leave(index, actor);
            hindrance
        }
    }
}
