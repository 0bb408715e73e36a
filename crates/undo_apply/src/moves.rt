//! How a step that was made, or not, leaves the room.
//! `key_steps` and `record_steps` alone end their steps by these.

ghost use Rattle.std.specs.Prelude.{◌≡◌};
ghost use Rattle.undo_apply.specs.Moves.{WentOn, WentOnOrEnded, Ended};

use crate::work_room::{Stage, WorkRoom};
use store_api::Move;

/// The stage is another from now on.
pub(crate) fn go_to(room: &mut WorkRoom, next: Stage) -> Move
    ensures step { result ≡ Move.Step }
    ensures room { room.new ≡ record room.old { stage = next } }
{
    room.stage = next;
    Move::Step
}

/// Where the call was done, the stage is another from now on.
pub(crate) fn go_on(room: &mut WorkRoom, answer: Move, next: Stage) -> Move
    ensures { WentOn next answer room.old room.new result }
{
    match answer {
        Move::Done => go_to(room, next),
        hindrance => hindrance,
    }
}

/// Where there was nothing to be done, that is as good as done.
pub(crate) fn go_on_or_end(room: &mut WorkRoom, answer: Move, next: Stage) -> Move
    ensures { WentOnOrEnded next answer room.old room.new result }
{
    match answer {
        Move::Done | Move::End => go_to(room, next),
        hindrance => hindrance,
    }
}

/// Where the call was done, all is.
pub(crate) fn end(room: &mut WorkRoom, answer: Move) -> Move
    ensures { Ended answer room.old room.new result }
{
    match answer {
        Move::Done => {
            room.stage = Stage::Find;
            Move::Done
        }
        hindrance => hindrance,
    }
}
