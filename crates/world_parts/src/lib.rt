//! The parts of a world beside its store: what is kept of a session, its undo records, and the room that the history owes
//! to sessions. `parts_world` alone changes them.
#![tactic(auto)]

mod history_room;
mod holders;
mod open_work;
mod reading;
mod session_room;

pub use history_room::{take_room, take_room_unless};
pub use holders::holder;
pub use open_work::SeenIds;
pub use reading::{copy_ids, copy_undo, read_undo};
pub use session_room::SessionRoom;
