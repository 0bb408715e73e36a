//! Takes the newest change of a transaction back: its entries in secondary keys first, its record last. Rollback and
//! refused statements drive it, one step a call; it takes no memory.
#![tactic(auto)]

mod entry_room;
mod key_steps;
mod laws;
mod moves;
mod record_bytes;
mod record_room;
mod record_steps;
mod removal;
mod taking_back;
mod work_room;

pub use entry_room::EntryRoom;
pub use laws::{nothing_hinders_at_hand, others_leave_it};
pub use record_room::RecordRoom;
pub use taking_back::put_back;
pub use work_room::{Stage, WorkRoom};
