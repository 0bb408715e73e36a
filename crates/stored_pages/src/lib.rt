//! Pages as they are stored: their number, LSN and sum, and which of the copies in the area Double is the newest good one.
//! Mounts and whoever writes pages call it; nothing here meets the disk, or knows what else stands in a page.
#![tactic(auto)]

mod copies;
mod heads;
pub mod layout;
mod words;

pub use copies::{copy_at, good_number, newest_copy, newest_slot, number_of_copy, restorable};
pub use heads::{lsn_in, number_in};
pub use words::{read_u16, read_u32, read_u64};
