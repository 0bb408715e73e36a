//! The bytes of the redo log: groups of changes, and the blocks that they stand in.
//! The log writes them, and a mount reads them. Only the reader knows of a disk, and only reads from it.
#![tactic(auto)]

mod block;
mod fits;
mod group;
mod pieces;
mod reader;
mod reading;
mod scan;
mod write;

pub use block::{put_blocks, put_both_as_blocks};
pub use group::{Group, Groups, Record, Records};
pub use pieces::{is_whole, put_payload, put_payloads};
pub use reader::{Next, ReadBad, Reader};
pub use reading::group_of;
pub use scan::{Found, get_groups, next_group, one_scan, scan_log};
pub use schema_codec::Stop;
pub use write::{put_group, put_group_as, put_head_as, put_removal, put_row, put_table};
