//! The redo log: groups go into it in order, and a flush brings them onto the disk. Whoever changes pages or rows
//! appends here first. Else the log area gets only zeros: of a mount (`file_zero`), behind the last whole group, and
//! where a log is begun anew (`page_checkpoint`).
#![tactic(auto)]

mod body;
mod log;
mod room;
mod written;

pub use log::{Log, goes_on_before_zeros, stands_for_what_is_left};
pub use written::Written;
