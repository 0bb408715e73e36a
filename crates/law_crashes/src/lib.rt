//! Laws: what a crash leaves of the files while an engine runs, over a past of entries, a log and a disk. Each function has
//! an empty body: its contract is the law. An engine that owns its disk keeps `IsDurable` by them, entry by entry and call
//! by call; what it promises is `KeepsSince`.
#![tactic(auto)]

mod files;
mod keeping;

pub use files::{
    an_engine_goes_on_from_a_mount, files_stand_for_one_database, files_that_were_read_stand,
};
pub use keeping::{
    a_commit_is_logged, a_commit_without_changes_needs_no_group, a_flush_keeps_every_commit,
    an_acknowledgement_waits_for_the_log, an_entry_leaves_the_log,
};
