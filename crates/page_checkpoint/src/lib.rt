//! A checkpoint: page 0 says a new run, so that the log begins anew. It is made once nothing is left to be flushed, and the laws
//! of `new_runs` tell what a crash leaves meanwhile.
//! Whoever has the pool, the log and the disk calls `checkpoint`; after it no group may be appended to the old log.
#![tactic(auto)]

mod beginning;
mod checking;
mod header;
mod making;
mod new_runs;
mod placing;
mod premise;

pub use beginning::begin_log;
pub use checking::{CheckpointBad, NewRun};
pub use making::checkpoint;
pub use new_runs::{
    a_checkpoint_begins_a_run, a_crash_leaves_one_of_both_runs, a_placed_checkpoint_stays,
};
pub use premise::a_flushed_run_may_end;
