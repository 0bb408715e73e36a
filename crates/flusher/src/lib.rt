//! Changed pages on their way from the pool to the disk: first their log, then copies of them, then each page in place.
//! Nobody else writes pages of a pool. The pool's pages stay as they are; some are clean afterwards.
#![tactic(auto)]

mod between;
mod flusher;
mod gathering;
mod settling;
mod work;

pub use between::{a_run_outlasts_the_log, kept_pages_outlast_changes};
pub use flusher::Flusher;
pub use work::Worked;
