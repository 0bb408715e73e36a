//! The locks of all transactions: those granted, in order of grant, and the requests that wait, first come, first
//! served. The world keeps one table for all sessions, and `deadlock` reads it. The rules stand in `lock_rules`. No key
//! is longer than 67 bytes, so that a lock moves without memory.
#![tactic(auto)]

mod kept;
mod laws;
mod lists;
mod room;
mod table;
mod wait;

pub use kept::KeptLock;
pub use laws::{insertion_keeps_coverage, removal_keeps_coverage};
pub use room::{CycleRoom, EdgeRoom};
pub use table::LockTable;
pub use wait::Wait;
