//! The ends of deadlocks: of each cycle of waits the victim's request goes, until none is left through the transactions
//! whose waits grew. A store of rows calls it behind a request that waits and behind a record that goes; no statement waits yet.
#![tactic(auto)]

mod settling;

pub use settling::{Fallen, settle_waits};
