//! Granted locks in order of grant, found by their spots and by their transactions, without a walk of the others.
//! Made for a lock table, which keeps its granted locks so from the next step on. No crate uses it yet.
#![tactic(auto)]

mod chains;
mod granted;
mod kept;
mod sought;

pub use chains::Chains;
pub use granted::GrantedLocks;
pub use kept::KeptLock;
pub use sought::Sought;
