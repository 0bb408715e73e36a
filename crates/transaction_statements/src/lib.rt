//! The statements on transactions as machines: BEGIN, COMMIT, ROLLBACK, savepoints, and what a session sets. Each step
//! adds at most one entry to the history, and steps of other sessions may come between.
#![tactic(auto)]

mod command;
mod commits;
mod committer;
mod endings;
mod rollbacks;
mod savepoints;
mod setter;
mod statement;

pub use command::Command;
pub use committer::Committer;
pub use setter::Setter;
pub use statement::TransactionStatement;
