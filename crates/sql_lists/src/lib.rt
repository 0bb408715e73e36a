//! The lists that all sessions share, whatever keeps them, by the rules of SQL. Each entry that is added may follow by
//! these: the history is legal, which is the invariant. Statements work on these.
#![tactic(auto)]

mod advance;
mod lists;

pub use advance::Advance;
pub use lists::SqlLists;
