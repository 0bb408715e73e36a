//! What statements ask of the lists that all sessions share, whatever keeps them: transactions, searches, changes of rows
//! and the history. Each call is one short step of one session, and adds at most one entry, which comes in order. What a
//! session has under way with rows is kept between its steps. The calls know no language.
#![tactic(auto)]

mod answers;
mod shared_lists;

pub use answers::{ChangePart, Changed, Hindrance, Reading, Searched, Undone};
pub use shared_lists::SharedLists;
