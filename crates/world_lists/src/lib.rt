//! What all sessions share, kept in a world: transactions and the history are the world's, and what a session has under way
//! with rows (a search, a change of a row, a change that is taken back) is kept here between its steps. Statements see it
//! through the trait `SharedLists`.
#![tactic(auto)]

mod creating;
mod keys;
mod lists;
mod reading;
mod steps;
mod undoing;

pub use lists::WorldLists;
