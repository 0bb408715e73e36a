//! CREATE TABLE as a machine: it commits what is open, and makes its table in a transaction of its own, which begins and
//! commits in one step. Steps of other sessions may come between its steps.
#![tactic(auto)]

mod asking;
mod ending;
mod machine;
mod planning;

pub use machine::CreateStatement;
