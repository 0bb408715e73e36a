//! The statements that have neither a condition nor an expression, each from behind its first word:
//! CREATE TABLE, INSERT, those on transactions, and SET. Nothing here knows of tables or sessions.
#![tactic(auto)]

mod rows;
mod settings;
mod table;
mod transactions;

pub use rows::insert;
pub use settings::set;
pub use table::create_table;
pub use transactions::{begin, commit, rollback, savepoint, start};
