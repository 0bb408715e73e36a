//! Values of SQL: names looked up, conditions and expressions on a row, the rows that INSERT and UPDATE make, and the schema
//! that a CREATE TABLE declares. Engines and the plain interpreter call it; nothing here changes a database.
#![tactic(auto)]

mod condition;
mod declaration;
mod expression;
mod names;
mod operand;
mod storing;

pub use condition::{compare, evaluate, is_match};
pub use declaration::declare;
pub use expression::{compute, given};
pub use names::{is_same_column, is_same_table, place_of_column, place_of_name, place_of_table};
pub use operand::{in_column, of_literal, of_operand};
pub use storing::{assign_all, make_row, place_of_value};
