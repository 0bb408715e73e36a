//! Databases, their changes, and what statements make of them.
//! The definitions stand in specs/; every crate that speaks of rows or statements cites them.
#![tactic(auto)]

mod change;
mod data_type;
mod datum;
mod db;
mod index_numbers;
mod kinds;
mod limits;
mod outcome;
mod rows;
mod truth;

pub use change::Change;
pub use data_type::DataType;
pub use datum::{Datum, at_place, is_null_datum, of_value, order, to_value};
pub use db::Db;
pub use index_numbers::index_number;
pub use kinds::{is_short, is_sized};
pub use limits::{
    INDEXES_OF_TABLE, MOST_BYTES_OF_INDEX, MOST_BYTES_OF_ROW, MOST_COLUMNS, MOST_KEYS, MOST_TABLES,
};
pub use outcome::{Changes, Outcome, Written};
pub use rows::key_of_row;
pub use truth::Truth;
