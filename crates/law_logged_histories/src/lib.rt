//! Laws of histories and the log: the log can make each table that a legal history tells of, and has a record of each change.
//! The functions have empty bodies: their contracts are the laws. Who writes the log may cite them.
#![tactic(auto)]

mod laws;
mod loggable;

pub use laws::{each_change_has_a_record, each_table_can_be_logged};
pub use loggable::{a_change_that_fits_has_a_record, a_spelled_table_can_be_logged};
