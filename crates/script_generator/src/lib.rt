//! Scripts that are made: of a database, the statements that make it anew (`dump_text`); or of a number, transfers between bank
//! accounts (`generate`). All of it is over values in memory. Nothing here meets the engine or the outside.
#![tactic(auto)]

mod accounts;
mod dump;
mod dump_pieces;
mod pieces;
mod rows;
mod sessions;
mod tables;
mod transfer;

pub use dump::dump_text;
pub use sessions::generate;
