//! From the bytes of a statement to its tree, exactly as the grammar spells it.
//! Nothing here knows of tables: names and sizes are looked at by those who run a statement.
#![tactic(auto)]

mod parser;
mod select;
mod selected;
mod statement;

pub use parser::{NotParsed, parse, tokens_left};
