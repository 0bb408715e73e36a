//! Versions of rows as the values of clustered records: mark, writer, roll pointer, and the fields
//! of all columns but the primary one.
//! The layouts stand in specs/Rows.antt; a record's key is written and read by `key_codec`.
#![tactic(auto)]

mod fields;
mod laws;
mod read;
mod refused;
mod write;

pub use laws::{one_length, one_version};
pub use read::{Head, decode, read_head};
pub use refused::RowBad;
pub use write::encode;
