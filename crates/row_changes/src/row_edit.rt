//! What becomes of a row: it is put at its key, or removed from there.
//! `world_lists` makes one of a statement's change; the machines of this crate carry it out.

use inno_types::{Row, Value};

/// What becomes of the row of a place.
#[derive(Drop)]
pub enum RowEdit {
    /// This row is put there: a new one, or in place of what is there.
    Put(Row),
    /// The row with this value of the primary key is removed.
    Remove(Value),
}
