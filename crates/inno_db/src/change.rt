//! What a statement changes in a database.
//! Statements make them, `Db` carries them out, and histories and the log tell them.

use inno_types::{Row, Schema, Value};

/// A change of a database. A put takes the whole row.
#[derive(Drop)]
pub enum Change {
    Create { schema: Schema },
    Put { table: u8, row: Row },
    Remove { table: u8, key: Value },
}
