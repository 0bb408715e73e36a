//! How long the record of a change may be, and which tables the log can make.
//! Drafts take `MOST_RECORD` bytes for a change before it is made; `engine` asks before it keeps tables.

ghost use Rattle.std.specs.Prelude.{◌↔◌, IsTrue};
ghost use Rattle.commit_log.specs.Room.{IsLoggable};

use inno_db::{MOST_COLUMNS, MOST_KEYS};
use inno_types::Schema;
use schema_codec::schema_fits;

/// The most bytes of a change's record. The longest is that of a table of 16 columns and 4 keys with names of 255 bytes.
pub const MOST_RECORD: usize = 5_433;

/// Whether the log can make the table, and hold each row that fits it.
pub fn is_loggable(schema: &Schema) -> bool
    ensures { IsTrue result ↔ IsLoggable schema.now }
{
    schema_fits(schema) && schema.columns.len() <= MOST_COLUMNS && schema.keys.len() <= MOST_KEYS
}
