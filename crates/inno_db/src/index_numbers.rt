//! The number under which the index of a table is known, in memory and in pages.
//! Searches, changes, rollback and the catalog name their indexes by it.

ghost use Rattle.std.specs.Prelude.{◌≡◌};
ghost use Rattle.inno_db.specs.Indexes.{index_of};

use crate::limits::INDEXES_OF_TABLE;

/// The number of a table's index: 0 is the clustered one, its keys follow in their order.
pub fn index_number(table: u8, which: u8) -> u32
    ensures { result ≡ index_of table which }
{
    INDEXES_OF_TABLE * u32::from(table) + u32::from(which)
}
