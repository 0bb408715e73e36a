//! The limits of tables and databases.
//! `sql_values` and `sql_refusals` refuse what is beyond them; catalog, log and worlds count on that.

/// The most columns of a table.
pub const MOST_COLUMNS: usize = 16;

/// The most secondary keys of a table.
pub const MOST_KEYS: usize = 4;

/// The longest VARBINARY that an index holds.
pub const MOST_BYTES_OF_INDEX: u8 = 32;

/// The longest row, its key and its fields.
pub const MOST_BYTES_OF_ROW: usize = 1000;

/// How many numbers of indexes each table has, of which it uses one for its rows and one for each of its keys.
pub const INDEXES_OF_TABLE: u32 = 8;

/// The most tables of a database.
pub const MOST_TABLES: usize = 16;
