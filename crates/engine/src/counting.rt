//! How many rows a database has.
//! An opening asks as it ends, for the count that its world starts with; no row is changed here.

ghost use Rattle.std.specs.Prelude.{◌≡◌, ◌≤◌, length};
ghost use Rattle.inno_db.specs.declared.limits.TheConstants.{MOST_TABLES};
ghost use Rattle.sql_history.specs.Counts.{rows_in, capped};

use inno_db::Db;

/// The number of rows of all tables.
pub fn rows_in(db: &Db) -> u64
    ensures counted { result ≡ capped (rows_in db.now) }
    ensures few { length db.now.schemas ≤ MOST_TABLES }
{
    let mut rows = 0u64;
    for table in 0..db.schemas().len() {
        rows = rows.saturating_add(db.rows(table).len() as u64);
    }
    rows
}
