//! What is shown of the database that files stand for: the SQL that makes it anew, or what is counted in it.
//! `script_runner` asks for it, with a database that it has read from files; nothing here changes it.

ghost use Rattle.std.specs.Prelude.{◌≡◌, ◌≤◌, IfOk};
ghost use Rattle.std.specs.String.{string_bytes};
ghost use Rattle.store_api.specs.Causes.{Rose};
ghost use Rattle.sql_history.specs.Counts.{rows_in, most_rows};
ghost use Rattle.script_generator.specs.Dump.{text_of};
ghost use Rattle.run_outcome.specs.Faults.{IsOutputFault, IsPrinted};
ghost use Rattle.run_outcome.specs.Shown.{counts_text, shown_text};

use crate::outcome::{Fault, print_bytes};
use inno_db::Db;
use script_generator::dump_text;
use std::alloc::{AllocError, Global};
use store_api::{NoMemory, Sink};

/// What is shown of a database.
#[derive(Clone, Copy)]
pub enum Shown {
    Sql,
    Counts,
}

/// Prints of a database what is to be shown.
pub fn print_shown<K: Sink>(alloc: Global, db: &Db, shown: Shown, out: &mut K) -> Fault
    requires { rows_in db.now ≤ most_rows }
    ensures printed { IsPrinted result (K.taken out.old) (K.taken out.new) (shown_text shown db.now) }
    ensures output_write { result ≡ Fault.OutputWrite → Rose (K.faults out.old) (K.faults out.new) }
    ensures causes { IsOutputFault result }
{
    match shown {
        Shown::Sql => print_dump(alloc, db, out),
        Shown::Counts => print_counts(alloc, db, out),
    }
}

/// Prints a database as SQL, whose statements make it anew.
fn print_dump<K: Sink>(alloc: Global, db: &Db, out: &mut K) -> Fault
    ensures printed { IsPrinted result (K.taken out.old) (K.taken out.new) (text_of db.now) }
    ensures output_write { result ≡ Fault.OutputWrite → Rose (K.faults out.old) (K.faults out.new) }
    ensures causes { IsOutputFault result }
{
    match dump_text(alloc, db) {
        Ok(bytes) => print_bytes(bytes.as_slice(), out),
        Err(NoMemory) => Fault::NoMemory,
    }
}

/// Prints how many tables and rows there are.
fn print_counts<K: Sink>(alloc: Global, db: &Db, out: &mut K) -> Fault
    requires { rows_in db.now ≤ most_rows }
    ensures printed { IsPrinted result (K.taken out.old) (K.taken out.new) (counts_text db.now) }
    ensures output_write { result ≡ Fault.OutputWrite → Rose (K.faults out.old) (K.faults out.new) }
    ensures causes { IsOutputFault result }
{
    match counts_line(alloc, db) {
        Ok(line) => print_bytes(line.as_bytes(), out),
        Err(AllocError) => Fault::NoMemory,
    }
}

/// The line that counts. The files keep page 0 alone, and rows in their log: so nothing is marked, and no undo log is there.
fn counts_line(alloc: Global, db: &Db) -> Result<String, AllocError>
    requires { rows_in db.now ≤ most_rows }
    ensures { IfOk result (λ line. string_bytes line ≡ counts_text db.now) }
{
    let tables = db.schemas().len();
    let rows = count_rows(db);
    format!(in alloc; "1 pages, {tables} tables, {rows} rows, 0 marked, 0 undo logs\n")
}

/// The number of rows of all tables.
fn count_rows(db: &Db) -> u64
    requires { rows_in db.now ≤ most_rows }
    ensures { result ≡ rows_in db.now }
{
    let mut rows = 0u64;
    for table in 0..db.schemas().len() {
        rows = rows.saturating_add(db.rows(table).len() as u64);
    }
    rows
}
