//! How many rows a history holds, which its limit counts.
//! Worlds ask for a reply's rows as its item ends (`rows_of_reply`); a history is only read.

ghost use Rattle.std.specs.Prelude.{◌≡◌};
ghost use Rattle.sql_history.specs.Counts.{capped, rows_of_reply, rows_in, rows_of_entry, rows_kept};

use inno_model::{Change, Db, Event, History};
use inno_types::Reply;

/// How many rows a reply has.
pub fn rows_of_reply(reply: &Reply) -> u64
    ensures exact { result ≡ rows_of_reply reply.now }
    ensures capped { result ≡ capped (rows_of_reply reply.now) }
{
    match reply {
        Reply::Rows(rows) => rows.len() as u64,
        Reply::Done
        | Reply::Count(_)
        | Reply::Fail(_)
        | Reply::RunLimit { .. }
        | Reply::NotSignalled { .. }
        | Reply::Stopped
        | Reply::NoMemory => 0,
    }
}

fn rows_in(db: &Db) -> u64
    ensures { result ≡ capped (rows_in db.now) }
{
    let mut total = 0u64;
    for table in 0..db.schemas().len() {
        total = total.saturating_add(db.rows(table).len() as u64);
    }
    total
}

fn rows_of_entry(event: &Event) -> u64
    ensures { result ≡ capped (rows_of_entry event.now) }
{
    match event {
        Event::Opened { db } => rows_in(db),
        Event::Changed {
            change: Change::Put { .. },
            ..
        } => 1,
        Event::Ended { reply, .. } => rows_of_reply(reply),
        Event::Started { .. }
        | Event::Begin { .. }
        | Event::View { .. }
        | Event::Changed { .. }
        | Event::Undone { .. }
        | Event::Committed { .. }
        | Event::RolledBack { .. }
        | Event::Waits { .. }
        | Event::Victim { .. }
        | Event::Acked { .. }
        | Event::Signal { .. }
        | Event::Stopped { .. } => 0,
    }
}

/// How many rows a history holds: those of its opening, those that were put, and those of replies. The count stands
/// still at its type's end.
pub fn rows_kept(history: &History) -> u64
    ensures { result ≡ capped (rows_kept history.now.past) }
{
    let mut total = 0u64;
    for event in history.events() {
        total = total.saturating_add(rows_of_entry(event));
    }
    total
}
