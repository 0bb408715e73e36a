//! The replay itself: entry by entry, the oldest first.
//! `line` asks for the database of its totals; the history stays as it is, for all is copied first.

ghost use Rattle.std.specs.Prelude.{◌≡◌, reverse, IfOk, OnOk};
ghost use Rattle.inno_db.specs.Keyed.{IsKeyed};
ghost use Rattle.inno_model.specs.Past.{changed, commits, opening, db_after};
ghost use Rattle.run_outcome.specs.Replay.{CanReplay, OpensOnce};
ghost use Rattle.run_outcome.specs.Entries.{GoesOn};

use crate::changes::make_from_back;
use crate::copies::{copied_change, copied_db};
use crate::pending::{add_change, keep_changes, take_changes};
use inno_db::{Change, Db};
use inno_model::{Event, History};
use inno_types::Listed;
use std::alloc::Global;
use store_api::NoMemory;

/// The database after all commits of the history.
pub fn committed_db(alloc: Global, history: &History) -> Result<Db, NoMemory>
    requires { CanReplay history.now.past }
    ensures { IfOk result (λ db. db ≡ db_after (commits history.now.past) history.now.past) }
{
    replayed_db(alloc, history)
}

/// The same of a history whose changes were not looked at: one that can't be made is answered as out of memory. The rows at
/// its opening stand at their keys, or nothing is said.
pub fn replayed_db(alloc: Global, history: &History) -> Result<Db, NoMemory>
    requires { OpensOnce history.now.past }
    ensures { IfOk result (λ db. IsKeyed (opening history.now.past) → db ≡ db_after (commits history.now.past) history.now.past) }
{
    let mut db = Db::new(Listed::new(alloc), Listed::new(alloc));
    let mut pending = Vec::new(alloc);
    for event in history.events() {
        replay_entry(alloc, &mut db, &mut pending, event)?;
    }
    drop(pending);
    Ok(db)
}

/// What an entry makes of the database, and of the changes that are not yet committed.
fn replay_entry(
    alloc: Global,
    db: &mut Db,
    pending: &mut Vec<Listed<Change>>,
    event: &Event,
) -> Result<(), NoMemory>
    ensures { OnOk result (GoesOn event.now db.old pending.old.items db.new pending.new.items) }
{
    match event {
        Event::Opened { db: opened } => {
            *db = copied_db(alloc, opened)?;
        }
        Event::Changed { s, change } => {
            add_change(alloc, pending, *s, copied_change(change)?)?;
        }
        Event::Undone { s, keep } => keep_changes(alloc, pending, *s, *keep),
        Event::Begin { s, .. } | Event::RolledBack { s } => {
            drop(take_changes(alloc, pending, *s));
        }
        Event::Committed { s } => {
            let changes = take_changes(alloc, pending, *s);
            make_changes(alloc, db, changes)?;
        }
        Event::Started { .. }
        | Event::View { .. }
        | Event::Waits { .. }
        | Event::Victim { .. }
        | Event::Ended { .. }
        | Event::Acked { .. }
        | Event::Signal { .. }
        | Event::Stopped { .. } => {}
    }
    Ok(())
}

/// Makes the changes, the first of them first.
fn make_changes(alloc: Global, db: &mut Db, changes: Listed<Change>) -> Result<(), NoMemory>
    ensures { OnOk result (db.new ≡ changed db.old (reverse changes)) }
{
    let mut left = changes.into_vec();
    left.reverse();
    make_from_back(alloc, db, left)
}
