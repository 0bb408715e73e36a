//! What each session has changed and not yet committed: a list for each session that has changed something, by number,
//! the oldest change first. Sessions behind the last list have none.

ghost use Rattle.std.specs.Prelude.{◌≡◌, ℕ, ◌<◌, [], ◌∷◌, ◌++◌, length, vec_len, take, OnOk};
ghost use Rattle.run_outcome.specs.Pending.{changes_of, Becomes};

use inno_db::Change;
use inno_types::Listed;
use std::alloc::Global;
use std::mem;
use store_api::NoMemory;

/// Takes the session's changes out, and leaves none.
pub(crate) fn take_changes(
    alloc: Global,
    pending: &mut Vec<Listed<Change>>,
    session: u32,
) -> Listed<Change>
    ensures was { result ≡ changes_of session pending.old.items }
    ensures none { Becomes session [] pending.old.items pending.new.items }
    ensures as_many { vec_len pending.new ≡ vec_len pending.old }
{
    let session = session as usize;
    if session >= pending.len() {
        return Listed::new(alloc);
    }
    mem::replace(&mut pending[session], Listed::new(alloc))
}

/// Adds a change of the session.
pub(crate) fn add_change(
    alloc: Global,
    pending: &mut Vec<Listed<Change>>,
    session: u32,
    change: Change,
) -> Result<(), NoMemory>
    ensures { OnOk result (Becomes session (changes_of session pending.old.items ++ change ∷ []) pending.old.items pending.new.items) }
{
    reach(alloc, pending, session)?;
    let mut changes = take_changes(alloc, pending, session);
    changes.push(change)?;
    pending[session as usize] = changes;
    Ok(())
}

/// Makes lists up to that of the session.
fn reach(alloc: Global, pending: &mut Vec<Listed<Change>>, session: u32) -> Result<(), NoMemory>
    ensures there { OnOk result (session < vec_len pending.new) }
    ensures same { OnOk result ((t : ℕ) → changes_of t pending.new.items ≡ changes_of t pending.old.items) }
{
    for _ in pending.len()..=session as usize {
        pending.push(Listed::new(alloc))?;
    }
    Ok(())
}

/// Leaves the session's first changes, so many of them.
pub(crate) fn keep_changes(
    alloc: Global,
    pending: &mut Vec<Listed<Change>>,
    session: u32,
    keep: u64,
)
    ensures { Becomes session (take keep (changes_of session pending.old.items)) pending.old.items pending.new.items }
{
    if session as usize >= pending.len() {
        return;
    }
    let mut changes = take_changes(alloc, pending, session).into_vec();
    changes.truncate(keep as usize);
    pending[session as usize] = Listed::from_vec(changes);
}
