//! The history's room: what it owes to sessions, and room for more.
//! `parts_world` takes room by these before it adds entries; rooms of sessions are only read.

ghost use Rattle.std.specs.Prelude.{◌≡◌, ◌+◌, ◌<◌, ◌≤◌, ◌^◌, true, SomeIff, OnOk, OnErr, IsOk, take};
ghost use Rattle.inno_model.specs.Recorded.{SameEntries};
ghost use Rattle.world_parts.specs.Owed.{bit, owed_of, owed_by_all};

use crate::session_room::SessionRoom;
use inno_model::History;
use store_api::NoMemory;

/// How many entries the history has room for on behalf of all sessions, if that number fits.
fn owed_by_all(sessions: &[SessionRoom]) -> Option<u64>
    ensures { SomeIff result (owed_by_all sessions.now < 2 ^ 64) (owed_by_all sessions.now) }
{
    let mut total = 0u64;
    for room in sessions {
        total = total.checked_add(room.owed()?)?;
    }
    Some(total)
}

/// Takes room for `more` entries beside those that are owed: to sessions, and one for each request that waits for a lock,
/// which tells that it ends as a victim.
pub fn take_room(
    history: &mut History,
    sessions: &[SessionRoom],
    requests: usize,
    more: u64,
) -> Result<(), NoMemory>
    ensures ok { OnOk result (owed_by_all sessions.now + requests + more ≤ history.new.room) }
    ensures fits { OnOk result (owed_by_all sessions.now + requests + more < 2 ^ 64) }
    ensures same { SameEntries history.old history.new }
    ensures kept { history.old.room ≤ history.new.room }
    ensures err { OnErr result (history.new ≡ history.old) }
{
    let owed = owed_by_all(sessions).ok_or(NoMemory)?;
    let with_victims = owed.checked_add(requests as u64).ok_or(NoMemory)?;
    let wanted = with_victims.checked_add(more).ok_or(NoMemory)?;
    history.reserve(wanted as usize)?;
    Ok(())
}

/// The same, where that room isn't owed yet.
pub fn take_room_unless(
    owed: bool,
    history: &mut History,
    sessions: &[SessionRoom],
    requests: usize,
    more: u64,
) -> Result<(), NoMemory>
    requires enough { owed_by_all sessions.now + requests ≤ history.old.room }
    requires small { owed_by_all sessions.now + requests < 2 ^ 64 }
    ensures ok { OnOk result (owed_by_all sessions.now + requests + more ≤ history.new.room + bit more owed) }
    ensures fits { OnOk result (owed_by_all sessions.now + requests + more < 2 ^ 64 + bit more owed) }
    ensures same { SameEntries history.old history.new }
    ensures kept { history.old.room ≤ history.new.room }
    ensures err { OnErr result (history.new ≡ history.old) }
    ensures sure { owed ≡ true → IsOk result }
{
    if owed {
        return Ok(());
    }
    take_room(history, sessions, requests, more)
}
