//! Which session has a transaction.
//! `parts_world` alone asks; the rooms of sessions are only read.

ghost use Rattle.std.specs.Prelude.{◌≡◌, MatchOption};
ghost use Rattle.world_parts.specs.Holding.{Holds, NoneHolds};

use crate::session_room::SessionRoom;

/// The session whose open transaction has this number.
pub fn holder(sessions: &[SessionRoom], txn: u64) -> Option<usize>
    ensures { MatchOption result (NoneHolds txn sessions.now) (λ s. Holds txn s sessions.now) }
{
    for (s, room) in sessions.iter().enumerate() {
        if room.is_of(txn) {
            return Some(s);
        }
    }
    None
}
