//! The entries by which a stopped engine makes a step. They touch the history alone, and find their room in it.
//! `StoppedSessions::step` alone calls them.

ghost use Rattle.std.specs.Prelude.{◌≡◌, ◌+◌, ◌≤◌, ◌<◌};
ghost use Rattle.sql_history.specs.Counts.{has_stopped};
ghost use Rattle.durable_engine.specs.Seats.{halted, ended, phase_after};

use crate::stopped_seats::Seat;
use inno_model::{Event, History, Phase};
use inno_types::{Cause, Reply};

/// Enters why the engine stopped, unless that is entered already.
pub(crate) fn enter_stop(history: &mut History, entered: bool, cause: Cause)
    requires room { 0 < history.old.room }
    requires told { entered ≡ has_stopped history.old.past }
    ensures names { history.new.names ≡ history.old.names }
    ensures past { history.new.past ≡ halted cause history.old.past }
    ensures room { history.old.room ≤ history.new.room + 1 }
{
    if !entered {
        history.add(Event::Stopped { cause });
    }
}

/// Ends the item of a session that has one under way, with the reply that says of the stop; else the session's ending.
/// Answers how far the session is then.
pub(crate) fn end_turn(history: &mut History, s: u32, seat: Seat) -> Phase
    requires { 0 < history.old.room }
    ensures names { history.new.names ≡ history.old.names }
    ensures past { history.new.past ≡ ended s seat.started seat.phase history.old.past }
    ensures phase { result ≡ phase_after seat.phase }
{
    match seat.phase {
        Phase::Busy => {
            history.add(Event::Ended {
                s,
                j: seat.started,
                reply: Reply::Stopped,
            });
            Phase::Idle
        }
        Phase::Idle | Phase::Leaving | Phase::Left => Phase::Left,
    }
}
