//! A step of an engine, whichever it is: of sessions that run, of an engine that stops by it, or of one that has
//! stopped. `DurableEngine` alone calls these, and lends its disk to a step.

ghost use Rattle.std.specs.Prelude.{◌≡◌, ◌<◌, length, true, IfSome, OnOk, OnErr};
ghost use Rattle.session_engine.specs.Calls.{GivesUpInVain};
ghost use Rattle.session_engine.specs.Places.{HasExactPlaces};
ghost use Rattle.store_api.specs.Past.{Past};
ghost use Rattle.commit_log.specs.View.{IsLogging};
ghost use Rattle.durable_engine.specs.Seats.{phase_at};
ghost use Rattle.law_crashes.specs.Since.{KeepsSince};
ghost use Rattle.durable_engine.specs.StoppedCalls.{is_at_work, Starts as StoppedStarts, SameState as StoppedSameState, StepsBy as StoppedStepsBy};
ghost use Rattle.durable_engine.specs.State.{state_of, running_state, IsJoined, IsWorking, IsKeptRunning, IsKept};
ghost use Rattle.durable_engine.specs.Calls.{StepsBy, KeepsTime, StopsBy};
ghost use Rattle.durable_engine.specs.Going.{Nears, NearsLacking};

use crate::parts::Core;
use crate::{LoggedSessions, StoppedSessions};
use inno_model::Phase;
use inno_types::{Cause, Item};
use shared_lists::SharedLists;
use store_api::{Disk, Failed, NoMemory, Progress};

/// A step of the session.
pub(crate) fn step_of<D: Disk, L: SharedLists>(
    core: Core<L>,
    s: u32,
    now: u64,
    disk: &mut D,
) -> (Core<L>, Progress)
    requires joined { IsJoined s (state_of disk.old core) }
    requires working { IsWorking s (state_of disk.old core) }
    requires kept { (root : Past) × IsKept root (D.past disk.old) core }
    ensures steps { StepsBy s result.1 (state_of disk.old core) (state_of disk.new result.0) }
    ensures nears { Nears s result.1 (state_of disk.old core) (state_of disk.new result.0) }
    ensures lacks { NearsLacking s result.1 (state_of disk.old core) (state_of disk.new result.0) }
    ensures time { KeepsTime s now (D.past disk.new).moment result.1 (state_of disk.old core) (state_of disk.new result.0) }
    ensures waited { IfSome (state_of disk.old core).running (GivesUpInVain s now result.1) }
    ensures kept { (root : Past) → IsKept root (D.past disk.old) core → IsKept root (D.past disk.new) result.0 }
{
    match core {
        Core::Running(sessions) => run_on(sessions, s, now, disk),
        Core::Stopped(mut sessions) => {
            let progress = step_stopped(&mut sessions, s);
            (Core::Stopped(sessions), progress)
        }
        Core::Changing => unreachable!(),
    }
}

/// A step of a session that runs. Where the disk fails, it is the first one of an engine that has stopped.
fn run_on<D: Disk, L: SharedLists>(
    sessions: LoggedSessions<L>,
    s: u32,
    now: u64,
    disk: &mut D,
) -> (Core<L>, Progress)
    requires joined { IsJoined s (running_state disk.old sessions) }
    requires working { IsWorking s (running_state disk.old sessions) }
    requires kept { (root : Past) × IsLogging root (D.past disk.old) sessions.sessions.lists.past sessions.log }
    ensures steps { StepsBy s result.1 (running_state disk.old sessions) (state_of disk.new result.0) }
    ensures nears { Nears s result.1 (running_state disk.old sessions) (state_of disk.new result.0) }
    ensures lacks { NearsLacking s result.1 (running_state disk.old sessions) (state_of disk.new result.0) }
    ensures time { KeepsTime s now (D.past disk.new).moment result.1 (running_state disk.old sessions) (state_of disk.new result.0) }
    ensures waited { GivesUpInVain s now result.1 sessions.sessions }
    ensures kept { (root : Past) → IsKeptRunning root (D.past disk.old) sessions → IsKept root (D.past disk.new) result.0 }
{
    let mut sessions = sessions;
    if !sessions.owes_ack(s) {
        let progress = sessions.step(s, now);
        return (Core::Running(sessions), progress);
    }
    match sessions.acknowledge(s, disk) {
        Ok(()) => (Core::Running(sessions), Progress::Went),
        Err(Failed) => {
            let (stopped, progress) = stop(sessions, s);
            (Core::Stopped(stopped), progress)
        }
    }
}

/// The first step of an engine that stops here, since its disk has failed.
fn stop<L: SharedLists>(sessions: LoggedSessions<L>, s: u32) -> (StoppedSessions, Progress)
    requires joined { s < length sessions.sessions.lists.names }
    requires working { is_at_work (phase_at sessions.seats s) ≡ true }
    ensures stops { StopsBy s result.1 sessions result.0 }
    ensures kept { (root now : Past) → KeepsSince root now sessions.sessions.lists.past → KeepsSince root now result.0.past }
    ensures exact { HasExactPlaces result.0.past }
{
    let (history, seats) = sessions.into_parts();
    let mut stopped = StoppedSessions::new(history, seats, Cause::Disk);
    let progress = stopped.step(s);
    (stopped, progress)
}

/// A step of a session of an engine that has stopped.
fn step_stopped(sessions: &mut StoppedSessions, s: u32) -> Progress
    requires joined { s < length sessions.old.names }
    requires working { is_at_work (phase_at sessions.old.seats s) ≡ true }
    ensures steps { StoppedStepsBy s result sessions.old sessions.new }
    ensures cause { sessions.new.cause ≡ sessions.old.cause }
    ensures kept { (root now : Past) → KeepsSince root now sessions.old.past → KeepsSince root now sessions.new.past }
    ensures exact { HasExactPlaces sessions.old.past → HasExactPlaces sessions.new.past }
{
    sessions.step(s)
}

/// Starts an item of a session of an engine that has stopped.
pub(crate) fn start_stopped(
    sessions: &mut StoppedSessions,
    s: u32,
    item: &Item,
) -> Result<(), NoMemory>
    requires joined { s < length sessions.old.names }
    requires idle { phase_at sessions.old.seats s ≡ Phase.Idle }
    ensures ok { OnOk result (StoppedStarts s item.now sessions.old sessions.new) }
    ensures err { OnErr result (StoppedSameState sessions.old sessions.new) }
    ensures cause { sessions.new.cause ≡ sessions.old.cause }
    ensures kept { (root now : Past) → KeepsSince root now sessions.old.past → KeepsSince root now sessions.new.past }
    ensures exact { HasExactPlaces sessions.old.past → HasExactPlaces sessions.new.past }
{
    sessions.start(s, item)
}
