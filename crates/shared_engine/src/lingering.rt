//! A step of a session, which may linger: a commit that is yet to be acknowledged waits some steps for the commits of others, so
//! that one flush serves them all.

ghost use Rattle.std.specs.Prelude.{◌≡◌, ℕ, ◌+◌, ◌<◌, ◌≤◌, ◌↔◌, true, false, IsTrue, slice_index};
ghost use Rattle.durable_engine.specs.State.{IsJoined, IsWorking, owes_ack};
ghost use Rattle.durable_engine.specs.Calls.{StepsBy};
ghost use Rattle.durable_engine.specs.Going.{Nears};
ghost use Rattle.shared_engine.specs.Lingering.{MayCommit, Lingers};

use crate::patience::{LONGEST, Patience};
use durable_engine::{DurableEngine, Root};
use shared_lists::SharedLists;
use store_api::{Disk, MOST_SESSIONS, Progress};

/// A step of the session. While its commit may wait for others, the step lingers: nothing is done, and one step less is left.
/// Otherwise it is the engine's. Where that flushes, every commit is served.
pub(crate) fn step_of<D: Disk, R: Root, L: SharedLists>(
    engine: &mut DurableEngine<D, R, L>,
    left: &mut Patience,
    s: u32,
    now: u64,
) -> Progress
    requires joined { IsJoined s engine.old }
    requires working { IsWorking s engine.old }
    ensures steps { StepsBy s result engine.old engine.new }
    ensures lingers { Lingers s (slice_index left.old s) engine.old → (result ≡ Progress.Went) × (engine.new ≡ engine.old) × (slice_index left.new s + 1 ≡ slice_index left.old s) }
    ensures goes { (Lingers s (slice_index left.old s) engine.old → ⊥) → Nears s result engine.old engine.new }
    ensures begins { owes_ack s engine.old ≡ false → owes_ack s engine.new ≡ true → s < MOST_SESSIONS → (0 < slice_index left.new s) × (slice_index left.new s ≤ LONGEST) }
    // What is left to a commit never grows.
    ensures bounded { owes_ack s engine.old ≡ true → slice_index left.new s ≤ slice_index left.old s }
{
    if lingers(engine, left, s) {
        left.spend(s);
        return Progress::Went;
    }
    if engine.owes_ack(s) {
        if left.of(s) > 0 {
            left.end_all();
        }
        return engine.step(s, now);
    }
    let progress = engine.step(s, now);
    note(engine, left, s);
    progress
}

/// Where the session's step has left it with a commit that is yet to be acknowledged, that begins to wait.
fn note<D: Disk, R: Root, L: SharedLists>(
    engine: &DurableEngine<D, R, L>,
    left: &mut Patience,
    s: u32,
)
    requires { IsJoined s engine.now }
    ensures waits { owes_ack s engine.now ≡ true → s < MOST_SESSIONS → (0 < slice_index left.new s) × (slice_index left.new s ≤ LONGEST) }
    ensures rests { owes_ack s engine.now ≡ false → left.new ≡ left.old }
{
    if engine.owes_ack(s) {
        left.renew(s);
    }
}

/// Whether the session's next step lingers: its commit is yet to be acknowledged, steps are left to it, and another session
/// may still commit.
pub(crate) fn lingers<D: Disk, R: Root, L: SharedLists>(
    engine: &DurableEngine<D, R, L>,
    left: &Patience,
    s: u32,
) -> bool
    requires { IsJoined s engine.now }
    ensures { IsTrue result ↔ Lingers s (slice_index left.now s) engine.now }
{
    if !engine.owes_ack(s) {
        return false;
    }
    if left.of(s) <= 1 {
        return false;
    }
    has_company(engine, s)
}

/// Whether another session may still commit.
fn has_company<D: Disk, R: Root, L: SharedLists>(engine: &DurableEngine<D, R, L>, s: u32) -> bool
    ensures { IsTrue result ↔ (other : ℕ) × MayCommit s other engine.now }
{
    for other in 0..MOST_SESSIONS {
        if may_commit(engine, s, other as u32) {
            return true;
        }
    }
    false
}

/// Whether this other session may still commit: it is at work, and owes no acknowledgement itself.
fn may_commit<D: Disk, R: Root, L: SharedLists>(
    engine: &DurableEngine<D, R, L>,
    s: u32,
    other: u32,
) -> bool
    requires { other < MOST_SESSIONS }
    ensures { IsTrue result ↔ MayCommit s other engine.now }
{
    if other == s {
        return false;
    }
    if other as usize >= engine.history().names().len() {
        return false;
    }
    if !engine.is_working(other) {
        return false;
    }
    !engine.owes_ack(other)
}
