//! One turn of a seat: it takes the engine, makes one call of it or some steps of its item, and hands it back with the entries
//! that were added. No other file of this crate touches the gate's steps.

ghost use Rattle.std.specs.Prelude.{◌≡◌, ℕ, ◌+◌, ◌<◌, [], ◌∷◌, length, IfOk, OnOk, OnErr};
ghost use Rattle.inno_model.specs.declared.event.Event.TheVariants.{Started};
ghost use Rattle.inno_model.specs.declared.board.Phase.TheVariants.{Idle, Busy, Leaving};
ghost use Rattle.inno_model.specs.Boards.{phase_of};
ghost use Rattle.turn_rule.specs.Steps.{HasTurn};
ghost use Rattle.turn_engine.specs.Calls.{IsUnderWay, StepsBy, item_number, reply_of};
ghost use Rattle.turn_engine.specs.Turns.{Rests, Went, StepWent, HasJoined, HasToWait, reply_in};

use crate::turns::Turns;
use crossbeam_utils::Backoff;
use inno_types::{Bytes, Item, Reply};
use std::sync::Wait;
use std::time::Clock as Timer;
use store_api::{NoMemory, Progress};
use turn_rule::{Gate, Pass};

/// How many steps a session makes in one turn at most. Others that wait for the turn sleep and are woken, which takes longer
/// than some dozens of steps.
const MOST_STEPS: u32 = 64;

/// How long a session stays away from the turn after its steps.
#[derive(Clone, Copy)]
pub enum Pause {
    /// It takes the turn again at once.
    No,
    /// Others that are ready come first.
    Short,
    /// Others have to bring something about first, or memory to come free.
    Long,
}

/// What a step came to.
#[derive(Drop)]
pub enum Stepped {
    /// The item has ended with this reply, or the session has left.
    Over(Reply),
    GoesOn(Pause),
}

/// Waits for the turn, and takes the engine. After a miss it pauses, at each further one for longer, and in the end it sleeps
/// until the turn is given up.
fn take_turn<E: Turns, R: Wait>(rt: &R, gate: &Gate<E>, pass: &mut Pass<E>, s: u32) -> E
    requires gate { pass.old.table_id ≡ gate.now }
    requires rests { Rests pass.old.me s }
    ensures gate { (pass.new.table_id ≡ pass.old.table_id) × (pass.new.id ≡ pass.old.id) }
    ensures turn { HasTurn E.board pass.old.me result pass.new.me }
{
    let backoff = Backoff::new();
    for _ in rt.forever() {
        match gate.try_take(pass, s) {
            Ok(engine) => return engine,
            Err(found) if backoff.is_completed() => gate.wait(rt, found),
            Err(_) => backoff.snooze(),
        }
    }
    unreachable!()
}

/// Starts an item. `len` becomes the length of the history that the seat has seen.
pub fn start_turn<E: Turns, R: Wait>(
    rt: &R,
    gate: &Gate<E>,
    pass: &mut Pass<E>,
    len: &mut u64,
    s: u32,
    item: &Item,
) -> Result<(), NoMemory>
    requires gate { pass.old.table_id ≡ gate.now }
    requires rests { Rests pass.old.me s }
    requires idle { phase_of pass.old.me.0.mine.seen s ≡ Idle }
    requires takes { E.takes item.now }
    ensures gate { (pass.new.table_id ≡ pass.old.table_id) × (pass.new.id ≡ pass.old.id) }
    ensures rests { Rests pass.new.me s }
    ensures len { len.new ≡ length pass.new.me.0.mine.seen.past }
    ensures ok { OnOk result (Went s pass.old.me.0.mine.seen pass.new.me.0.mine.seen (Started s (item_number s pass.old.me.0.mine.seen) item.now ∷ []) Busy) }
    ensures err { OnErr result (Went s pass.old.me.0.mine.seen pass.new.me.0.mine.seen [] Idle) }
{
    let mut engine = take_turn(rt, gate, pass, s);
    let started = engine.start(s, item);
    *len = engine.len();
    gate.hand_back(pass, engine, *len);
    started
}

/// Makes steps of the session's item, or of its ending, all at one moment.
pub fn step_turn<E: Turns, R: Wait + Timer>(
    rt: &R,
    gate: &Gate<E>,
    pass: &mut Pass<E>,
    len: &mut u64,
    s: u32,
    now: u64,
) -> Stepped
    requires gate { pass.old.table_id ≡ gate.now }
    requires rests { Rests pass.old.me s }
    requires under_way { IsUnderWay (phase_of pass.old.me.0.mine.seen s) }
    ensures gate { (pass.new.table_id ≡ pass.old.table_id) × (pass.new.id ≡ pass.old.id) }
    ensures rests { Rests pass.new.me s }
    ensures len { len.new ≡ length pass.new.me.0.mine.seen.past }
    ensures went { StepWent s pass.old.me.0.mine.seen (phase_of pass.old.me.0.mine.seen s) (reply_in result) pass.new.me.0.mine.seen }
{
    let mut engine = take_turn(rt, gate, pass, s);
    let progress = timed_steps(rt, &mut engine, s, now);
    let lingers = engine.lingers(s);
    *len = engine.len();
    gate.hand_back(pass, engine, *len);
    after(progress, lingers)
}

/// Steps of the session, until one ends what is under way or doesn't go on, until others should come to their turns first, or
/// until it has made as many as a turn has at most.
fn timed_steps<E: Turns, R: Timer>(rt: &R, engine: &mut E, s: u32, now: u64) -> Progress
    requires joined { s < length (E.board engine.old).names }
    requires under_way { IsUnderWay (phase_of (E.board engine.old) s) }
    ensures { StepsBy s (E.board engine.old) (phase_of (E.board engine.old) s) (reply_of result) (E.board engine.new) }
{
    for _ in 1..MOST_STEPS {
        match timed_step(rt, engine, s, now) {
            Progress::Went if !engine.lingers(s) => (),
            progress => return progress,
        }
    }
    timed_step(rt, engine, s, now)
}

/// A step of the engine, which hears how long it took.
fn timed_step<E: Turns, R: Timer>(rt: &R, engine: &mut E, s: u32, now: u64) -> Progress
    requires joined { s < length (E.board engine.old).names }
    requires under_way { IsUnderWay (phase_of (E.board engine.old) s) }
    ensures { StepsBy s (E.board engine.old) (phase_of (E.board engine.old) s) (reply_of result) (E.board engine.new) }
{
    let began = microseconds(rt);
    let progress = engine.step(s, now);
    let ended = microseconds(rt);
    engine.took(ended.saturating_sub(began));
    progress
}

/// The time by the machine's own clock, or 0 where that can't be read.
fn microseconds<R: Timer>(rt: &R) -> u64 {
    match rt.monotonic() {
        Ok(time) => u64::try_from(time.as_micros()).unwrap_or(u64::MAX),
        Err(_) => 0,
    }
}

/// What a step came to, by its answer. Where others or memory are wanting, the session stays away from the turn for long.
fn after(progress: Progress, lingers: bool) -> Stepped
    ensures reply { reply_in result ≡ reply_of progress }
    ensures pause { HasToWait progress → result ≡ Stepped.GoesOn Pause.Long }
{
    match progress {
        Progress::Done(reply) => Stepped::Over(reply),
        Progress::Stopped(_) => Stepped::Over(Reply::Stopped),
        Progress::Waiting { .. } | Progress::NotYet | Progress::NoMemory => {
            Stepped::GoesOn(Pause::Long)
        }
        Progress::Went | Progress::Latch { .. } | Progress::Idle => {
            Stepped::GoesOn(if lingers { Pause::Short } else { Pause::No })
        }
    }
}

/// Begins the session's ending.
pub fn leave_turn<E: Turns, R: Wait>(
    rt: &R,
    gate: &Gate<E>,
    pass: &mut Pass<E>,
    len: &mut u64,
    s: u32,
)
    requires gate { pass.old.table_id ≡ gate.now }
    requires rests { Rests pass.old.me s }
    requires idle { phase_of pass.old.me.0.mine.seen s ≡ Idle }
    ensures gate { (pass.new.table_id ≡ pass.old.table_id) × (pass.new.id ≡ pass.old.id) }
    ensures rests { Rests pass.new.me s }
    ensures len { len.new ≡ length pass.new.me.0.mine.seen.past }
    ensures went { Went s pass.old.me.0.mine.seen pass.new.me.0.mine.seen [] Leaving }
{
    let mut engine = take_turn(rt, gate, pass, s);
    engine.leave(s);
    *len = engine.len();
    gate.hand_back(pass, engine, *len);
}

/// A session joins, and gets a seat.
pub fn split_turn<E: Turns, R: Wait>(
    rt: &R,
    gate: &Gate<E>,
    pass: &mut Pass<E>,
    len: &mut u64,
    name: &Bytes,
) -> Result<(u32, Pass<E>), NoMemory>
    requires gate { pass.old.table_id ≡ gate.now }
    requires rests { Rests pass.old.me 0 }
    requires few { length pass.old.me.0.mine.seen.names < 68 }
    ensures gate { (pass.new.table_id ≡ pass.old.table_id) × (pass.new.id ≡ pass.old.id) }
    ensures rests { Rests pass.new.me 0 }
    ensures len { len.new ≡ length pass.new.me.0.mine.seen.past }
    ensures given { IfOk result (λ r. (r.1.table_id ≡ pass.old.table_id) × Rests r.1.me r.0 × (r.1.me.0.mine.seen ≡ pass.new.me.0.mine.seen)) }
    ensures ok { IfOk result (λ r. HasJoined name.now pass.old.me.0.mine.seen pass.new.me.0.mine.seen r.0) }
    ensures err { OnErr result (Went 0 pass.old.me.0.mine.seen pass.new.me.0.mine.seen [] (phase_of pass.old.me.0.mine.seen 0)) }
{
    let mut engine = take_turn(rt, gate, pass, 0);
    match engine.join(name) {
        Ok(s) => {
            *len = engine.len();
            gate.put(pass, engine);
            gate.publish(pass, *len);
            let other = gate.split(pass);
            gate.depart(pass);
            Ok((s, other))
        }
        Err(error) => {
            *len = engine.len();
            gate.hand_back(pass, engine, *len);
            Err(error)
        }
    }
}
