//! Plays a script over an engine that nobody has joined: it is shared, each session plays, and the engine comes back.
//! `script_runner` alone calls it. What the other threads do is in `parts` and `session`.

ghost use Rattle.std.specs.Prelude.{◌≡◌, ◌≤◌, ◌<◌, ◌+◌, ◌∷◌, [], ℕ, length, map, true, All, IsTrue, OnOk, vec_capacity, vec_len};
ghost use Rattle.std.specs.List.{AllByRecursion, list_any};
ghost use Rattle.inno_model.specs.Recorded.{Extends};
ghost use Rattle.sql_history.specs.Serial.{IsSetUp};
ghost use Rattle.inno_model.specs.Boards.{calls_of, phase_of};
ghost use Rattle.inno_model.specs.declared.board.Phase.TheVariants.{Idle};
ghost use Rattle.turn_engine.specs.Sessions.{own, setup};
ghost use Rattle.script_play.specs.Sessions.{AreNamed, HaveNames, FollowsScript, HasPlayed, AllRest};
ghost use Rattle.script_play.specs.Playing.{IsNew, HasBegunIn, HasPlayedIn, HasSetUp, IsAll, AreNumbered};

use crate::beginning::{Rooms, other_names, split_all};
use crate::parts::play_all;
use crate::session::make_calls;
use inno_types::Bytes;
use script::Script;
use std::alloc::Global;
use std::sync::Wait;
use std::thread::Threads;
use std::time::Clock as Timer;
use store_api::{Clock, Gate, NoMemory, Progress};
use turn_engine::{Hall, Receipt, Session, Turns, share};

/// Plays a script: the setup part on the calling thread, then each other session on a thread of its own. At last the setup
/// part leaves. The time is the clock's, and the script's ticks let none pass. The engine comes back in any case.
pub fn play_on_threads<E, C, G, R>(
    rt: &R,
    alloc: Global,
    engine: E,
    script: &Script,
    clock: &C,
    gate: &G,
) -> (E, Result<(), NoMemory>)
where
    E: Turns + Send,
    C: Clock + Sync,
    G: Gate + Sync,
    R: Threads + Wait + Timer + Sync,
    requires nobody { (E.board engine).names ≡ [] }
    requires no_calls { (x : ℕ) → calls_of x (E.board engine).past ≡ [] }
    requires each_named { HaveNames script.now }
    requires takes { All (λ x. E.takes x.item) script.now.items }
    ensures named { AreNamed script.now (E.board result.0).names }
    ensures follows { FollowsScript script.now.items (E.board result.0).past }
    ensures played { OnOk result.1 (HasPlayed script.now (E.board result.0).names (E.board result.0).past) }
    ensures rests { OnOk result.1 (AllRest (E.board result.0).past) }
    ensures set_up { IsSetUp (E.board result.0).past }
{
    let Some(others) = other_names(script.names.as_slice()) else {
        return (engine, Err(NoMemory));
    };
    let Ok(rooms) = Rooms::new(alloc, others.len()) else {
        return (engine, Err(NoMemory));
    };
    match share(alloc, engine) {
        Ok((hall, first)) => play_in(rt, hall, first, script, others, clock, gate, rooms),
        Err((engine, NoMemory)) => (engine, Err(NoMemory)),
    }
}

/// Plays a script in a hall, of which the calling thread has the first session.
fn play_in<E, C, G, R>(
    rt: &R,
    hall: Hall<E>,
    first: Session,
    script: &Script,
    others: &[Bytes],
    clock: &C,
    gate: &G,
    rooms: Rooms<E>,
) -> (E, Result<(), NoMemory>)
where
    E: Turns + Send,
    C: Clock + Sync,
    G: Gate + Sync,
    R: Threads + Wait + Timer + Sync,
    requires first { IsNew hall first × (first.number ≡ 0) × (first.seen.names ≡ setup ∷ []) }
    requires names { (script.now.names ≡ setup ∷ others.now) × (length others.now ≤ 64) }
    requires each_named { HaveNames script.now }
    requires takes { All (λ x. E.takes x.item) script.now.items }
    requires sessions { (rooms.sessions.items ≡ []) × (length others.now ≤ vec_capacity rooms.sessions) }
    requires parts { (rooms.parts.items ≡ []) × (length others.now ≤ vec_capacity rooms.parts) }
    requires receipts { (rooms.receipts.items ≡ []) × (length others.now ≤ vec_capacity rooms.receipts) }
    ensures named { AreNamed script.now (E.board result.0).names }
    ensures follows { FollowsScript script.now.items (E.board result.0).past }
    ensures played { OnOk result.1 (HasPlayed script.now (E.board result.0).names (E.board result.0).past) }
    ensures rests { OnOk result.1 (AllRest (E.board result.0).past) }
    ensures set_up { IsSetUp (E.board result.0).past }
{
    let mut first = first;
    let Rooms {
        mut sessions,
        parts,
        receipts,
    } = rooms;
    make_calls(rt, &hall, clock, gate, &mut first, script.items.as_slice());
    let joined = split_all(rt, &hall, &mut first, others, &mut sessions);
    if joined && !first.is_lost() {
        let receipts = play_all(rt, &hall, clock, gate, script, sessions, parts, receipts);
        conclude(hall, first, receipts, script, true)
    } else {
        drop(parts);
        let receipts = end_all(rt, &hall, sessions, script, receipts);
        conclude(hall, first, receipts, script, false)
    }
}

/// Lets sessions leave that have made no call.
fn end_all<E: Turns, R: Wait + Timer>(
    rt: &R,
    hall: &Hall<E>,
    mut sessions: Vec<Session>,
    script: &Script,
    mut receipts: Vec<Receipt>,
) -> Vec<Receipt>
    requires new { AllByRecursion (IsNew hall.now) sessions.items }
    requires room { (receipts.items ≡ []) × (vec_len sessions ≤ vec_capacity receipts) }
    ensures begun { AllByRecursion (HasBegunIn hall.now script.now.items) result.items }
    ensures numbers { map (λ r. r.number) result.items ≡ map (λ s. s.number) sessions.items }
{
    while !sessions.is_empty() {
        let session = sessions.remove(0);
        receipts.push_reserved(end_one(rt, hall, session, script));
    }
    receipts
}

/// Lets a session leave that has made no call.
#[tactic(auto, using(crate::proofs::Making::unbegun))]
fn end_one<E: Turns, R: Wait + Timer>(
    rt: &R,
    hall: &Hall<E>,
    session: Session,
    script: &Script,
) -> Receipt
    requires { IsNew hall.now session }
    ensures begun { HasBegunIn hall.now script.now.items result }
    ensures number { result.number ≡ session.number }
{
    let _ = script;
    session.finish(rt, hall)
}

/// Whether a session had found no memory for a call.
fn any_lost(receipts: &[Receipt]) -> bool
    ensures { result ≡ list_any (λ r. r.lost) receipts.now }
{
    receipts.iter().any(|receipt| receipt.is_lost())
}

/// Takes the engine out of the hall, once all others have left, and lets the setup part leave. All was played if each session
/// was to play, and none was lost.
fn conclude<E: Turns>(
    hall: Hall<E>,
    first: Session,
    receipts: Vec<Receipt>,
    script: &Script,
    all: bool,
) -> (E, Result<(), NoMemory>)
    requires first { (first.number ≡ 0) × HasPlayedIn hall script.now.items first }
    requires begun { AllByRecursion (HasBegunIn hall script.now.items) receipts.items }
    requires numbered { AreNumbered 1 (map (λ r. r.number) receipts.items) × (length first.seen.names ≡ length receipts.items + 1) }
    requires named { AreNamed script.now first.seen.names }
    requires each_named { HaveNames script.now }
    requires whole { IsTrue all → IsAll script.now first receipts.items }
    requires set_up { HasSetUp first }
    ensures named { AreNamed script.now (E.board result.0).names }
    ensures follows { FollowsScript script.now.items (E.board result.0).past }
    ensures played { OnOk result.1 (HasPlayed script.now (E.board result.0).names (E.board result.0).past) }
    ensures rests { OnOk result.1 (AllRest (E.board result.0).past) }
    ensures set_up { IsSetUp (E.board result.0).past }
{
    let whole = all && !any_lost(&receipts);
    let mut engine = hall.gather(first, receipts);
    let gone = let_leave(&mut engine);
    if whole && gone {
        (engine, Ok(()))
    } else {
        (engine, Err(NoMemory))
    }
}

/// Lets the setup part leave, and says whether it has left.
fn let_leave<E: Turns>(engine: &mut E) -> bool
    requires joined { 0 < length (E.board engine.old).names }
    requires idle { phase_of (E.board engine.old) 0 ≡ Idle }
    ensures names { (E.board engine.new).names ≡ (E.board engine.old).names }
    ensures calls { (x : ℕ) → calls_of x (E.board engine.new).past ≡ calls_of x (E.board engine.old).past }
    ensures extends { Extends (E.board engine.old).past (E.board engine.new).past }
{
    engine.leave(0);
    for _ in 0..u64::MAX {
        if engine.left(0) {
            return true;
        }
        let progress = engine.step(0, 0);
        let lacked = matches!(&progress, Progress::NoMemory);
        drop(progress);
        if lacked {
            return false;
        }
    }
    false
}
