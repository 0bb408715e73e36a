//! The two ways in which the sessions of a script play on an engine: in turn on the calling thread, in the order of the
//! script, or each on a thread of its own. What they leave is said alike of both.

ghost use Rattle.std.specs.Prelude.{◌≡◌, IsTrue};
ghost use Rattle.engine.specs.Opened.{IsOpened};
ghost use Rattle.sql_history.specs.Serial.{IsSetUp};
ghost use Rattle.script.specs.Script.{IsPlayable};
ghost use Rattle.run_outcome.specs.Faults.{allowed};
ghost use Rattle.run_outcome.specs.declared.words.Way.TheVariants.{InTurn, OnThreads};
ghost use Rattle.script_play.specs.Sessions.{AreNamed, FollowsScript, HasPlayed, AllRest};

use crate::seats::Seats;
use durable_engine::{DurableEngine, Root};
use run_outcome::Way;
use script::Script;
use script_play::{play, play_on_threads};
use shared_engine::SharedEngine;
use shared_lists::SharedLists;
use std::alloc::Global;
use std::sync::Wait;
use std::thread::Threads;
use std::time::Clock as Timer;
use store_api::{Clock, Disk, Gate};

/// Plays a script on an engine that was opened, and says whether all of it was played.
pub fn play_script<D, B, L, C, G, R>(
    rt: &R,
    alloc: Global,
    engine: DurableEngine<D, B, L>,
    script: &Script,
    clock: &C,
    gate: &G,
    way: Way,
) -> (DurableEngine<D, B, L>, bool)
where
    D: Disk + Send,
    B: Root + Send,
    L: SharedLists + Send,
    C: Clock + Sync,
    G: Gate + Sync,
    R: Threads + Wait + Timer + Sync,
    requires opened { IsOpened engine }
    requires playable { IsPlayable (allowed way) script.now }
    ensures named { AreNamed script.now result.0.names }
    ensures follows { FollowsScript script.now.items result.0.past }
    ensures played { IsTrue result.1 → HasPlayed script.now result.0.names result.0.past }
    ensures rests { IsTrue result.1 → AllRest result.0.past }
    ensures set_up { IsSetUp result.0.past }
{
    match way {
        Way::InTurn => in_turn(alloc, engine, script),
        Way::OnThreads => on_threads(rt, alloc, engine, script, clock, gate),
    }
}

fn in_turn<D: Disk, B: Root, L: SharedLists>(
    alloc: Global,
    engine: DurableEngine<D, B, L>,
    script: &Script,
) -> (DurableEngine<D, B, L>, bool)
    requires opened { IsOpened engine }
    requires playable { IsPlayable (allowed InTurn) script.now }
    ensures named { AreNamed script.now result.0.names }
    ensures follows { FollowsScript script.now.items result.0.past }
    ensures played { IsTrue result.1 → HasPlayed script.now result.0.names result.0.past }
    ensures rests { IsTrue result.1 → AllRest result.0.past }
    ensures set_up { IsSetUp result.0.past }
{
    let mut seats = Seats::new(engine);
    let played = play(alloc, &mut seats, script).is_ok();
    (seats.into_engine(), played)
}

fn on_threads<D, B, L, C, G, R>(
    rt: &R,
    alloc: Global,
    engine: DurableEngine<D, B, L>,
    script: &Script,
    clock: &C,
    gate: &G,
) -> (DurableEngine<D, B, L>, bool)
where
    D: Disk + Send,
    B: Root + Send,
    L: SharedLists + Send,
    C: Clock + Sync,
    G: Gate + Sync,
    R: Threads + Wait + Timer + Sync,
    requires opened { IsOpened engine }
    requires playable { IsPlayable (allowed OnThreads) script.now }
    ensures named { AreNamed script.now result.0.names }
    ensures follows { FollowsScript script.now.items result.0.past }
    ensures played { IsTrue result.1 → HasPlayed script.now result.0.names result.0.past }
    ensures rests { IsTrue result.1 → AllRest result.0.past }
    ensures set_up { IsSetUp result.0.past }
{
    let shared = SharedEngine::new(engine);
    let (shared, played) = play_on_threads(rt, alloc, shared, script, clock, gate);
    let played = played.is_ok();
    (shared.into_engine(), played)
}
