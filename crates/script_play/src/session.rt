//! A session in the thread that has it: it makes its calls, one after the other, and leaves.
//! `on_threads` makes those of the setup part so; `parts` plays each other session, in its thread or in the caller's.

ghost use Rattle.std.specs.Prelude.{◌≡◌, All};
ghost use Rattle.turn_engine.specs.Sessions.{own};
ghost use Rattle.script_play.specs.Playing.{IsNew, HasBegun, IsWhole, IsPlayed};

use script::{Script, ScriptItem};
use std::sync::Wait;
use std::time::Clock as Timer;
use store_api::{Clock, Gate};
use turn_engine::{Hall, Receipt, Session, Turns};

/// Makes the session's calls among these items, in order. A session that has found no memory makes no further one.
pub fn make_calls<E: Turns, C: Clock, G: Gate, R: Wait + Timer>(
    rt: &R,
    hall: &Hall<E>,
    clock: &C,
    gate: &G,
    session: &mut Session,
    items: &[ScriptItem],
)
    requires new { IsNew hall.now session.old }
    requires takes { All (λ x. E.takes x.item) items.now }
    ensures same { (session.new.hall ≡ session.old.hall) × (session.new.number ≡ session.old.number) }
    ensures names { session.old.number ≡ 0 → session.new.seen.names ≡ session.old.seen.names }
    ensures begun { HasBegun items.now session.new }
    ensures whole { IsWhole items.now session.new }
{
    let number = session.number();
    for item in items {
        if item.s == number {
            let reply = session.execute(rt, hall, clock, gate, &item.item);
            drop(reply);
        }
    }
}

/// Plays a session of the script to its end.
pub fn play_session<E: Turns, C: Clock, G: Gate, R: Wait + Timer>(
    rt: &R,
    hall: &Hall<E>,
    clock: &C,
    gate: &G,
    session: Session,
    script: &Script,
) -> Receipt
    requires new { IsNew hall.now session }
    requires takes { All (λ x. E.takes x.item) script.now.items }
    ensures { IsPlayed hall.now script.now.items session.number result }
{
    let mut session = session;
    make_calls(rt, hall, clock, gate, &mut session, script.items.as_slice());
    session.finish(rt, hall)
}
