//! The sessions of a script on threads of a scope, in the order of their numbers. Where a thread is refused, the caller
//! plays its session.

ghost use Rattle.std.specs.Prelude.{◌≡◌, ◌+◌, ◌≤◌, [], map, All, vec_capacity, vec_len};
ghost use Rattle.std.specs.List.{AllByRecursion};
ghost use Rattle.script_play.specs.Playing.{IsNew, IsPlayed, HasPlayedIn, IsPart, number_of};

use crate::session::play_session;
use script::Script;
use std::snapshot::Snapshot;
use std::sync::Wait;
use std::thread;
use std::thread::{Promise, PromisedHandle, Scope, Threads};
use std::time::Clock as Timer;
use store_api::{Clock, Gate};
use turn_engine::{Hall, Receipt, Session, Turns};

/// What a thread promises of its receipt: its session has played the script in this hall.
#[derive(Drop)]
pub struct Plays<E: Turns> {
    hall: Snapshot<Hall<E>>,
    script: Snapshot<Script>,
    session: Snapshot<Session>,
}

impl<E: Turns> Promise<Receipt> for Plays<E> {
    ghost use Rattle.script_play.specs.Playing.{IsPlayed};

    ghost kept_by = { λ p r. IsPlayed p.hall.value p.script.value.items p.session.value.number r };
}

/// A session that plays on a thread, or has played.
#[derive(Drop)]
pub enum Part<E: Turns> {
    Running(PromisedHandle<Receipt, Plays<E>>),
    Ended(Receipt),
}

/// Starts a thread for the session.
fn start_one<'s, F, E, C, G, R>(
    scope: &Scope<'s, F>,
    rt: &'s R,
    hall: &'s Hall<E>,
    clock: &'s C,
    gate: &'s G,
    script: &'s Script,
    session: Session,
) -> Part<E>
where
    E: Turns + Send,
    C: Clock + Sync,
    G: Gate + Sync,
    R: Threads + Wait + Timer + Sync,
    requires new { IsNew hall.now session }
    requires takes { All (λ x. E.takes x.item) script.now.items }
    ensures part { IsPart hall.now script.now result }
    ensures number { number_of result ≡ session.number }
{
    let promise = Plays {
        hall: Snapshot::of(hall),
        script: Snapshot::of(script),
        session: Snapshot::of(&session),
    };
    match scope.spawn_with(
        promise,
        move || -> Receipt
            requires { IsNew hall.now session × All (λ x. E.takes x.item) script.now.items }
            ensures { IsPlayed hall.entry.now script.entry.now.items session.number result }
        { play_session(rt, hall, clock, gate, session, script) },
    ) {
        Ok(child) => Part::Running(child),
        Err(refused) => Part::Ended((refused.value)()),
    }
}

/// Starts a thread for each session.
fn start_all<'s, F, E, C, G, R>(
    scope: &Scope<'s, F>,
    rt: &'s R,
    hall: &'s Hall<E>,
    clock: &'s C,
    gate: &'s G,
    script: &'s Script,
    mut sessions: Vec<Session>,
    mut parts: Vec<Part<E>>,
) -> Vec<Part<E>>
where
    E: Turns + Send,
    C: Clock + Sync,
    G: Gate + Sync,
    R: Threads + Wait + Timer + Sync,
    requires new { AllByRecursion (IsNew hall.now) sessions.items }
    requires takes { All (λ x. E.takes x.item) script.now.items }
    requires room { (parts.items ≡ []) × (vec_len sessions ≤ vec_capacity parts) }
    ensures parts { AllByRecursion (IsPart hall.now script.now) result.items }
    ensures numbers { map number_of result.items ≡ map (λ s. s.number) sessions.items }
{
    while !sessions.is_empty() {
        let session = sessions.remove(0);
        parts.push_reserved(start_one(scope, rt, hall, clock, gate, script, session));
    }
    parts
}

/// The receipt of a session, once its thread has ended.
fn receipt_of<E: Turns, R: Threads>(
    rt: &R,
    hall: &Hall<E>,
    script: &Script,
    part: Part<E>,
) -> Receipt
    requires { IsPart hall.now script.now part }
    ensures { IsPlayed hall.now script.now.items (number_of part) result }
{
    let _ = hall;
    let _ = script;
    match part {
        Part::Running(child) => child.join(rt),
        Part::Ended(receipt) => receipt,
    }
}

/// Waits for the threads.
fn join_all<E: Turns, R: Threads>(
    rt: &R,
    hall: &Hall<E>,
    script: &Script,
    mut parts: Vec<Part<E>>,
    mut receipts: Vec<Receipt>,
) -> Vec<Receipt>
    requires parts { AllByRecursion (IsPart hall.now script.now) parts.items }
    requires room { (receipts.items ≡ []) × (vec_len parts ≤ vec_capacity receipts) }
    ensures played { AllByRecursion (HasPlayedIn hall.now script.now.items) result.items }
    ensures numbers { map (λ r. r.number) result.items ≡ map number_of parts.items }
{
    while !parts.is_empty() {
        let part = parts.remove(0);
        receipts.push_reserved(receipt_of(rt, hall, script, part));
    }
    receipts
}

/// Plays each session on a thread of its own, and answers their receipts in the order of the sessions.
pub fn play_all<E, C, G, R>(
    rt: &R,
    hall: &Hall<E>,
    clock: &C,
    gate: &G,
    script: &Script,
    sessions: Vec<Session>,
    parts: Vec<Part<E>>,
    receipts: Vec<Receipt>,
) -> Vec<Receipt>
where
    E: Turns + Send,
    C: Clock + Sync,
    G: Gate + Sync,
    R: Threads + Wait + Timer + Sync,
    requires new { AllByRecursion (IsNew hall.now) sessions.items }
    requires takes { All (λ x. E.takes x.item) script.now.items }
    requires parts { (parts.items ≡ []) × (vec_len sessions ≤ vec_capacity parts) }
    requires receipts { (receipts.items ≡ []) × (vec_len sessions ≤ vec_capacity receipts) }
    ensures played { AllByRecursion (HasPlayedIn hall.now script.now.items) result.items }
    ensures numbers { map (λ r. r.number) result.items ≡ map (λ s. s.number) sessions.items }
{
    thread::scope(
        thread::scope_env(),
        rt,
        |scope| -> Vec<Receipt>
            requires { AllByRecursion (IsNew hall.now) sessions.items × All (λ x. E.takes x.item) script.now.items
                × (parts.items ≡ []) × (vec_len sessions ≤ vec_capacity parts)
                × (receipts.items ≡ []) × (vec_len sessions ≤ vec_capacity receipts) }
            ensures { AllByRecursion (HasPlayedIn hall.entry.now script.entry.now.items) result.items
                × (map (λ r. r.number) result.items ≡ map (λ s. s.number) sessions.items) }
        {
            let parts = start_all(scope, rt, hall, clock, gate, script, sessions, parts);
            join_all(rt, hall, script, parts, receipts)
        },
    )
}
