//! A session of a hall, in the thread that has it, and the receipt of one that has left. A call is an item from its start
//! to its reply, each step of it in a turn of its own.

ghost use Rattle.std.specs.Prelude.{◌≡◌, ℕ, ◌+◌, ◌<◌, [], ◌∷◌, ◌++◌, true, false, length, IfOk, IfSome, IfNone, MatchResult};
ghost use Rattle.inno_model.specs.declared.event.Event.TheVariants.{Started, Ended};
ghost use Rattle.inno_model.specs.Recorded.{Extends};
ghost use Rattle.inno_model.specs.declared.board.Phase.TheVariants.{Idle, Busy, Leaving, Left};
ghost use Rattle.inno_model.specs.Boards.{phase_of, calls_of};
ghost use Rattle.inno_model.specs.Past.{started};
ghost use Rattle.turn_engine.specs.Calls.{item_number};
ghost use Rattle.turn_engine.specs.Turns.{Rests, Went};
ghost use Rattle.turn_engine.specs.Sessions.{Executed, own, claim_of};

use crate::hall::Hall;
use crate::turn::{Pause, Stepped, leave_turn, split_turn, start_turn, step_turn};
use crate::turns::Turns;
use atomic_table::Badge;
use inno_types::{Bytes, Item, Reply};
use std::marker::Model;
use std::sync::Wait;
use std::time::{Clock as Timer, Duration};
use std::{mem, thread};
use store_api::{Clock, Gate as Door, NoMemory};
use turn_rule::{Gate, Pass, View};

/// A session of a hall.
#[derive(Drop)]
pub struct Session {
    badge: Badge<View>,
    number: u32,
    seen: u64,
    items: u32,
    lost: bool,
}

impl Model for Session {
    ghost use Rattle.inno_model.specs.declared.board.Phase.TheVariants.{Idle};
    ghost use Rattle.turn_engine.specs.Sessions.{Sitting, sitting_code, sitting, IsSeated};

    ghost Value = { Sitting };

    ghost coded = { sitting_code };

    ghost view = { λ s. sitting s.badge.table_id s.badge.views s.lost };

    ghost invariant = { λ s. IsSeated s.badge.views s.number s.seen Idle };
}

impl Session {
    /// The session of a seat, which has seen a history of the length `seen`.
    pub(crate) fn of_pass<E: Turns>(pass: Pass<E>, number: u32, seen: u64) -> Session
        requires rests { Rests pass.me number }
        requires idle { phase_of pass.me.0.mine.seen number ≡ Idle }
        requires seen { seen ≡ length pass.me.0.mine.seen.past }
        ensures { (result.hall ≡ pass.table_id) × (result.number ≡ number) × (result.seen ≡ pass.me.0.mine.seen) × (result.lost ≡ false) }
    {
        Session {
            badge: pass.into_badge(),
            number,
            seen,
            items: 0,
            lost: false,
        }
    }

    pub(crate) fn into_pass<E: Turns>(self) -> Pass<E>
        ensures gate { result.table_id ≡ self.hall }
        ensures rests { Rests result.me self.number }
        ensures claim { result.me.0.mine ≡ claim_of self }
        ensures idle { phase_of self.seen self.number ≡ Idle }
    {
        let Session {
            badge,
            number: _,
            seen: _,
            items: _,
            lost: _,
        } = self;
        badge.into_seat()
    }

    pub fn number(&self) -> u32
        ensures { result ≡ self.now.number }
    {
        self.number
    }

    /// Whether it has found no memory for a call. It makes no further one.
    pub fn is_lost(&self) -> bool
        ensures { result ≡ self.now.lost }
    {
        self.lost
    }

    /// How many entries of the history it has seen. It waits for nobody.
    pub fn seen(&self) -> u64
        ensures { result ≡ length self.now.seen.past }
    {
        self.seen
    }

    /// Adds a session to the hall. Only the first one may.
    pub fn split<E: Turns, R: Wait>(
        &mut self,
        rt: &R,
        hall: &Hall<E>,
        name: &Bytes,
    ) -> Result<Session, NoMemory>
        requires hall { self.old.hall ≡ hall.now }
        requires first { self.old.number ≡ 0 }
        requires few { length self.old.seen.names < 68 }
        ensures same { (self.new.hall ≡ self.old.hall) × (self.new.number ≡ 0) × (own self.new ≡ own self.old) × (self.new.lost ≡ self.old.lost) }
        ensures ok { IfOk result (λ t. (t.hall ≡ self.old.hall) × (t.number ≡ length self.old.seen.names) × (own t ≡ []) × (t.lost ≡ false)) }
        ensures together { IfOk result (λ t. t.seen ≡ self.new.seen) }
        ensures names { MatchResult result (λ t. self.new.seen.names ≡ self.old.seen.names ++ name.now ∷ []) (λ e. self.new.seen.names ≡ self.old.seen.names) }
        ensures seen { Extends self.old.seen.past self.new.seen.past }
    {
        let badge = mem::replace(&mut self.badge, Badge::blank());
        let mut pass: Pass<E> = badge.into_seat();
        let given = split_turn(rt, hall.gate(), &mut pass, &mut self.seen, name);
        self.badge = pass.into_badge();
        let (number, other) = given?;
        Ok(Session::of_pass(other, number, self.seen))
    }

    /// Makes a call: the item, from its start to its reply.
    pub fn execute<E: Turns, C: Clock, G: Door, R: Wait + Timer>(
        &mut self,
        rt: &R,
        hall: &Hall<E>,
        clock: &C,
        door: &G,
        item: &Item,
    ) -> Reply
        requires hall { self.old.hall ≡ hall.now }
        requires takes { E.takes item.now }
        ensures same { (self.new.hall ≡ self.old.hall) × (self.new.number ≡ self.old.number) }
        ensures call { Executed self.old item.now result self.new }
        ensures seen { Extends self.old.seen.past self.new.seen.past }
        // The first session alone lets others join.
        ensures names { self.old.number ≡ 0 → self.new.seen.names ≡ self.old.seen.names }
    {
        if self.lost {
            return Reply::NoMemory;
        }
        self.items = self.items.saturating_add(1);
        door.before(self.number, self.items);
        let badge = mem::replace(&mut self.badge, Badge::blank());
        let mut pass: Pass<E> = badge.into_seat();
        let reply = call(
            rt,
            hall.gate(),
            &mut pass,
            &mut self.seen,
            self.number,
            clock,
            item,
        );
        self.badge = pass.into_badge();
        match reply {
            Some(reply) => reply,
            None => {
                self.lost = true;
                Reply::NoMemory
            }
        }
    }

    /// Ends the session. The receipt is for its own entries.
    pub fn finish<E: Turns, R: Wait + Timer>(self, rt: &R, hall: &Hall<E>) -> Receipt
        requires { self.hall ≡ hall.now }
        ensures same { (result.hall ≡ self.hall) × (result.number ≡ self.number) × (result.lost ≡ self.lost) }
        ensures own { own result ≡ own self }
        ensures left { phase_of result.seen result.number ≡ Left }
        ensures seen { Extends self.seen.past result.seen.past }
    {
        let Session {
            badge,
            number,
            mut seen,
            items: _,
            lost,
        } = self;
        let mut pass: Pass<E> = badge.into_seat();
        leave_turn(rt, hall.gate(), &mut pass, &mut seen, number);
        end(rt, hall.gate(), &mut pass, &mut seen, number);
        Receipt {
            badge: pass.into_badge(),
            number,
            seen,
            lost,
        }
    }
}

/// A call, or `None` where it found no memory to start.
fn call<E: Turns, C: Clock, R: Wait + Timer>(
    rt: &R,
    gate: &Gate<E>,
    pass: &mut Pass<E>,
    len: &mut u64,
    s: u32,
    clock: &C,
    item: &Item,
) -> Option<Reply>
    requires gate { pass.old.table_id ≡ gate.now }
    requires rests { Rests pass.old.me s }
    requires idle { phase_of pass.old.me.0.mine.seen s ≡ Idle }
    requires takes { E.takes item.now }
    ensures gate { pass.new.table_id ≡ pass.old.table_id }
    ensures rests { Rests pass.new.me s }
    ensures len { len.new ≡ length pass.new.me.0.mine.seen.past }
    ensures some { let seen = pass.old.me.0.mine.seen in let n = item_number s seen in
        IfSome result (λ r. Went s seen pass.new.me.0.mine.seen (Ended s n r ∷ Started s n item.now ∷ []) Idle) }
    ensures none { IfNone result (Went s pass.old.me.0.mine.seen pass.new.me.0.mine.seen [] Idle) }
{
    if start_turn(rt, gate, pass, len, s, item).is_err() {
        return None;
    }
    Some(answer(rt, gate, pass, len, s, clock))
}

/// Steps the session's item until it ends, and answers its reply.
fn answer<E: Turns, C: Clock, R: Wait + Timer>(
    rt: &R,
    gate: &Gate<E>,
    pass: &mut Pass<E>,
    len: &mut u64,
    s: u32,
    clock: &C,
) -> Reply
    requires gate { pass.old.table_id ≡ gate.now }
    requires rests { Rests pass.old.me s }
    requires busy { phase_of pass.old.me.0.mine.seen s ≡ Busy }
    ensures gate { pass.new.table_id ≡ pass.old.table_id }
    ensures rests { Rests pass.new.me s }
    ensures len { len.new ≡ length pass.new.me.0.mine.seen.past }
    ensures went { Went s pass.old.me.0.mine.seen pass.new.me.0.mine.seen (Ended s (started s pass.old.me.0.mine.seen.past) result ∷ []) Idle }
{
    let mut waits: u32 = 0;
    for _ in rt.forever() {
        match step_turn(rt, gate, pass, len, s, clock.now()) {
            Stepped::Over(reply) => return reply,
            Stepped::GoesOn(pause) => waits = rest(rt, pause, waits),
        }
    }
    unreachable!()
}

/// Steps the session's ending until it has left.
fn end<E: Turns, R: Wait + Timer>(rt: &R, gate: &Gate<E>, pass: &mut Pass<E>, len: &mut u64, s: u32)
    requires gate { pass.old.table_id ≡ gate.now }
    requires rests { Rests pass.old.me s }
    requires leaving { phase_of pass.old.me.0.mine.seen s ≡ Leaving }
    ensures gate { pass.new.table_id ≡ pass.old.table_id }
    ensures rests { Rests pass.new.me s }
    ensures len { len.new ≡ length pass.new.me.0.mine.seen.past }
    ensures went { Went s pass.old.me.0.mine.seen pass.new.me.0.mine.seen [] Left }
{
    let mut waits: u32 = 0;
    for _ in rt.forever() {
        match step_turn(rt, gate, pass, len, s, 0) {
            Stepped::Over(reply) => {
                drop(reply);
                return;
            }
            Stepped::GoesOn(pause) => waits = rest(rt, pause, waits),
        }
    }
}

/// Stays away from the turn, and counts how often it had to wait in succession: for 50 microseconds at first, and the longer the
/// oftener, up to 400, so that many that wait leave the turn to those who don't, and none sleeps long behind what it waits for.
fn rest<R: Timer>(rt: &R, pause: Pause, waits: u32) -> u32 {
    match pause {
        Pause::No => 0,
        Pause::Short => {
            thread::yield_now();
            0
        }
        Pause::Long => {
            thread::sleep(rt, Duration::from_micros(50 << waits.min(3)));
            waits.saturating_add(1)
        }
    }
}

/// For a session that has left: its own entries, by their places in the history.
#[derive(Drop)]
pub struct Receipt {
    badge: Badge<View>,
    number: u32,
    seen: u64,
    lost: bool,
}

impl Model for Receipt {
    ghost use Rattle.inno_model.specs.declared.board.Phase.TheVariants.{Left};
    ghost use Rattle.turn_engine.specs.Sessions.{Sitting, sitting_code, sitting, IsSeated};

    ghost Value = { Sitting };

    ghost coded = { sitting_code };

    ghost view = { λ r. sitting r.badge.table_id r.badge.views r.lost };

    ghost invariant = { λ r. IsSeated r.badge.views r.number r.seen Left };
}

impl Receipt {
    pub(crate) fn into_pass<E: Turns>(self) -> Pass<E>
        ensures gate { result.table_id ≡ self.hall }
        ensures rests { Rests result.me self.number }
        ensures claim { result.me.0.mine ≡ claim_of self }
    {
        let Receipt {
            badge,
            number: _,
            seen: _,
            lost: _,
        } = self;
        badge.into_seat()
    }

    pub fn number(&self) -> u32
        ensures { result ≡ self.now.number }
    {
        self.number
    }

    /// Whether the session had found no memory for a call.
    pub fn is_lost(&self) -> bool
        ensures { result ≡ self.now.lost }
    {
        self.lost
    }
}
