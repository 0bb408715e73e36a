//! The table of the turnstile, with its eight kinds of step: enter and miss (`enter`), `take`, `put`, `publish`,
//! `depart`, `split` and `join`. Nothing else touches its two words and its slot. In a turn they come in this order:
//! enter, take, the engine's own call, put, publish (which names the engine that lies in the slot), split, depart.

ghost use Rattle.std.specs.Prelude.{◌≡◌, ℕ, ◌+◌, ◌==◌, [], ◌∷◌, true, false, length, Some, None, IfOk, IfErr, MatchBool};
ghost use Rattle.inno_model.specs.Boards.{calls_of};
ghost use Rattle.turn_rule.specs.Turnstile.{first_view};
ghost use Rattle.turn_rule.specs.Steps.{IsAtRest, Entered, MayPublish, HasPublished, MayDepart, MaySplit, IsLast, Closes, idle, counted, newcomer, with_sessions};

use crate::rule::{Depart, Enter, NewSeat, Publish, TakesIn, Turnstile, View};
use atomic_table::{Refused, Seat, Table};
use inno_model::Recorded;
use std::alloc::Global;
use std::marker::Model;
use std::snapshot::Snapshot;
use std::sync::Wait;

/// A seat of a gate, which one thread at a time has.
pub type Pass<E> = Seat<Option<E>, View>;

/// The turn, the length of the history, and the engine while nobody has it.
#[derive(Drop)]
pub struct Gate<E: Recorded> {
    table: Table<Option<E>, View, Snapshot<E>, Turnstile, Global>,
}

impl<E: Recorded> Model for Gate<E> {
    ghost use Rattle.std.specs.Prelude.{◌≡◌};
    ghost use Rattle.atomic_table.specs.Seated.{TableId, table_id_coded};

    ghost Value = { TableId };

    ghost coded = { table_id_coded };

    ghost view = { λ g. g.table.shared.table_id };

    ghost invariant = { λ g. (g.table.shared.table_id.words ≡ 2) × (g.table.shared.table_id.slots ≡ 1) };
}

impl<E: Recorded> Gate<E> {
    /// A gate with the engine at home, whose one session has not called yet, and the seat of that session.
    /// `len` is the length of the engine's history. An `Err`, for want of memory, hands the engine back.
    pub fn new(alloc: Global, engine: E, len: u64) -> Result<(Gate<E>, Pass<E>), E>
        requires one { length (E.board engine).names ≡ 1 }
        requires no_calls { (x : ℕ) → calls_of x (E.board engine).past ≡ [] }
        requires len { len ≡ length (E.board engine).past }
        ensures ok { IfOk result (λ r. (r.1.table_id ≡ r.0) × (r.1.me ≡ (first_view (E.board engine), []))) }
        ensures err { IfErr result (λ e. e ≡ engine) }
    {
        let about = Snapshot::of(&engine);
        let mut slots = Vec::new(alloc);
        if let Err(refused) = slots.push(Some(engine)) {
            let Some(engine) = refused.value else {
                unreachable!()
            };
            slots.destroy_empty();
            return Err(engine);
        }
        match Table::new(alloc, &[0, len], slots, &about) {
            Ok((table, pass)) => Ok((Gate { table }, pass)),
            Err(Refused { slots }) => Err(only(slots)),
        }
    }

    /// Tries to take the turn for the seat's own session, and says what word 0 was. At 0 the seat has the turn and
    /// the engine's slot; else it has missed, and the answer is the number of the holder's session plus 1.
    pub fn enter(&self, pass: &mut Pass<E>, number: u32) -> u64
        requires gate { pass.old.table_id ≡ self.now }
        requires idle { IsAtRest pass.old.me number }
        ensures gate { (pass.new.table_id ≡ pass.old.table_id) × (pass.new.id ≡ pass.old.id) }
        ensures turn { MatchBool (result == 0) (Entered E.board pass.old.me pass.new.me) (pass.new.me ≡ pass.old.me) }
    {
        self.table
            .shared
            .compare_exchange::<Enter>(pass, 0, 0, u64::from(number) + 1)
    }

    /// Takes the engine out of the slot that the seat holds.
    pub fn take(&self, pass: &mut Pass<E>) -> E
        requires gate { pass.old.table_id ≡ self.now }
        requires full { (e : E) × (pass.old.me.1 ≡ (0, Some e) ∷ []) }
        ensures gate { (pass.new.table_id ≡ pass.old.table_id) × (pass.new.id ≡ pass.old.id) }
        ensures engine { pass.old.me.1 ≡ (0, Some result) ∷ [] }
        ensures rest { pass.new.me ≡ (pass.old.me.0, (0, None) ∷ []) }
    {
        let Some(engine) = self.table.shared.exchange(pass, 0, None) else {
            unreachable!()
        };
        engine
    }

    /// Puts the engine into the slot that the seat holds.
    pub fn put(&self, pass: &mut Pass<E>, engine: E)
        requires gate { pass.old.table_id ≡ self.now }
        requires empty { pass.old.me.1 ≡ (0, None) ∷ [] }
        ensures gate { (pass.new.table_id ≡ pass.old.table_id) × (pass.new.id ≡ pass.old.id) }
        ensures rest { pass.new.me ≡ (pass.old.me.0, (0, Some engine) ∷ []) }
    {
        let old = self.table.shared.exchange(pass, 0, Some(engine));
        let None = old else { unreachable!() };
    }

    /// Makes the new entries of the engine in the slot part of the history, whose length is then `len`.
    pub fn publish(&self, pass: &mut Pass<E>, len: u64)
        requires gate { pass.old.table_id ≡ self.now }
        requires holds { MayPublish E.board pass.old.me len }
        ensures gate { (pass.new.table_id ≡ pass.old.table_id) × (pass.new.id ≡ pass.old.id) }
        ensures seen { HasPublished E.board pass.old.me pass.new.me }
    {
        self.table.shared.store::<Publish>(pass, 1, len);
    }

    /// Leaves the turn, and wakes one thread that waits for it.
    pub fn depart(&self, pass: &mut Pass<E>)
        requires gate { pass.old.table_id ≡ self.now }
        requires holds { MayDepart E.board pass.old.me }
        ensures gate { (pass.new.table_id ≡ pass.old.table_id) × (pass.new.id ≡ pass.old.id) }
        ensures rest { pass.new.me ≡ (idle pass.old.me.0, []) }
    {
        self.table.shared.store::<Depart>(pass, 0, 0);
        self.table.shared.wake_one(0);
    }

    /// Gives a seat to the session that has just joined the engine, and whose name is published.
    pub fn split(&self, pass: &mut Pass<E>) -> Pass<E>
        requires gate { pass.old.table_id ≡ self.now }
        requires holds { MaySplit pass.old.me.0 }
        ensures gate { (pass.new.table_id ≡ pass.old.table_id) × (pass.new.id ≡ pass.old.id) × (pass.new.me ≡ (counted pass.old.me.0, pass.old.me.1)) }
        ensures given { (result.table_id ≡ pass.old.table_id) × (result.me ≡ (newcomer pass.old.me.0, [])) }
    {
        self.table.shared.split_seat::<NewSeat>(pass)
    }

    /// Joins another seat into this one, which takes in its sessions and their entries. Neither holds the turn.
    pub fn join(&self, pass: &mut Pass<E>, other: Pass<E>)
        requires gate { (pass.old.table_id ≡ self.now) × (other.table_id ≡ self.now) }
        requires idle { IsAtRest pass.old.me pass.old.me.0.mine.number × IsAtRest other.me other.me.0.mine.number }
        ensures gate { (pass.new.table_id ≡ pass.old.table_id) × (pass.new.id ≡ pass.old.id) }
        ensures both { pass.new.me ≡ (with_sessions pass.old.me.0 other.me.0, pass.old.me.1) }
    {
        self.table.shared.join_seat::<TakesIn>(pass, other);
    }

    /// The engine, once the seats of all sessions were joined into that of session 0: it has for each session
    /// exactly the entries that its seat knows.
    pub fn close(self, pass: Pass<E>) -> E
        requires gate { pass.table_id ≡ self }
        requires last { IsLast pass.me.0 }
        ensures { Closes E.board pass.me.0 result }
    {
        let Gate { table } = self;
        let mut closed = table.close_with(pass);
        let Some(engine) = closed.take(0) else {
            unreachable!()
        };
        closed.free();
        engine
    }

    /// Sleeps while word 0 is `turn`, or for less. It changes nothing.
    pub fn wait<R: Wait>(&self, rt: &R, turn: u64) {
        self.table.shared.park(rt, 0, (turn & 0xffff_ffff) as u32);
    }
}

/// The one engine of the slots that a refused table hands back.
fn only<E>(mut slots: Vec<Option<E>>) -> E
    requires { (e : E) × (slots.items ≡ Some e ∷ []) }
    ensures { slots.items ≡ Some result ∷ [] }
{
    let Some(Some(engine)) = slots.pop() else {
        unreachable!()
    };
    slots.destroy_empty();
    engine
}
