//! Two threads take the turn of one gate, over a fake engine that only writes its calls down.
//! Only `turn_rule` is tried: neither a real engine nor a database is met.

ghost use Rattle.std.specs.Prelude.{◌≡◌, ◌+◌, ◌<◌, [], ◌∷◌, ◌++◌, length, IfOk, OnOk, OnErr};
ghost use Rattle.inno_types.specs.declared.reply.Item.TheVariants.{Sql};
ghost use Rattle.inno_types.specs.declared.reply.Reply.TheVariants.{Done};
ghost use Rattle.inno_model.specs.declared.event.Event.TheVariants.{Started, Ended};
ghost use Rattle.inno_model.specs.Boards.{calls_of};
ghost use Rattle.turn_rule.specs.Steps.{HasTurn, IsAtRest};

use inno_model::{Event, History, Recorded};
use inno_types::{Bytes, Item, Listed, Reply};
use std::alloc::{AllocError, Global};
use std::marker::Model;
use std::process::Abort;
use std::sync::Wait;
use std::test::Fail;
use std::thread::join;
use turn_rule::{Gate, Pass};

/// A fake engine: a history to which sessions add whole calls, so that each is idle whenever it is looked at.
#[derive(Drop)]
struct Scribe {
    alloc: Global,
    history: History,
}

impl Model for Scribe {
    ghost use Rattle.std.specs.Prelude.{[]};
    ghost use Rattle.inno_model.specs.declared.board.Board.{Board};
    ghost use Rattle.inno_model.specs.contracts.Board as of_board;

    ghost Value = { Board };

    ghost coded = { of_board.the_row.coded };

    ghost view = { λ e. record { names = e.history.names; past = e.history.past; phases = [] } };
}

impl Recorded for Scribe {
    ghost board = { λ e. e };
}

impl Scribe {
    /// With the session of the setup part.
    fn new(alloc: Global) -> Result<Scribe, AllocError>
        ensures { IfOk result (λ e. e ≡ record { names = [] ∷ []; past = []; phases = [] }) }
    {
        let mut history = History::new(alloc);
        history.add_name(Listed::new(alloc))?;
        Ok(Scribe { alloc, history })
    }

    fn join(&mut self, name: Bytes) -> Result<(), AllocError>
        ensures ok { OnOk result (self.new ≡ record self.old { names = self.old.names ++ name ∷ [] }) }
        ensures err { OnErr result (self.new ≡ self.old) }
    {
        self.history.add_name(name)
    }

    /// The session's item `j`, from its Started to its Ended.
    fn call(&mut self, s: u32, j: u32) -> Result<(), AllocError>
        ensures ok { OnOk result (self.new ≡ record self.old { past = Ended s j Done ∷ Started s j (Sql []) ∷ self.old.past }) }
        ensures err { OnErr result (self.new ≡ self.old) }
    {
        self.history.reserve(2)?;
        let item = Item::Sql(Listed::new(self.alloc));
        self.history.add(Event::Started { s, j, item });
        let reply = Reply::Done;
        self.history.add(Event::Ended { s, j, reply });
        Ok(())
    }

    fn len(&self) -> u64
        ensures { result ≡ length self.now.past }
    {
        self.history.events().len() as u64
    }
}

fn take_turn<R: Wait>(rt: &R, gate: &Gate<Scribe>, pass: &mut Pass<Scribe>, number: u32) -> Scribe
    requires gate { pass.old.table_id ≡ gate.now }
    requires idle { IsAtRest pass.old.me number }
    ensures gate { pass.new.table_id ≡ pass.old.table_id }
    ensures turn { HasTurn (λ e. e) pass.old.me result pass.new.me }
{
    for _ in rt.forever() {
        match gate.try_take(pass, number) {
            Ok(scribe) => return scribe,
            Err(found) => gate.wait(rt, found),
        }
    }
    unreachable!()
}

/// One call in one turn: of the session's entries the seat then has its Started and its Ended more.
fn call_once<R: Wait>(
    rt: &R,
    gate: &Gate<Scribe>,
    pass: &mut Pass<Scribe>,
    number: u32,
    j: u32,
) -> Result<(), AllocError>
    requires gate { pass.old.table_id ≡ gate.now }
    requires idle { IsAtRest pass.old.me number }
    ensures gate { pass.new.table_id ≡ pass.old.table_id }
    ensures idle { IsAtRest pass.new.me number }
    ensures calls { OnOk result (calls_of number pass.new.me.0.mine.seen.past ≡ Ended number j Done ∷ Started number j (Sql []) ∷ calls_of number pass.old.me.0.mine.seen.past) }
{
    let mut scribe = take_turn(rt, gate, pass, number);
    let called = scribe.call(number, j);
    let len = scribe.len();
    gate.hand_back(pass, scribe, len);
    called
}

/// As many calls, each in a turn of its own.
fn play<R: Wait>(
    rt: &R,
    gate: &Gate<Scribe>,
    mut pass: Pass<Scribe>,
    number: u32,
    calls: u32,
) -> Pass<Scribe>
    requires gate { pass.table_id ≡ gate.now }
    requires idle { IsAtRest pass.me number }
    ensures gate { result.table_id ≡ pass.table_id }
    ensures idle { IsAtRest result.me number }
{
    for j in 1..=calls {
        if call_once(rt, gate, &mut pass, number, j).is_err() {
            return pass;
        }
    }
    pass
}

/// The seat of a session that joins.
fn seat_one_more<R: Wait>(
    rt: &R,
    gate: &Gate<Scribe>,
    first: &mut Pass<Scribe>,
    name: Bytes,
) -> Result<Pass<Scribe>, AllocError>
    requires gate { first.old.table_id ≡ gate.now }
    requires idle { IsAtRest first.old.me 0 }
    ensures gate { first.new.table_id ≡ first.old.table_id }
    ensures idle { IsAtRest first.new.me 0 }
    ensures given { IfOk result (λ r. (r.table_id ≡ first.old.table_id) × IsAtRest r.me (length first.old.me.0.mine.seen.names)) }
    ensures names { OnOk result (length first.new.me.0.mine.seen.names ≡ length first.old.me.0.mine.seen.names + 1) }
{
    let mut scribe = take_turn(rt, gate, first, 0);
    let joined = scribe.join(name);
    let len = scribe.len();
    if let Err(refused) = joined {
        gate.hand_back(first, scribe, len);
        return Err(refused);
    }
    gate.put(first, scribe);
    gate.publish(first, len);
    let pass = gate.split(first);
    gate.depart(first);
    Ok(pass)
}

/// The fake engine, once its three sessions have ended.
fn gathered(
    gate: Gate<Scribe>,
    mut first: Pass<Scribe>,
    one: Pass<Scribe>,
    two: Pass<Scribe>,
) -> Scribe
    requires gate { (first.table_id ≡ gate) × (one.table_id ≡ gate) × (two.table_id ≡ gate) }
    requires idle { IsAtRest first.me 0 × IsAtRest one.me 1 × IsAtRest two.me 2 }
    requires names { length first.me.0.mine.seen.names ≡ 3 }
{
    gate.join(&mut first, one);
    gate.join(&mut first, two);
    gate.close(first)
}

/// How many items of the session the entries have, if each stands whole and in its place.
fn items_in_order(events: &[Event], session: u32) -> Option<u32> {
    let mut ended = 0;
    let mut is_under_way = false;
    for event in events {
        match event {
            Event::Started { s, j, .. } if *s == session => {
                if is_under_way || j.checked_sub(1) != Some(ended) {
                    return None;
                }
                is_under_way = true;
            }
            Event::Ended { s, j, .. } if *s == session => {
                if !is_under_way || j.checked_sub(1) != Some(ended) {
                    return None;
                }
                is_under_way = false;
                ended = *j;
            }
            _ => {}
        }
    }
    if is_under_way { None } else { Some(ended) }
}

#[test]
fn two_threads_take_the_turn(rt: HostRuntime) -> Result<(), Fail> {
    let scribe = Scribe::new(rt.alloc())?;
    let Ok((gate, mut first)) = Gate::new(rt.alloc(), scribe, 0) else {
        panic!(rt; "memory")
    };
    let one = seat_one_more(&rt, &gate, &mut first, Listed::new(rt.alloc()))?;
    let two = seat_one_more(&rt, &gate, &mut first, Listed::new(rt.alloc()))?;
    let lent = &gate;
    let (one, two) = join(
        &rt,
        move || -> Pass<Scribe>
            requires { (one.table_id ≡ lent.now) × IsAtRest one.me 1 }
            ensures { (result.table_id ≡ one.table_id) × IsAtRest result.me 1 }
        { play(&rt, lent, one, 1, 1000) },
        move || -> Pass<Scribe>
            requires { (two.table_id ≡ lent.now) × IsAtRest two.me 2 }
            ensures { (result.table_id ≡ two.table_id) × IsAtRest result.me 2 }
        { play(&rt, lent, two, 2, 1000) },
    );
    let scribe = gathered(gate, first, one, two);
    let events = scribe.history.events();
    assert_eq!(rt; events.len(), 4000);
    assert_eq!(rt; items_in_order(events, 1), Some(1000));
    assert_eq!(rt; items_in_order(events, 2), Some(1000));
    Ok(())
}
