//! The hall that threads share: the gate with the engine. It is opened by `share` over an engine that nobody has joined,
//! and closed by `gather` once every session has left.

ghost use Rattle.std.specs.Prelude.{◌≡◌, ℕ, ◌<◌, ◌≤◌, [], ◌∷◌, false, length, All, Any, IfOk, IfErr, OnOk, OnErr};
ghost use Rattle.std.specs.List.{AllByRecursion};
ghost use Rattle.inno_model.specs.Boards.{calls_of, phase_of};
ghost use Rattle.inno_model.specs.declared.board.Phase.TheVariants.{Idle};
ghost use Rattle.turn_rule.specs.Steps.{IsAtRest};
ghost use Rattle.turn_engine.specs.Sessions.{own, setup, IsUncalled, HasCalls, gathered};

use crate::session::{Receipt, Session};
use crate::turns::Turns;
use inno_types::{Bytes, Listed};
use std::alloc::Global;
use std::marker::Model;
use store_api::NoMemory;
use turn_rule::{Gate, Pass};

/// An engine that threads share.
#[derive(Drop)]
pub struct Hall<E: Turns> {
    gate: Gate<E>,
}

impl<E: Turns> Model for Hall<E> {
    ghost use Rattle.atomic_table.specs.Seated.{TableId, table_id_coded};

    ghost Value = { TableId };

    ghost coded = { table_id_coded };

    ghost view = { λ h. h.gate };
}

/// A hall over an engine that nobody has joined, and its first session, for the setup part. An `Err` hands the engine
/// back.
pub fn share<E: Turns>(alloc: Global, mut engine: E) -> Result<(Hall<E>, Session), (E, NoMemory)>
    requires nobody { (E.board engine).names ≡ [] }
    requires no_calls { (x : ℕ) → calls_of x (E.board engine).past ≡ [] }
    ensures ok { IfOk result (λ r. (r.1.hall ≡ r.0) × (r.1.number ≡ 0) × (own r.1 ≡ []) × (r.1.seen.names ≡ setup ∷ []) × (r.1.lost ≡ false)) }
    ensures err { IfErr result (λ r. IsUncalled (E.board r.0)) }
{
    if join_first(alloc, &mut engine).is_err() {
        return Err((engine, NoMemory));
    }
    let len = engine.len();
    match Gate::new(alloc, engine, len) {
        Ok((gate, pass)) => Ok((Hall { gate }, Session::of_pass(pass, 0, len))),
        Err(engine) => Err((engine, NoMemory)),
    }
}

/// The setup part joins.
fn join_first<E: Turns>(alloc: Global, engine: &mut E) -> Result<u32, NoMemory>
    requires nobody { (E.board engine.old).names ≡ [] }
    requires no_calls { (x : ℕ) → calls_of x (E.board engine.old).past ≡ [] }
    ensures ok { OnOk result ((E.board engine.new).names ≡ setup ∷ []) }
    ensures err { OnErr result ((E.board engine.new).names ≡ []) }
    ensures idle { OnOk result (phase_of (E.board engine.new) 0 ≡ Idle) }
    ensures no_calls { (x : ℕ) → calls_of x (E.board engine.new).past ≡ [] }
{
    let name = Listed::from_vec(Vec::from_slice(alloc, "setup".as_bytes())?);
    engine.join(&name)
}

impl<E: Turns> Hall<E> {
    pub(crate) fn gate(&self) -> &Gate<E>
        ensures { result.now ≡ self.now }
    {
        &self.gate
    }

    /// The engine, once every session has left: it has the calls of each, and no others. Who never joined has none.
    pub fn gather(self, first: Session, receipts: Vec<Receipt>) -> E
        requires hall { (first.hall ≡ self) × All (λ r. r.hall ≡ self) receipts.items }
        requires first { first.number ≡ 0 }
        requires all { (x : ℕ) → 0 < x → x < length first.seen.names → Any (λ r. r.number ≡ x) receipts.items }
        ensures first { HasCalls (E.board result) first }
        ensures receipts { All (HasCalls (E.board result)) receipts.items }
        ensures names { (E.board result).names ≡ first.seen.names }
        ensures others { (x : ℕ) → length first.seen.names ≤ x → calls_of x (E.board result).past ≡ [] }
        ensures idle { phase_of (E.board result) 0 ≡ Idle }
    {
        let Hall { gate } = self;
        let mut pass = first.into_pass();
        absorb(&gate, &mut pass, receipts);
        gate.close(pass)
    }
}

/// The seat takes in those of the receipts.
fn absorb<E: Turns>(gate: &Gate<E>, pass: &mut Pass<E>, mut receipts: Vec<Receipt>)
    requires gate { pass.old.table_id ≡ gate.now }
    requires rests { IsAtRest pass.old.me pass.old.me.0.mine.number }
    requires halls { AllByRecursion (λ r. r.hall ≡ gate.now) receipts.items }
    ensures gate { pass.new.table_id ≡ pass.old.table_id }
    ensures seat { pass.new.me.0 ≡ gathered pass.old.me.0 receipts.items }
{
    while !receipts.is_empty() {
        let receipt = receipts.remove(0);
        gate.join(pass, receipt.into_pass());
    }
}
