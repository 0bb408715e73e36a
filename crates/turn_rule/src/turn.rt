//! A whole turn, made of the steps of the gate: enter and take, then put, publish and depart.
//! `turn_engine` takes each turn by these two. Nothing here waits: who has missed is told who holds the turn.

ghost use Rattle.std.specs.Prelude.{◌≡◌, ◌≢◌, [], MatchResult};
ghost use Rattle.turn_rule.specs.Steps.{IsAtRest, HasTurn, MayHandBack, idle, published};

use crate::gate::{Gate, Pass};
use inno_model::Recorded;

impl<E: Recorded> Gate<E> {
    /// Enters, and takes the engine out of the slot. An `Err` has missed, and says what word 0 was: the number of
    /// the holder's session plus 1.
    pub fn try_take(&self, pass: &mut Pass<E>, number: u32) -> Result<E, u64>
        requires gate { pass.old.table_id ≡ self.now }
        requires idle { IsAtRest pass.old.me number }
        ensures gate { (pass.new.table_id ≡ pass.old.table_id) × (pass.new.id ≡ pass.old.id) }
        ensures turn { MatchResult result (λ e. HasTurn E.board pass.old.me e pass.new.me) (λ found. (found ≢ 0) × (pass.new.me ≡ pass.old.me)) }
    {
        let found = self.enter(pass, number);
        if found != 0 {
            return Err(found);
        }
        Ok(self.take(pass))
    }

    /// Puts the engine back, whose history has the length `len`, publishes its new entries, and departs.
    pub fn hand_back(&self, pass: &mut Pass<E>, engine: E, len: u64)
        requires gate { pass.old.table_id ≡ self.now }
        requires turn { MayHandBack E.board pass.old.me engine len }
        ensures gate { (pass.new.table_id ≡ pass.old.table_id) × (pass.new.id ≡ pass.old.id) }
        ensures seen { pass.new.me ≡ (idle (published pass.old.me.0 (E.board engine)), []) }
    {
        self.put(pass, engine);
        self.publish(pass, len);
        self.depart(pass);
    }
}
