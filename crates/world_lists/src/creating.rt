//! A table that is made in the session's transaction, amid the one call by which it begins, makes the table and commits.
//! `make_table` of `steps` alone calls this.

ghost use Rattle.std.specs.Prelude.{◌≡◌, ◌≢◌, ◌-◌, ◌<◌, ◌^◌, [], length, OnOk, OnErr, Some};
ghost use Rattle.inno_db.specs.declared.change.Change.TheVariants.{Create};
ghost use Rattle.inno_model.specs.declared.event.Event.TheVariants.{Changed};
ghost use Rattle.inno_model.specs.Past.{own, IsOpen};
ghost use Rattle.law_stored_rows.specs.Storable.{IsStorable};
ghost use Rattle.shared_lists.specs.Tasks.{Idle};
ghost use Rattle.shared_lists.specs.State.{task_of, Adds, Stays};
ghost use Rattle.txn_table.specs.Txns.{is_there, id_at};
ghost use Rattle.world.specs.Sessions.{identified};

use crate::lists::{WorldLists, is_short};
use inno_types::Schema;
use shared_lists::SharedLists;
use store_api::NoMemory;
use world::EngineWorld;

impl<W: EngineWorld> WorldLists<W> {
    /// Makes a table, by the session that may write. An `Err` changes nothing.
    pub(crate) fn create(&mut self, session: u32, schema: Schema) -> Result<(), NoMemory>
        requires joined { session < length self.old.state.names }
        requires is_open { IsOpen session self.old.state.past }
        requires locked { self.old.state.writer ≡ Some session }
        requires idle { task_of session self.old.state ≡ Idle }
        requires first { own session self.old.state.past ≡ [] }
        requires storable { IsStorable schema }
        ensures ok { OnOk result (Adds (Changed session (Create schema)) session self.old.state self.new.state) }
        ensures err { OnErr result (Stays session self.old.state self.new.state) }
        ensures settings { self.new.settings ≡ self.old.settings }
        ensures rows { self.new.rows ≡ self.old.rows }
    {
        let txn = self.txn_of(session);
        let id = self.world.session(session).id;
        self.world.add_table(session, schema)?;
        give_first_id(&mut self.world, txn, id);
        is_short(&self.world);
        Ok(())
    }
}

/// Gives the transaction its id, where it has none.
fn give_first_id<W: EngineWorld>(world: &mut W, txn: u64, id: u64)
    requires there { is_there txn (W.state world.old).txns.open_txns }
    requires id { id_at txn (W.state world.old).txns.open_txns ≡ id }
    requires few { (W.state world.old).txns.next < 2 ^ 64 - 1 }
    ensures first { id ≡ 0 → W.state world.new ≡ identified txn (W.state world.old) }
    ensures later { id ≢ 0 → W.state world.new ≡ W.state world.old }
{
    if id == 0 {
        let _id = world.give_id(txn);
    }
}
