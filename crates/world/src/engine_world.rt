//! The calls of a world that the engine alone makes. Such a world tells all that it holds, and puts no call off.
//! `world_lists` alone makes them, and `PartsWorld` alone answers them.

ghost use Rattle.std.specs.Prelude.{◌≡◌, ◌+◌, ◌<◌, ◌≤◌, ◌^◌, true, is_some, length, OnOk, OnErr, IfOk};
ghost use Rattle.inno_db.specs.declared.limits.TheConstants.{MOST_KEYS};
ghost use Rattle.sql_history.specs.Counts.{rows_of_reply};
ghost use Rattle.world.specs.State.{Session, Work, HasWork, IsSession};
ghost use Rattle.world.specs.EngineCalls.{joined, item_started, item_ended, acknowledged, signalled, with_setting, MakesTable};
ghost use Rattle.world.specs.AtHand.{IsAtHand};

use crate::World;
use inno_model::History;
use inno_types::{Bytes, Item, Listed, Reply, Schema, Stmt};
use sql_history::SessionSettings;
use store_api::NoMemory;

/// A world that an engine keeps.
pub trait EngineWorld: World + Drop {
    /// What happened.
    fn history(&self) -> &History
        ensures names { result.now.names ≡ (Self.state self.now).names }
        ensures past { result.now.past ≡ (Self.state self.now).past }
        ensures few { length (Self.state self.now).past < 2 ^ 63 };

    /// What happened, and nothing else.
    fn into_history(self) -> History
        ensures names { result.names ≡ (Self.state self).names }
        ensures past { result.past ≡ (Self.state self).past };

    /// The tables, by number.
    fn tables(&self) -> &Listed<Schema>
        ensures { result.now ≡ (Self.state self.now).schemas };

    /// What a session has set.
    fn settings(&self, s: u32) -> &SessionSettings
        requires { s < length (Self.state self.now).sessions }
        ensures { (session : Session) → IsSession s session (Self.state self.now) → result.now ≡ session.setting };

    /// Whether the session's open transaction keeps a view.
    fn has_view(&self, s: u32) -> bool
        requires { s < length (Self.state self.now).sessions }
        ensures { (session : Session) (work : Work) → HasWork s session work (Self.state self.now) → result ≡ is_some work.view };

    /// Another session, and its number. An `Err` changes nothing.
    fn join(&mut self, name: Bytes) -> Result<u32, NoMemory>
        requires { length (Self.state self.old).sessions < 68 }
        ensures number { IfOk result (λ s. s ≡ length (Self.state self.old).sessions) }
        ensures ok { OnOk result (Self.state self.new ≡ joined name (Self.state self.old)) }
        ensures err { OnErr result (Self.state self.new ≡ Self.state self.old) };

    /// Starts an item of the session, with room for the entry by which it ends. An `Err` changes nothing.
    fn start(&mut self, s: u32, j: u32, item: Item) -> Result<(), NoMemory>
        requires { s < length (Self.state self.old).sessions }
        ensures ok { OnOk result ((session : Session) → IsSession s session (Self.state self.old) → Self.state self.new ≡ item_started s j item session (Self.state self.old)) }
        ensures err { OnErr result (Self.state self.new ≡ Self.state self.old) };

    /// Ends an item of the session, for which there is room. It takes no memory.
    fn end_item(&mut self, s: u32, j: u32, reply: Reply)
        requires may { (session : Session) × IsSession s session (Self.state self.old) × (session.can_reply ≡ true) }
        requires few { (Self.state self.old).rows + rows_of_reply reply < 2 ^ 63 }
        ensures { (session : Session) → IsSession s session (Self.state self.old) → Self.state self.new ≡ item_ended s j reply session (Self.state self.old) };

    /// Acknowledges the session's commit, at a moment of the disk. It takes no memory.
    fn ack(&mut self, s: u32, moment: u64)
        requires { (session : Session) × IsSession s session (Self.state self.old) × (session.can_ack ≡ true) }
        ensures { (session : Session) → IsSession s session (Self.state self.old) → Self.state self.new ≡ acknowledged s moment session (Self.state self.old) };

    /// Adds a signal of this name, which stays. An `Err` changes nothing.
    fn add_signal(&mut self, name: Bytes) -> Result<(), NoMemory>
        ensures ok { OnOk result (Self.state self.new ≡ signalled name (Self.state self.old)) }
        ensures err { OnErr result (Self.state self.new ≡ Self.state self.old) };

    /// Sets what a statement sets that was done, other than a savepoint of an open transaction. It takes no memory.
    fn set(&mut self, s: u32, stmt: &Stmt)
        requires { s < length (Self.state self.old).sessions }
        ensures { (session : Session) → IsSession s session (Self.state self.old) → Self.state self.new ≡ with_setting s stmt.now session (Self.state self.old) };

    /// Makes a table, by the session's open transaction. An `Err` changes nothing.
    fn add_table(&mut self, s: u32, schema: Schema) -> Result<(), NoMemory>
        requires may { (session : Session) × (work : Work) × HasWork s session work (Self.state self.old) }
        requires keys { length schema.keys ≤ MOST_KEYS }
        ensures ok { OnOk result (MakesTable s schema (Self.state self.old) (Self.state self.new)) }
        ensures err { OnErr result (Self.state self.new ≡ Self.state self.old) };

    /// It tells all that it holds, and puts no call off: what it has in pages is at hand, before each call and after it.
    ghost never_delays: { (world : Self) → IsAtHand (Self.state world) };
}
