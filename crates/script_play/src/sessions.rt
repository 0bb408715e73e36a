//! Sessions as play drives them: each makes its steps alone, and between the steps anybody's may come.
//! `script_runner` meets the trait with its engine; `play` alone calls it.

ghost use Rattle.std.specs.Prelude.{◌≡◌, ◌<◌, ◌≤◌, ◌^◌, length, true, false, None, IsTrue, OnOk, OnErr};
ghost use Rattle.inno_model.specs.Past.{under_way};
ghost use Rattle.inno_types.specs.Order.{IsBelow};
ghost use Rattle.script_play.specs.Sessions.{Shown, IsJoined, IsIdle, StartsNothing, Joins, Starts};

use inno_types::{Bytes, Item};
use store_api::{NoMemory, Progress};

/// Sessions that make their steps one at a time, at a moment that they are told.
pub trait Sessions {
    /// The names, the past, the moment, and who is at work.
    ghost shown: { Self → Shown };

    /// Adds a session, whose number is that of the sessions before it.
    fn join(&mut self, name: &Bytes) -> Result<u32, NoMemory>
        requires { length (shown self.old).names < 2 ^ 32 }
        ensures ok { OnOk result (Joins name.now (shown self.old) (shown self.new)) }
        ensures err { OnErr result (StartsNothing (shown self.old) (shown self.new)) };

    /// Whether the session has an item under way, or is on its way out.
    fn is_working(&self, s: u32) -> bool
        requires { IsJoined s (shown self.now) }
        ensures told { result ≡ (shown self.now).is_working s }
        ensures rests { result ≡ false → under_way s (shown self.now).past ≡ None };

    /// Whether the session is gone. Then nothing of it is under way.
    fn has_left(&self, s: u32) -> bool
        requires { IsJoined s (shown self.now) }
        ensures told { result ≡ (shown self.now).has_left s }
        ensures over { IsTrue result → under_way s (shown self.now).past ≡ None };

    /// The moment of the steps to come, in seconds.
    fn moment(&self) -> u64
        ensures { result ≡ (shown self.now).moment };

    /// Time passes until this moment.
    fn wait_until(&mut self, moment: u64)
        requires { (shown self.old).moment ≤ moment }
        ensures { shown self.new ≡ record (shown self.old) { moment = moment } };

    /// Starts an item of a session that has nothing to do.
    fn start(&mut self, s: u32, item: &Item) -> Result<(), NoMemory>
        requires joined { IsJoined s (shown self.old) }
        requires idle { IsIdle s (shown self.old) }
        ensures ok { OnOk result (Starts s item.now (shown self.old) (shown self.new)) }
        ensures err { OnErr result (StartsNothing (shown self.old) (shown self.new)) };

    /// Makes a step of the session's item, or of its way out, at the moment.
    fn step(&mut self, s: u32) -> Progress
        requires joined { IsJoined s (shown self.old) }
        requires working { (shown self.old).is_working s ≡ true }
        ensures starts { StartsNothing (shown self.old) (shown self.new) }
        ensures nears { result ≡ Progress.Went → IsBelow ((shown self.new).to_go s) ((shown self.old).to_go s) };

    /// Sends the session on its way out.
    fn leave(&mut self, s: u32)
        requires joined { IsJoined s (shown self.old) }
        requires idle { IsIdle s (shown self.old) }
        ensures starts { StartsNothing (shown self.old) (shown self.new) }
        ensures leaving { (shown self.new).is_working s ≡ true };
}
