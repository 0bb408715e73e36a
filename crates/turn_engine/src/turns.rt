//! What an engine has to be for sessions on threads to share it: its calls, and what each of them does to its board.
//! The rest of this crate knows an engine by this trait alone.

ghost use Rattle.std.specs.Prelude.{◌≡◌, ℕ, ◌<◌, [], ◌∷◌, length, IfOk, OnOk, OnErr};
ghost use Rattle.inno_types.specs.declared.reply.Item.{Item as SpecItem};
ghost use Rattle.inno_model.specs.declared.event.Event.TheVariants.{Started};
ghost use Rattle.inno_model.specs.declared.board.Phase.TheVariants.{Idle, Busy, Leaving, Left};
ghost use Rattle.inno_model.specs.Boards.{phase_of};
ghost use Rattle.turn_engine.specs.Calls.{Makes, Joins, StepsBy, IsUnderWay, has_left, item_number, reply_of};

use inno_model::Recorded;
use inno_types::{Bytes, Item};
use store_api::{NoMemory, Progress};

/// An engine whose calls many threads make in turns.
pub trait Turns: Recorded {
    /// The items that sessions may ask for.
    ghost takes: { SpecItem → Type 0 };

    /// Adds a session, whose number is that of the sessions before it.
    fn join(&mut self, name: &Bytes) -> Result<u32, NoMemory>
        requires { length (Self.board self.old).names < 68 }
        ensures number { IfOk result (λ s. s ≡ length (Self.board self.old).names) }
        ensures ok { OnOk result (Joins name.now (Self.board self.old) (Self.board self.new)) }
        ensures err { OnErr result (Makes 0 (Self.board self.old) (Self.board self.new) [] (phase_of (Self.board self.old) 0)) };

    /// Starts an item of an idle session.
    fn start(&mut self, s: u32, item: &Item) -> Result<(), NoMemory>
        requires joined { s < length (Self.board self.old).names }
        requires idle { phase_of (Self.board self.old) s ≡ Idle }
        requires takes { takes item.now }
        ensures ok { OnOk result (Makes s (Self.board self.old) (Self.board self.new) (Started s (item_number s (Self.board self.old)) item.now ∷ []) Busy) }
        ensures err { OnErr result (Makes s (Self.board self.old) (Self.board self.new) [] Idle) };

    /// Makes a step of the session's item under way, or of its ending. `now` is the moment.
    fn step(&mut self, s: u32, now: u64) -> Progress
        requires joined { s < length (Self.board self.old).names }
        requires under_way { IsUnderWay (phase_of (Self.board self.old) s) }
        ensures { StepsBy s (Self.board self.old) (phase_of (Self.board self.old) s) (reply_of result) (Self.board self.new) };

    /// Begins the ending of an idle session, whose steps `step` makes.
    fn leave(&mut self, s: u32)
        requires joined { s < length (Self.board self.old).names }
        requires idle { phase_of (Self.board self.old) s ≡ Idle }
        ensures { Makes s (Self.board self.old) (Self.board self.new) [] Leaving };

    /// Hears how many microseconds the last step took.
    fn took(&mut self, microseconds: u64)
        ensures { Self.board self.new ≡ Self.board self.old };

    /// Whether the session waits for what others can bring about, so that they should come to their turns first.
    fn lingers(&self, s: u32) -> bool
        requires { s < length (Self.board self.now).names };

    /// Whether the session's ending has come to its end.
    fn left(&self, s: u32) -> bool
        requires { s < length (Self.board self.now).names }
        ensures { result ≡ has_left (phase_of (Self.board self.now) s) };

    /// The length of the history.
    fn len(&self) -> u64
        ensures { result ≡ length (Self.board self.now).past };
}
