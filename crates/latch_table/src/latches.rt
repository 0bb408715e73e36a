//! What a latch is, what it is held on, and what may be done with latches, as a trait.
//! `LatchTable` meets the trait; what works over latches is generic over it.

ghost use Rattle.std.specs.Prelude.{◌≡◌, ◌<◌, length};
ghost use Rattle.latch_table.specs.Targets as targets;
ghost use Rattle.latch_table.specs.Held as held_latches;
ghost use Rattle.latch_table.specs.Calls.{Answers};

use arrayvec::ArrayVec;
use inno_types::Mode;
use lock_rules::is_shared;

/// The most actors: 68 sessions, and the workers.
pub const MOST_ACTORS: usize = 71;

/// The most targets that an actor holds at one time.
pub const MOST_TARGETS: usize = 64;

/// What a latch is held on, by number.
#[derive(Clone, Copy, PartialEq, Eq)]
pub enum Target {
    Index(u32),
    Page(u32),
}

/// An actor's latch.
#[derive(Clone, Copy)]
pub struct Latch {
    pub actor: u32,
    pub target: Target,
    pub mode: Mode,
}

/// The answer to a request.
#[derive(Clone, Copy, Debug, PartialEq, Eq)]
pub enum Latched {
    Granted,
    /// That actor holds the target in a mode that conflicts.
    Held { by: u32 },
}

/// The targets of an actor, without memory.
pub type Targets = ArrayVec<Target, MOST_TARGETS>;

/// Latches that actors hold, in order of grant.
pub trait Latches {
    ghost use Rattle.std.specs.Prelude.{List};
    ghost use Rattle.latch_table.specs.declared.latches.Latch.{Latch as HeldLatch};

    ghost held: { Self → List HeldLatch };

    /// Asks for a latch. A refusal changes nothing, and no request is kept.
    fn try_latch(&mut self, actor: u32, target: Target, mode: Mode) -> Latched
        requires known { actor < 71 }
        requires room { length (held_latches.targets_of actor (held self.old)) < 64 }
        ensures answer { Answers (record { actor = actor; target = target; mode = mode }) (held self.old) (held self.new) result }
        ensures apart { held_latches.AreApart (held self.new) };

    /// Gives a latch back.
    fn release(&mut self, actor: u32, target: Target)
        requires { actor < 71 }
        ensures released { held self.new ≡ held_latches.without actor target (held self.old) }
        ensures apart { held_latches.AreApart (held self.new) };
}

/// The blank of a list of targets.
impl Default for Target {
    fn default() -> Target {
        Target::Index(0)
    }
}

impl Target {
    pub(crate) fn is(self, other: Target) -> bool
        ensures { result ≡ targets.same_target self other }
    {
        match (self, other) {
            (Target::Index(index), Target::Index(other)) => index == other,
            (Target::Page(page), Target::Page(other)) => page == other,
            _ => false,
        }
    }
}

impl Latch {
    /// Whether it is this actor's latch of this target.
    pub(crate) fn is_of(&self, actor: u32, target: Target) -> bool
        ensures { result ≡ held_latches.is_of actor target self.now }
    {
        self.actor == actor && self.target.is(target)
    }

    /// Whether it is another actor's and keeps the other latch from being granted.
    pub(crate) fn conflicts(&self, asked: &Latch) -> bool
        ensures { result ≡ held_latches.conflicts self.now asked.now }
    {
        self.actor != asked.actor
            && self.target.is(asked.target)
            && !(is_shared(self.mode) && is_shared(asked.mode))
    }

    /// Whether its actor need not ask for the other latch, since it holds this one.
    pub(crate) fn covers(&self, asked: &Latch) -> bool
        ensures { result ≡ held_latches.covers self.now asked.now }
    {
        self.is_of(asked.actor, asked.target) && (is_shared(asked.mode) || !is_shared(self.mode))
    }
}
