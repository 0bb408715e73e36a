//! Lists of latches: who stands in the way of a request, whose latch goes, and which targets an actor has.
//! The latch table alone calls these.

ghost use Rattle.std.specs.Prelude.{◌≡◌, ◌≤◌, length, vec_capacity, MatchOption};
ghost use Rattle.std.specs.List.{list_any};
ghost use Rattle.latch_table.specs.Held as held_latches;

use crate::latches::{Latch, Target, Targets};
use arrayvec::ArrayVec;

/// An actor whose latch keeps this one from being granted, if there is one.
pub fn holder_in(held: &[Latch], asked: &Latch) -> Option<u32>
    ensures { MatchOption result (held_latches.IsFree asked.now held.now) (λ by. held_latches.HoldsAgainst by asked.now held.now) }
{
    for latch in held {
        if latch.conflicts(asked) {
            return Some(latch.actor);
        }
    }
    None
}

/// Whether the actor holds the target already, in this mode or in the stronger one.
pub fn is_covered(held: &[Latch], asked: &Latch) -> bool
    ensures { result ≡ held_latches.is_covered asked.now held.now }
{
    held.iter().any(|latch| latch.covers(asked))
}

/// Keeps all latches but the actor's of this target.
pub fn give_back(held: &mut Vec<Latch>, actor: u32, target: Target)
    ensures items { held.new.items ≡ held_latches.without actor target held.old.items }
    ensures capacity { vec_capacity held.new ≡ vec_capacity held.old }
{
    held.retain(|latch| !latch.is_of(actor, target));
}

/// The actor's targets, in order of grant.
pub fn targets_in(held: &[Latch], actor: u32) -> Targets
    requires { length (held_latches.targets_of actor held.now) ≤ 64 }
    ensures { result.items ≡ held_latches.targets_of actor held.now }
{
    let mut targets = ArrayVec::new();
    for latch in held {
        if latch.actor == actor {
            targets.push(latch.target);
        }
    }
    targets
}
