//! One ordered index, whatever it is kept in. The code above is generic over this trait.
//! Lists (`ListIndex`) and trees in pages (`tree_use`) implement it.

ghost use Rattle.std.specs.Prelude.{◌≡◌, ◌≤◌, false, length, IsSome, vec_capacity};
ghost use Rattle.entries.specs.Pairs.{AreSound};
ghost use Rattle.entries.specs.Index.{Index, Told, GoesOn, HasKeyWidth, HasValueWidth};
ghost use Rattle.entries.specs.Calls.{is_done, Seeks, Follows, Fetches, NextKeys, Inserts, Replaces, Removes, Tidies, Leaves};

use crate::buffers::PairBuffers;
use inno_types::Bytes;
use store_api::Move;

/// An ordered index. Keys have at most 67 bytes, and values at most 1,024.
pub trait Entries {
    /// The pairs, each actor's place, and who is awaited.
    ghost index: { Self → Index };

    /// Gives the first pair at or above the key, in the memory of the buffers, or answers `End`. The pair is the actor's
    /// place from now on.
    fn seek(&mut self, actor: u32, from: &Bytes, buffers: &mut PairBuffers) -> Move
        ensures answer { Seeks actor from.now (index self.old) (index self.new) result }
        ensures sound { Told AreSound (index self.new) }
        ensures later { GoesOn (index self.old).paged (index self.new).paged };

    /// Gives the first pair above the actor's place, in the memory of the buffers, or answers `End`.
    fn following(&mut self, actor: u32, buffers: &mut PairBuffers) -> Move
        requires { IsSome ((index self.old).place actor) }
        ensures answer { Follows actor (index self.old) (index self.new) result }
        ensures sound { Told AreSound (index self.new) }
        ensures later { GoesOn (index self.old).paged (index self.new).paged };

    /// Puts the key's value into `into`, or answers `End`.
    fn fetch(&mut self, actor: u32, key: &Bytes, into: &mut Vec<u8>) -> Move
        requires { 1024 ≤ vec_capacity into.old }
        ensures answer { Fetches actor key.now into.new.items (index self.old) (index self.new) result }
        ensures untouched { is_done result ≡ false → into.new.items ≡ into.old.items }
        ensures room { vec_capacity into.old ≤ vec_capacity into.new }
        ensures sound { Told AreSound (index self.new) }
        ensures later { GoesOn (index self.old).paged (index self.new).paged };

    /// Puts the first key above this one into `into`, or answers `End`. Until this actor's next `insert` or `remove` has
    /// ended, or it leaves, no other actor changes the keys.
    fn next_key(&mut self, actor: u32, key: &Bytes, into: &mut Vec<u8>) -> Move
        requires { 67 ≤ vec_capacity into.old }
        ensures answer { NextKeys actor key.now into.new.items (index self.old) (index self.new) result }
        ensures untouched { is_done result ≡ false → into.new.items ≡ into.old.items }
        ensures room { vec_capacity into.old ≤ vec_capacity into.new }
        ensures sound { Told AreSound (index self.new) }
        ensures later { GoesOn (index self.old).paged (index self.new).paged };

    /// Adds a pair, or answers `At` with the key's pair, which stays. In pages all keys are equally long, and all values are.
    fn insert(&mut self, actor: u32, key: &Bytes, value: &Bytes) -> Move
        requires key { length key.now ≤ 67 }
        requires value { length value.now ≤ 1024 }
        requires key_width { HasKeyWidth key.now (index self.old) }
        requires value_width { HasValueWidth value.now (index self.old) }
        ensures answer { Inserts actor key.now value.now (index self.old) (index self.new) result }
        ensures sound { Told AreSound (index self.new) }
        ensures later { GoesOn (index self.old).paged (index self.new).paged };

    /// Gives the key another value, or answers `End`.
    fn replace(&mut self, actor: u32, key: &Bytes, value: &Bytes) -> Move
        requires value { length value.now ≤ 1024 }
        requires width { HasValueWidth value.now (index self.old) }
        ensures answer { Replaces actor key.now value.now (index self.old) (index self.new) result }
        ensures sound { Told AreSound (index self.new) }
        ensures later { GoesOn (index self.old).paged (index self.new).paged };

    /// Removes the key's pair, or answers `End`.
    fn remove(&mut self, actor: u32, key: &Bytes) -> Move
        ensures answer { Removes actor key.now (index self.old) (index self.new) result }
        ensures sound { Told AreSound (index self.new) }
        ensures later { GoesOn (index self.old).paged (index self.new).paged };

    /// Merges the pages that the actor left too thin, up to `Done`.
    fn tidy(&mut self, actor: u32) -> Move
        ensures answer { Tidies actor (index self.old) (index self.new) result }
        ensures sound { Told AreSound (index self.new) }
        ensures later { GoesOn (index self.old).paged (index self.new).paged };

    /// Drops the actor's place. It is no longer awaited.
    fn leave(&mut self, actor: u32)
        ensures answer { Leaves actor (index self.old) (index self.new) }
        ensures later { GoesOn (index self.old).paged (index self.new).paged };
}
