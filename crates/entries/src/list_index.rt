//! An index in memory: an ordered map, the place of each actor, and who is awaited.
//! `list_store` keeps one for each number of an index. It knows nothing of rows, locks or the disk.

ghost use Rattle.std.specs.Prelude.{◌≡◌, IfOk, IsOk, MatchOption, MatchResult, option_map};
ghost use Rattle.std.specs.Map.Iter.{deref_pair};
ghost use Rattle.entries.specs.Pairs.{AreSound, IsShort};
ghost use Rattle.entries.specs.Index.{IsAsBefore, IsFree, IsHeld};
ghost use Rattle.entries.specs.Calls.{next_of, Gives, Seeks, Follows, Inserts};
ghost use Rattle.entries.specs.Lists.{shown, empty_index};

use crate::buffers::PairBuffers;
use crate::index::Entries;
use crate::pairs::SortedPairs;
use inno_types::Bytes;
use std::alloc::{AllocError, Global};
use std::collections::BTreeMap;
use store_api::{Move, NoMemory};

/// An index in memory. It makes no steps on the way: each call ends, but where another actor is awaited or memory runs out.
#[derive(Drop)]
pub struct ListIndex {
    alloc: Global,
    pairs: SortedPairs,
    /// The pair that each actor was given last.
    places: BTreeMap<u32, (Bytes, Bytes)>,
    /// Of a place that was given up last.
    spare: PairBuffers,
    /// The actor that has called `next_key` and has since neither inserted nor removed.
    awaited: Option<u32>,
}

impl ListIndex {
    /// An index with no pairs. It takes no memory.
    pub fn new(alloc: Global) -> Result<ListIndex, NoMemory>
        ensures empty { IfOk result (λ list. ⟦<ListIndex as Entries>⟧.index list ≡ empty_index) }
        ensures ok { IsOk result }
    {
        Ok(ListIndex {
            alloc,
            pairs: SortedPairs::new(alloc),
            places: BTreeMap::new(alloc),
            spare: PairBuffers::new(alloc),
            awaited: None,
        })
    }

    /// Another actor that is awaited, if there is one.
    fn other_awaited(&self, actor: u32) -> Option<u32>
        ensures { MatchOption result (IsFree actor (shown self.now)) (λ by. IsHeld actor by (shown self.now)) }
    {
        match self.awaited {
            None => None,
            Some(holder) => { if holder == actor { None } else { Some(holder) } }
        }
    }

    /// Gives the actor the pair that was found, which is its place from now on.
    fn give(&mut self, actor: u32, found: Option<(Bytes, Bytes)>) -> Result<Move, AllocError>
        ensures { MatchResult result (λ answer. Gives actor found (shown self.old) (shown self.new) answer) (λ _. IsAsBefore (shown self.old) (shown self.new)) }
    {
        match found {
            None => Ok(Move::End),
            Some((key, value)) => {
                let place = self
                    .spare
                    .filled(self.alloc, key.as_slice(), value.as_slice())?;
                if let Some(before) = self.places.insert(actor, place)? {
                    self.spare.keep(before);
                }
                Ok(Move::At(key, value))
            }
        }
    }

    fn try_seek(
        &mut self,
        actor: u32,
        from: &Bytes,
        buffers: &mut PairBuffers,
    ) -> Result<Move, AllocError>
        ensures { MatchResult result (λ answer. Seeks actor from.now (shown self.old) (shown self.new) answer) (λ _. IsAsBefore (shown self.old) (shown self.new)) }
    {
        let found = copied(self.alloc, self.pairs.first_from(from), buffers)?;
        self.give(actor, found)
    }

    /// The pair behind the actor's place, if there is one.
    fn found_after(&self, actor: u32) -> Option<(&Bytes, &Bytes)>
        ensures { option_map deref_pair result ≡ next_of ((shown self.now).place actor) self.now.pairs }
    {
        self.pairs.first_after(&self.places.get(&actor)?.0)
    }

    fn try_following(&mut self, actor: u32, buffers: &mut PairBuffers) -> Result<Move, AllocError>
        ensures { MatchResult result (λ answer. Follows actor (shown self.old) (shown self.new) answer) (λ _. IsAsBefore (shown self.old) (shown self.new)) }
    {
        let found = copied(self.alloc, self.found_after(actor), buffers)?;
        self.give(actor, found)
    }

    fn try_insert(&mut self, actor: u32, key: &Bytes, value: &Bytes) -> Result<Move, AllocError>
        requires { IsShort (key.now, value.now) }
        ensures answer { MatchResult result (λ answer. Inserts actor key.now value.now (shown self.old) (shown self.new) answer) (λ _. IsFree actor (shown self.old) × IsAsBefore (shown self.old) (shown self.new)) }
        ensures sound { AreSound self.new.pairs }
    {
        self.pairs.are_sound();
        if let Some(by) = self.other_awaited(actor) {
            return Ok(Move::Latch { by });
        }
        match self.pairs.insert(key, value)? {
            Some(kept) => {
                let key = key.copied()?;
                self.awaited = None;
                Ok(Move::At(key, kept))
            }
            None => {
                self.awaited = None;
                Ok(Move::Done)
            }
        }
    }
}

impl Entries for ListIndex {
    ghost use Rattle.entries.specs.Lists.{shown};

    ghost index = { shown };

    fn seek(&mut self, actor: u32, from: &Bytes, buffers: &mut PairBuffers) -> Move {
        self.pairs.are_sound();
        self.try_seek(actor, from, buffers)
            .unwrap_or(Move::NoMemory)
    }

    fn following(&mut self, actor: u32, buffers: &mut PairBuffers) -> Move {
        self.pairs.are_sound();
        self.try_following(actor, buffers).unwrap_or(Move::NoMemory)
    }

    fn fetch(&mut self, _actor: u32, key: &Bytes, into: &mut Vec<u8>) -> Move {
        self.pairs.are_sound();
        if self.pairs.read_value(key, into) {
            Move::Done
        } else {
            Move::End
        }
    }

    fn next_key(&mut self, actor: u32, key: &Bytes, into: &mut Vec<u8>) -> Move {
        self.pairs.are_sound();
        if let Some(by) = self.other_awaited(actor) {
            return Move::Latch { by };
        }
        self.awaited = Some(actor);
        if self.pairs.read_key_after(key, into) {
            Move::Done
        } else {
            Move::End
        }
    }

    fn insert(&mut self, actor: u32, key: &Bytes, value: &Bytes) -> Move {
        self.try_insert(actor, key, value).unwrap_or(Move::NoMemory)
    }

    fn replace(&mut self, _actor: u32, key: &Bytes, value: &Bytes) -> Move {
        match self.pairs.replace(self.alloc, key, value) {
            Ok(true) => Move::Done,
            Ok(false) => Move::End,
            Err(_) => Move::NoMemory,
        }
    }

    fn remove(&mut self, actor: u32, key: &Bytes) -> Move {
        self.pairs.are_sound();
        if let Some(by) = self.other_awaited(actor) {
            return Move::Latch { by };
        }
        self.awaited = None;
        if self.pairs.remove(key) {
            Move::Done
        } else {
            Move::End
        }
    }

    fn tidy(&mut self, _actor: u32) -> Move {
        self.pairs.are_sound();
        Move::Done
    }

    fn leave(&mut self, actor: u32) {
        let _ = self.places.remove(&actor);
        self.awaited = self.other_awaited(actor);
    }
}

/// A copy of a pair that was found, in the memory of the buffers.
fn copied(
    alloc: Global,
    found: Option<(&Bytes, &Bytes)>,
    buffers: &mut PairBuffers,
) -> Result<Option<(Bytes, Bytes)>, AllocError>
    ensures { IfOk result (λ copy. copy ≡ option_map deref_pair found.entry) }
{
    match found {
        Some((key, value)) => Ok(Some(buffers.filled(alloc, key.as_slice(), value.as_slice())?)),
        None => Ok(None),
    }
}
