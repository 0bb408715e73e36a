//! An index in a tree: its pages, the place of each actor, and who is awaited.
//! It is driven through `Entries`; no engine has such an index yet, only tests.

ghost use Rattle.std.specs.Prelude.{◌≡◌, ◌≤◌, IsTrue, IfOk, MatchOption, MatchResult, None};
ghost use Rattle.std.specs.Ordering.{nat_cmp};
ghost use Rattle.std.specs.BTreeMap.{get};
ghost use Rattle.stored_pages.specs.declared.layout.TheConstants.{PAGE};
ghost use Rattle.entries.specs.Index.{IsAsBefore, IsFree, IsHeld};
ghost use Rattle.entries.specs.Calls.{next_of, Gives, Seeks, Follows};
ghost use Rattle.tree_use.specs.Stored.{stored_of, HasWidths, IsAtRest};
ghost use Rattle.btree.specs.Reads.{IsIdle};
ghost use Rattle.tree_use.specs.Shown.{index_of, IsEmptyOf};
ghost use Rattle.tree_use.specs.Beginning.{HoldsNewTree};

use crate::beginning::is_new_tree;
use crate::pages::TreePages;
use btree::Tree;
use entries::{Entries, PairBuffers};
use inno_types::Bytes;
use mtr::Resident;
use std::alloc::{AllocError, Global};
use std::collections::BTreeMap;
use store_api::{Move, NoMemory};

/// An index in a tree. Each call of it ends, but where another actor is awaited, memory or pages are lacking, or the tree is too deep.
#[derive(Drop)]
pub struct TreeUse<M: Resident + Drop> {
    alloc: Global,
    pages: TreePages<M>,
    /// The pair that each actor was given last.
    places: BTreeMap<u32, (Bytes, Bytes)>,
    /// Of a place that was given up last.
    spare: PairBuffers,
    /// The actor that has called `next_key` and has since neither inserted nor removed.
    awaited: Option<u32>,
    /// The actor that has removed the last key, if its leaf wasn't tidied since.
    tidies: Option<u32>,
}

impl<M: Resident + Drop> TreeUse<M> {
    /// The index of a tree that stands on these pages. No actor has a place in it.
    pub fn new(alloc: Global, tree: Tree, m: M) -> Result<TreeUse<M>, NoMemory>
        requires widths { HasWidths tree }
        requires rest { IsAtRest tree (M.state m) }
        ensures { IfOk result (λ t. ⟦<TreeUse<M> as Entries>⟧.index t
            ≡ index_of (stored_of tree (M.state m).standing) (λ actor. None) None) }
    {
        Ok(TreeUse {
            alloc,
            pages: TreePages::new(alloc, tree, m)?,
            places: BTreeMap::new(alloc),
            spare: PairBuffers::new(alloc),
            awaited: None,
            tidies: None,
        })
    }

    /// The index of a tree that was just made, if the pages hold one: a root in use that is an empty leaf.
    pub fn begin(alloc: Global, tree: Tree, mut m: M) -> Result<Option<TreeUse<M>>, NoMemory>
        requires widths { HasWidths tree }
        requires told { IsTrue (M.state m).told }
        requires idle { IsIdle (M.state m) }
        requires spare { PAGE ≤ (M.state m).whole }
        ensures { IfOk result (λ made. MatchOption made (HoldsNewTree tree (M.state m).standing → ⊥)
            (λ t. IsEmptyOf tree (⟦<TreeUse<M> as Entries>⟧.index t))) }
    {
        if is_new_tree(&mut m, tree) {
            Ok(Some(TreeUse::new(alloc, tree, m)?))
        } else {
            drop(m);
            Ok(None)
        }
    }

    /// Another actor that is awaited, if there is one.
    fn other_awaited(&self, actor: u32) -> Option<u32>
        ensures { MatchOption result (IsFree actor (⟦<TreeUse<M> as Entries>⟧.index self.now))
            (λ by. IsHeld actor by (⟦<TreeUse<M> as Entries>⟧.index self.now)) }
    {
        match self.awaited {
            None => None,
            Some(holder) => { if holder == actor { None } else { Some(holder) } }
        }
    }

    /// Gives the actor the pair that was found, which is its place from now on.
    fn give(&mut self, actor: u32, found: Option<(Bytes, Bytes)>) -> Result<Move, AllocError>
        ensures answer { MatchResult result (λ answer. Gives actor found (⟦<TreeUse<M> as Entries>⟧.index self.old)
            (⟦<TreeUse<M> as Entries>⟧.index self.new) answer)
            (λ _. IsAsBefore (⟦<TreeUse<M> as Entries>⟧.index self.old) (⟦<TreeUse<M> as Entries>⟧.index self.new)) }
        ensures same { self.new.pages ≡ self.old.pages }
    {
        match found {
            None => Ok(Move::End),
            Some((key, value)) => {
                let place = self
                    .spare
                    .filled(self.alloc, key.as_slice(), value.as_slice())?;
                if let Some(before) = self.places.insert(actor, place)? {
                    self.spare.keep(before);
                }
                Ok(Move::At(key, value))
            }
        }
    }

    fn try_seek(
        &mut self,
        actor: u32,
        from: &Bytes,
        buffers: &mut PairBuffers,
    ) -> Result<Move, AllocError>
        ensures answer { MatchResult result (λ answer. Seeks actor from.now (⟦<TreeUse<M> as Entries>⟧.index self.old)
            (⟦<TreeUse<M> as Entries>⟧.index self.new) answer)
            (λ _. IsAsBefore (⟦<TreeUse<M> as Entries>⟧.index self.old) (⟦<TreeUse<M> as Entries>⟧.index self.new)) }
        ensures same { self.new.pages ≡ self.old.pages }
    {
        let found = self.pages.first_from(self.alloc, from, buffers)?;
        self.give(actor, found)
    }

    /// A copy of the pair behind the actor's place, if there is one.
    fn found_after(
        &mut self,
        actor: u32,
        buffers: &mut PairBuffers,
    ) -> Result<Option<(Bytes, Bytes)>, AllocError>
        ensures found { IfOk result (λ found. found ≡ next_of (get nat_cmp self.old.places actor) self.old.pages.pairs) }
        ensures same { self.new ≡ self.old }
    {
        match self.places.get(&actor) {
            Some(place) => self.pages.first_after(self.alloc, &place.0, buffers),
            None => Ok(None),
        }
    }

    fn try_following(&mut self, actor: u32, buffers: &mut PairBuffers) -> Result<Move, AllocError>
        ensures answer { MatchResult result (λ answer. Follows actor (⟦<TreeUse<M> as Entries>⟧.index self.old)
            (⟦<TreeUse<M> as Entries>⟧.index self.new) answer)
            (λ _. IsAsBefore (⟦<TreeUse<M> as Entries>⟧.index self.old) (⟦<TreeUse<M> as Entries>⟧.index self.new)) }
        ensures same { self.new.pages ≡ self.old.pages }
    {
        let found = self.found_after(actor, buffers)?;
        self.give(actor, found)
    }
}

impl<M: Resident + Drop> Entries for TreeUse<M> {
    ghost use Rattle.std.specs.Ordering.{nat_cmp};
    ghost use Rattle.std.specs.BTreeMap.{get};
    ghost use Rattle.tree_use.specs.Shown.{index_of};

    ghost index = { λ t. index_of t.pages (get nat_cmp t.places) t.awaited };

    fn seek(&mut self, actor: u32, from: &Bytes, buffers: &mut PairBuffers) -> Move {
        self.pages.are_sound();
        self.try_seek(actor, from, buffers)
            .unwrap_or(Move::NoMemory)
    }

    fn following(&mut self, actor: u32, buffers: &mut PairBuffers) -> Move {
        self.pages.are_sound();
        self.try_following(actor, buffers).unwrap_or(Move::NoMemory)
    }

    fn fetch(&mut self, _actor: u32, key: &Bytes, into: &mut Vec<u8>) -> Move {
        self.pages.are_sound();
        if self.pages.read_value(key, into) {
            Move::Done
        } else {
            Move::End
        }
    }

    fn next_key(&mut self, actor: u32, key: &Bytes, into: &mut Vec<u8>) -> Move {
        self.pages.are_sound();
        if let Some(by) = self.other_awaited(actor) {
            return Move::Latch { by };
        }
        self.awaited = Some(actor);
        if self.pages.read_key_after(key, into) {
            Move::Done
        } else {
            Move::End
        }
    }

    fn insert(&mut self, actor: u32, key: &Bytes, value: &Bytes) -> Move {
        self.pages.are_sound();
        if let Some(by) = self.other_awaited(actor) {
            return Move::Latch { by };
        }
        let answer = self.pages.insert(self.alloc, key, value);
        self.pages.are_sound();
        match answer {
            Move::Done => {
                self.awaited = None;
                Move::Done
            }
            Move::At(there, kept) => {
                self.awaited = None;
                Move::At(there, kept)
            }
            refused => refused,
        }
    }

    fn replace(&mut self, _actor: u32, key: &Bytes, value: &Bytes) -> Move {
        let found = self.pages.replace(key, value);
        self.pages.are_sound();
        if found { Move::Done } else { Move::End }
    }

    fn remove(&mut self, actor: u32, key: &Bytes) -> Move {
        self.pages.are_sound();
        if let Some(by) = self.other_awaited(actor) {
            return Move::Latch { by };
        }
        self.awaited = None;
        let found = self.pages.remove(key);
        self.pages.are_sound();
        if found {
            self.tidies = Some(actor);
            Move::Done
        } else {
            Move::End
        }
    }

    fn tidy(&mut self, actor: u32) -> Move {
        self.pages.are_sound();
        if self.tidies != Some(actor) {
            return Move::Done;
        }
        self.tidies = None;
        let tidied = self.pages.tidy();
        self.pages.are_sound();
        match tidied {
            Ok(()) => Move::Done,
            Err(NoMemory) => Move::NoMemory,
        }
    }

    fn leave(&mut self, actor: u32) {
        let _ = self.places.remove(&actor);
        self.awaited = self.other_awaited(actor);
    }
}
