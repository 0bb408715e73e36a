//! The pages of an index's tree between two mini-transactions, and room for a row that is read.
//! `TreeUse` has them to itself, and alone calls these.

ghost use Rattle.std.specs.Prelude.{◌≡◌, ◌≤◌, false, true, length, is_some, Some, IsSome, IfOk, vec_capacity};
ghost use Rattle.entries.specs.Pairs.{AreSound, value_of, first_from, first_after};
ghost use Rattle.entries.specs.Calls.{HasKey};
ghost use Rattle.tree_use.specs.Stored.{stored_of, HasWidths, IsAtRest, IsPut, IsTaken, IsAdded};

use crate::changes::{add_pair, put_value, take_pair, tidy_leaf};
use crate::reading::{Row, copy_into, find_row, follow_row, lacks_key, read_next, seek_row};
use btree::Tree;
use btree_grow::Outcome;
use entries::PairBuffers;
use inno_types::Bytes;
use mtr::Resident;
use std::alloc::{AllocError, Global};
use std::marker::Model;
use store_api::{Move, NoMemory};

/// A tree and its pages.
#[derive(Drop)]
pub struct TreePages<M: Resident + Drop> {
    tree: Tree,
    m: M,
    row: Row,
    /// The key that was removed last.
    removed: Vec<u8>,
}

impl<M: Resident + Drop> Model for TreePages<M> {
    ghost use Rattle.std.specs.Prelude.{◌≤◌, vec_capacity};
    ghost use Rattle.tree_use.specs.Stored.{Stored, stored_code, stored_of, HasWidths, IsAtRest};

    ghost Value = { Stored };

    ghost coded = { stored_code };

    ghost view = { λ p. stored_of p.tree (M.state p.m).standing };

    ghost invariant = { λ p. HasWidths p.tree × IsAtRest p.tree (M.state p.m) × (p.tree.key_len ≤ vec_capacity p.row.key)
        × (p.tree.value_len ≤ vec_capacity p.row.value) × (p.tree.key_len ≤ vec_capacity p.removed) };
}

impl<M: Resident + Drop> TreePages<M> {
    /// The tree on these pages.
    pub(crate) fn new(alloc: Global, tree: Tree, m: M) -> Result<Self, NoMemory>
        requires widths { HasWidths tree }
        requires rest { IsAtRest tree (M.state m) }
        ensures shown { IfOk result (λ pages. pages ≡ stored_of tree (M.state m).standing) }
    {
        let key = Vec::with_capacity(alloc, tree.key_len as usize)?;
        let value = Vec::with_capacity(alloc, tree.value_len as usize)?;
        let removed = Vec::with_capacity(alloc, tree.key_len as usize)?;
        Ok(TreePages {
            tree,
            m,
            row: Row { key, value },
            removed,
        })
    }

    /// The keys rise, and no key or value is too long. It does nothing.
    pub(crate) fn are_sound(&self)
        ensures { AreSound self.now.pairs }
    {
        let _ = &self.m;
    }

    /// A copy of the first pair at or above the key, if there is one, in the memory of the buffers.
    pub(crate) fn first_from(
        &mut self,
        alloc: Global,
        key: &Bytes,
        buffers: &mut PairBuffers,
    ) -> Result<Option<(Bytes, Bytes)>, AllocError>
        ensures found { IfOk result (λ pair. pair ≡ first_from key.now self.old.pairs) }
        ensures same { self.new ≡ self.old }
    {
        if seek_row(&mut self.m, self.tree, key.as_slice(), &mut self.row) {
            Ok(Some(self.row.copied(alloc, buffers)?))
        } else {
            Ok(None)
        }
    }

    /// A copy of the first pair above the key, if there is one, in the memory of the buffers.
    pub(crate) fn first_after(
        &mut self,
        alloc: Global,
        key: &Bytes,
        buffers: &mut PairBuffers,
    ) -> Result<Option<(Bytes, Bytes)>, AllocError>
        ensures found { IfOk result (λ pair. pair ≡ first_after key.now self.old.pairs) }
        ensures same { self.new ≡ self.old }
    {
        if follow_row(&mut self.m, self.tree, key.as_slice(), &mut self.row) {
            Ok(Some(self.row.copied(alloc, buffers)?))
        } else {
            Ok(None)
        }
    }

    /// Puts the key's value into `into`, and answers whether the key is there.
    pub(crate) fn read_value(&mut self, key: &Bytes, into: &mut Vec<u8>) -> bool
        requires { 1024 ≤ vec_capacity into.old }
        ensures found { result ≡ is_some (value_of key.now self.old.pairs) }
        ensures value { result ≡ true → value_of key.now self.old.pairs ≡ Some into.new.items }
        ensures untouched { result ≡ false → into.new.items ≡ into.old.items }
        ensures room { vec_capacity into.old ≤ vec_capacity into.new }
        ensures same { self.new ≡ self.old }
    {
        if find_row(&mut self.m, self.tree, key.as_slice(), &mut self.row) {
            copy_into(self.row.value.as_slice(), into);
            true
        } else {
            false
        }
    }

    /// Puts the first key above this one into `into`, and answers whether there is one.
    pub(crate) fn read_key_after(&mut self, key: &Bytes, into: &mut Vec<u8>) -> bool
        requires { 67 ≤ vec_capacity into.old }
        ensures found { result ≡ is_some (first_after key.now self.old.pairs) }
        ensures key { result ≡ true → HasKey into.new.items (first_after key.now self.old.pairs) }
        ensures untouched { result ≡ false → into.new.items ≡ into.old.items }
        ensures room { vec_capacity into.old ≤ vec_capacity into.new }
        ensures same { self.new ≡ self.old }
    {
        read_next(&mut self.m, self.tree, key.as_slice(), into)
    }

    /// Gives the key another value, and answers whether the key is there.
    pub(crate) fn replace(&mut self, key: &Bytes, value: &Bytes) -> bool
        requires { length value.now ≡ self.old.value_len }
        ensures put { IsPut key.now value.now self.old self.new result }
    {
        if key.len() != self.tree.key_len as usize {
            lacks_key(&mut self.m, self.tree, key.as_slice());
            return false;
        }
        put_value(&mut self.m, self.tree, key.as_slice(), value.as_slice())
    }

    /// Removes the key's pair, and answers whether it was there.
    pub(crate) fn remove(&mut self, key: &Bytes) -> bool
        ensures taken { IsTaken key.now self.old self.new result }
    {
        if key.len() != self.tree.key_len as usize {
            lacks_key(&mut self.m, self.tree, key.as_slice());
            return false;
        }
        copy_into(key.as_slice(), &mut self.removed);
        take_pair(&mut self.m, self.tree, key.as_slice())
    }

    /// Adds a pair, or answers why not.
    pub(crate) fn insert(&mut self, alloc: Global, key: &Bytes, value: &Bytes) -> Move
        requires key { length key.now ≡ self.old.key_len }
        requires value { length value.now ≡ self.old.value_len }
        ensures answer { IsAdded key.now value.now self.old self.new result }
    {
        match add_pair(&mut self.m, self.tree, key.as_slice(), value.as_slice()) {
            Ok(Outcome::Added) => Move::Done,
            Ok(Outcome::Present) => self.kept_row(alloc, key).unwrap_or(Move::NoMemory),
            Ok(Outcome::Full { need, free }) => Move::Full { need, free },
            Ok(Outcome::TooDeep) => Move::TooDeep,
            Err(NoMemory) => Move::NoMemory,
        }
    }

    /// The row of a key that has one.
    fn kept_row(&mut self, alloc: Global, key: &Bytes) -> Result<Move, AllocError>
        requires { IsSome (value_of key.now self.old.pairs) }
        ensures kept { IfOk result (λ answer. IsAdded key.now key.now self.old self.new answer) }
        ensures same { self.new ≡ self.old }
    {
        if find_row(&mut self.m, self.tree, key.as_slice(), &mut self.row) {
            let value = Bytes::from_vec(Vec::from_slice(alloc, self.row.value.as_slice())?);
            Ok(Move::At(key.copied()?, value))
        } else {
            unreachable!()
        }
    }

    /// Merges the leaf of the key that was removed last with one beside it, where it holds few rows. No pair changes.
    pub(crate) fn tidy(&mut self) -> Result<(), NoMemory>
        ensures pairs { self.new.pairs ≡ self.old.pairs }
        ensures key_len { self.new.key_len ≡ self.old.key_len }
        ensures value_len { self.new.value_len ≡ self.old.value_len }
    {
        tidy_leaf(&mut self.m, self.tree, self.removed.as_slice())
    }
}
