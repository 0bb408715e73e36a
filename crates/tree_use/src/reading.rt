//! Reads of a tree on pages that are all in memory: none of them is hindered. Each begins and ends between
//! mini-transactions. The other files of this crate alone read by these.

ghost use Rattle.std.specs.Prelude.{◌≡◌, ◌≢◌, ◌≤◌, true, false, length, is_some, Some, None, Ok, IsTrue, IsOk, IfOk, IfErr, OnOk, vec_capacity};
ghost use Rattle.stored_pages.specs.declared.layout.TheConstants.{PAGE};
ghost use Rattle.mtr.specs.Calls.{GivesUp};
ghost use Rattle.btree.specs.Reads.{IsIdle, IsHindered};
ghost use Rattle.entries.specs.Pairs.{value_of, first_from, first_after};
ghost use Rattle.btree.specs.Sound.{tree_pairs, HoldsKey};
ghost use Rattle.btree.specs.Walks.{IsRow, IsNextKey};
ghost use Rattle.tree_use.specs.Stored.{HasWidths, IsAtRest, IsStill};

use btree::{Tree, following, leaf_of, next_key, seek};
use entries::PairBuffers;
use inno_types::Bytes;
use mtr::Resident;
use std::alloc::{AllocError, Global};
use store_api::Visit;

/// Room for a key and its value.
#[derive(Drop)]
pub struct Row {
    pub key: Vec<u8>,
    pub value: Vec<u8>,
}

impl Row {
    /// A copy of the row, in the memory of the buffers.
    pub fn copied(
        &self,
        alloc: Global,
        buffers: &mut PairBuffers,
    ) -> Result<(Bytes, Bytes), AllocError>
        ensures { IfOk result (λ pair. pair ≡ (self.now.key.items, self.now.value.items)) }
    {
        buffers.filled(alloc, self.key.as_slice(), self.value.as_slice())
    }
}

/// Makes `into` these bytes, for which it has room.
pub fn copy_into(bytes: &[u8], into: &mut Vec<u8>)
    requires { length bytes.now ≤ vec_capacity into.old }
    ensures items { into.new.items ≡ bytes.now }
    ensures room { vec_capacity into.old ≤ vec_capacity into.new }
{
    into.clear();
    let _ = into.extend_from_slice(bytes);
}

/// What a read answers that can't be hindered.
pub fn sure<T>(read: Result<T, Visit>) -> T
    requires { IsOk read }
    ensures { read ≡ Ok result }
{
    match read {
        Ok(answer) => answer,
        Err(_) => unreachable!(),
    }
}

/// The leaf of a key.
pub fn sure_leaf<M: Resident>(m: &mut M, tree: Tree, key: &[u8]) -> u32
    requires rest { IsAtRest tree (M.state m.old) }
    ensures holds { HoldsKey tree (M.state m.old).standing key.now result }
    ensures still { IsStill tree (M.state m.old) (M.state m.new) }
{
    sure(leaf_of(m, tree, key))
}

/// Looks at a page, which shows that it has its size.
fn look_at<M: Resident>(m: &mut M, page: u32) -> Result<(), Visit>
    requires idle { IsIdle (M.state m.old) }
    ensures size { OnOk result (IsTrue (M.state m.new).told → length ((M.state m.old).standing page) ≡ PAGE) }
    ensures reads { GivesUp (M.state m.old) (M.state m.new) }
    ensures reason { IfErr result (IsHindered (M.state m.old) (M.state m.new)) }
{
    m.bytes(page)?;
    m.give_up();
    Ok(())
}

/// That no pair has the key, since it isn't as long as the tree's keys: the leaf where it would be tells.
pub fn lacks_key<M: Resident>(m: &mut M, tree: Tree, key: &[u8])
    requires rest { IsAtRest tree (M.state m.old) }
    requires width { length key.now ≢ tree.key_len }
    ensures none { value_of key.now (tree_pairs tree (M.state m.old).standing) ≡ None }
    ensures still { IsStill tree (M.state m.old) (M.state m.new) }
{
    let leaf = sure_leaf(m, tree, key);
    sure(look_at(m, leaf));
}

/// Puts the first row at or above a key into `row`, and answers whether there is one.
pub fn seek_row<M: Resident>(m: &mut M, tree: Tree, from: &[u8], row: &mut Row) -> bool
    requires rest { IsAtRest tree (M.state m.old) }
    requires key { tree.key_len ≤ vec_capacity row.old.key }
    requires value { tree.value_len ≤ vec_capacity row.old.value }
    ensures row { IsRow result row.new.key.items row.new.value.items (first_from from.now (tree_pairs tree (M.state m.old).standing)) }
    ensures key_room { vec_capacity row.old.key ≤ vec_capacity row.new.key }
    ensures value_room { vec_capacity row.old.value ≤ vec_capacity row.new.value }
    ensures still { IsStill tree (M.state m.old) (M.state m.new) }
{
    sure(seek(m, tree, from, &mut row.key, &mut row.value))
}

/// Puts the row of a key into `row`, and answers whether there is one.
pub fn find_row<M: Resident>(m: &mut M, tree: Tree, key: &[u8], row: &mut Row) -> bool
    requires rest { IsAtRest tree (M.state m.old) }
    requires widths { HasWidths tree }
    requires key { tree.key_len ≤ vec_capacity row.old.key }
    requires value { tree.value_len ≤ vec_capacity row.old.value }
    ensures found { result ≡ is_some (value_of key.now (tree_pairs tree (M.state m.old).standing)) }
    ensures value { result ≡ true → value_of key.now (tree_pairs tree (M.state m.old).standing) ≡ Some row.new.value.items }
    ensures short { result ≡ true → length row.new.value.items ≤ 1024 }
    ensures key_room { vec_capacity row.old.key ≤ vec_capacity row.new.key }
    ensures value_room { vec_capacity row.old.value ≤ vec_capacity row.new.value }
    ensures still { IsStill tree (M.state m.old) (M.state m.new) }
{
    if seek_row(m, tree, key, row) {
        row.key.as_slice() == key
    } else {
        false
    }
}

/// Puts the first row above a key into `row`, and answers whether there is one.
pub fn follow_row<M: Resident>(m: &mut M, tree: Tree, after: &[u8], row: &mut Row) -> bool
    requires rest { IsAtRest tree (M.state m.old) }
    requires key { tree.key_len ≤ vec_capacity row.old.key }
    requires value { tree.value_len ≤ vec_capacity row.old.value }
    ensures row { IsRow result row.new.key.items row.new.value.items (first_after after.now (tree_pairs tree (M.state m.old).standing)) }
    ensures key_room { vec_capacity row.old.key ≤ vec_capacity row.new.key }
    ensures value_room { vec_capacity row.old.value ≤ vec_capacity row.new.value }
    ensures still { IsStill tree (M.state m.old) (M.state m.new) }
{
    sure(following(m, tree, after, &mut row.key, &mut row.value))
}

/// Puts the first key above this one into `into`, and answers whether there is one.
pub fn read_next<M: Resident>(m: &mut M, tree: Tree, key: &[u8], into: &mut Vec<u8>) -> bool
    requires rest { IsAtRest tree (M.state m.old) }
    requires room { tree.key_len ≤ vec_capacity into.old }
    ensures next { IsNextKey result into.new.items (first_after key.now (tree_pairs tree (M.state m.old).standing)) }
    ensures untouched { result ≡ false → into.new.items ≡ into.old.items }
    ensures room { vec_capacity into.old ≤ vec_capacity into.new }
    ensures still { IsStill tree (M.state m.old) (M.state m.new) }
{
    sure(next_key(m, tree, key, into))
}
