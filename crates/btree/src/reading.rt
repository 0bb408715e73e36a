//! The reading calls of an index in a tree: the first row at or above a key, and the first one above it, put into the
//! caller's buffers. They find what a sorted list of the tree's pairs has.

ghost use Rattle.std.specs.Prelude.{◌≡◌, ◌≤◌, false, IsTrue, IfOk, IfErr, vec_capacity};
ghost use Rattle.mtr.specs.Calls.{GivesUp};
ghost use Rattle.entries.specs.Pairs.{first_from, first_after};
ghost use Rattle.btree.specs.Reads.{IsIdle, IsHindered};
ghost use Rattle.btree.specs.Sound.{IsSoundTree, tree_pairs, first_by};
ghost use Rattle.btree.specs.Walks.{is_found, IsRow, IsNextKey};

use crate::tree::{Bound, Tree};
use crate::walking::{find_first, read_key, read_row};
use mtr::Mtr;
use store_api::Visit;

/// Puts the first row whose key passes into `key` and `value`, and answers whether there is one.
fn first_row<M: Mtr>(
    m: &mut M,
    tree: Tree,
    bound: Bound,
    from: &[u8],
    key: &mut Vec<u8>,
    value: &mut Vec<u8>,
) -> Result<bool, Visit>
    requires idle { IsIdle (M.state m.old) }
    requires tree { IsTrue (M.state m.old).told → IsSoundTree tree (M.state m.old).standing }
    requires key { tree.key_len ≤ vec_capacity key.old }
    requires value { tree.value_len ≤ vec_capacity value.old }
    ensures row { IfOk result (λ found. IsTrue (M.state m.new).told
        → IsRow found key.new.items value.new.items (first_by bound from.now (tree_pairs tree (M.state m.old).standing))) }
    ensures untouched { is_found result ≡ false → (key.new.items ≡ key.old.items) × (value.new.items ≡ value.old.items) }
    ensures key_room { vec_capacity key.old ≤ vec_capacity key.new }
    ensures value_room { vec_capacity value.old ≤ vec_capacity value.new }
    ensures reads { GivesUp (M.state m.old) (M.state m.new) }
    ensures reason { IfErr result (IsHindered (M.state m.old) (M.state m.new)) }
{
    match find_first(m, tree, bound, from)? {
        None => Ok(false),
        Some(spot) => {
            read_row(m, tree, spot, key, value)?;
            Ok(true)
        }
    }
}

/// Puts the first row at or above a key into `key` and `value`, and answers whether there is one.
pub fn seek<M: Mtr>(
    m: &mut M,
    tree: Tree,
    from: &[u8],
    key: &mut Vec<u8>,
    value: &mut Vec<u8>,
) -> Result<bool, Visit>
    requires idle { IsIdle (M.state m.old) }
    requires tree { IsTrue (M.state m.old).told → IsSoundTree tree (M.state m.old).standing }
    requires key { tree.key_len ≤ vec_capacity key.old }
    requires value { tree.value_len ≤ vec_capacity value.old }
    ensures row { IfOk result (λ found. IsTrue (M.state m.new).told
        → IsRow found key.new.items value.new.items (first_from from.now (tree_pairs tree (M.state m.old).standing))) }
    ensures untouched { is_found result ≡ false → (key.new.items ≡ key.old.items) × (value.new.items ≡ value.old.items) }
    ensures key_room { vec_capacity key.old ≤ vec_capacity key.new }
    ensures value_room { vec_capacity value.old ≤ vec_capacity value.new }
    ensures reads { GivesUp (M.state m.old) (M.state m.new) }
    ensures reason { IfErr result (IsHindered (M.state m.old) (M.state m.new)) }
{
    first_row(m, tree, Bound::AtOrAbove, from, key, value)
}

/// Puts the first row above a key into `key` and `value`, and answers whether there is one.
pub fn following<M: Mtr>(
    m: &mut M,
    tree: Tree,
    after: &[u8],
    key: &mut Vec<u8>,
    value: &mut Vec<u8>,
) -> Result<bool, Visit>
    requires idle { IsIdle (M.state m.old) }
    requires tree { IsTrue (M.state m.old).told → IsSoundTree tree (M.state m.old).standing }
    requires key { tree.key_len ≤ vec_capacity key.old }
    requires value { tree.value_len ≤ vec_capacity value.old }
    ensures row { IfOk result (λ found. IsTrue (M.state m.new).told
        → IsRow found key.new.items value.new.items (first_after after.now (tree_pairs tree (M.state m.old).standing))) }
    ensures untouched { is_found result ≡ false → (key.new.items ≡ key.old.items) × (value.new.items ≡ value.old.items) }
    ensures key_room { vec_capacity key.old ≤ vec_capacity key.new }
    ensures value_room { vec_capacity value.old ≤ vec_capacity value.new }
    ensures reads { GivesUp (M.state m.old) (M.state m.new) }
    ensures reason { IfErr result (IsHindered (M.state m.old) (M.state m.new)) }
{
    first_row(m, tree, Bound::Above, after, key, value)
}

/// Puts the first key above this one into `into`, and answers whether there is one.
pub fn next_key<M: Mtr>(
    m: &mut M,
    tree: Tree,
    key: &[u8],
    into: &mut Vec<u8>,
) -> Result<bool, Visit>
    requires idle { IsIdle (M.state m.old) }
    requires tree { IsTrue (M.state m.old).told → IsSoundTree tree (M.state m.old).standing }
    requires room { tree.key_len ≤ vec_capacity into.old }
    ensures next { IfOk result (λ found. IsTrue (M.state m.new).told
        → IsNextKey found into.new.items (first_after key.now (tree_pairs tree (M.state m.old).standing))) }
    ensures untouched { is_found result ≡ false → into.new.items ≡ into.old.items }
    ensures room { vec_capacity into.old ≤ vec_capacity into.new }
    ensures reads { GivesUp (M.state m.old) (M.state m.new) }
    ensures reason { IfErr result (IsHindered (M.state m.old) (M.state m.new)) }
{
    match find_first(m, tree, Bound::Above, key)? {
        None => Ok(false),
        Some(spot) => {
            read_key(m, tree, spot, into)?;
            Ok(true)
        }
    }
}
