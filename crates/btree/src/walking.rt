//! The first pair whose key passes, from the leaf of the key to the right, and a row read from where it stands. Each page
//! that was read is given up.

ghost use Rattle.std.specs.Prelude.{◌≡◌, ◌≤◌, ℕ, List, IsTrue, IfOk, IfErr, OnOk, OnErr, Some, vec_capacity};
ghost use Rattle.std.specs.List.{slice_get};
ghost use Rattle.mtr.specs.Calls.{GivesUp};
ghost use Rattle.entries.specs.Calls.{HasKey};
ghost use Rattle.law_flat_tree.specs.Pages.{leaf_pairs};
ghost use Rattle.btree.specs.Reads.{IsIdle, StopsAt, IsHindered};
ghost use Rattle.btree.specs.Sound.{IsSoundTree, tree_pairs, first_by};
ghost use Rattle.btree.specs.Walks.{IsReadableLeaf, HasRow, Meets, Begins, AreRest, Shows, first_in};

use crate::descent::leaf_of;
use crate::leaf::{Met, Spot, begin, copy_key, copy_row, meet};
use crate::tree::{Bound, Tree};
use mtr::Mtr;
use store_api::{PageRule, Visit};

/// One more than the leaves that a tree may have.
const WALK: u32 = 65_537;

/// The first record of a leaf whose key passes.
fn meet_on<M: Mtr>(m: &mut M, tree: Tree, page: u32, bound: Bound, key: &[u8]) -> Result<Met, Visit>
    requires { IsIdle (M.state m.old) }
    ensures meets { IfOk result (λ met. IsTrue (M.state m.new).told → Meets tree bound key.now ((M.state m.old).standing page) met) }
    ensures reads { GivesUp (M.state m.old) (M.state m.new) }
    ensures reason { IfErr result (StopsAt page (IsReadableLeaf tree) (M.state m.old) (M.state m.new)) }
{
    let bytes = m.bytes(page)?;
    let met = meet(bytes, tree, page, bound, key);
    m.give_up();
    met
}

/// The first record of a leaf.
fn begin_on<M: Mtr>(m: &mut M, tree: Tree, page: u32) -> Result<Met, Visit>
    requires { IsIdle (M.state m.old) }
    ensures begins { IfOk result (λ met. IsTrue (M.state m.new).told → Begins ((M.state m.old).standing page) met) }
    ensures reads { GivesUp (M.state m.old) (M.state m.new) }
    ensures reason { IfErr result (StopsAt page (IsReadableLeaf tree) (M.state m.old) (M.state m.new)) }
{
    let bytes = m.bytes(page)?;
    let met = begin(bytes, tree, page);
    m.give_up();
    met
}

/// Where the first pair of this leaf and those to its right stands.
fn first_right<M: Mtr>(m: &mut M, tree: Tree, from: u32) -> Result<Option<Spot>, Visit>
    requires idle { IsIdle (M.state m.old) }
    requires tree { IsTrue (M.state m.old).told → IsSoundTree tree (M.state m.old).standing }
    requires rest { IsTrue (M.state m.old).told → (ys : List ℕ) × AreRest tree (M.state m.old).standing from ys }
    ensures first { IfOk result (λ found. IsTrue (M.state m.new).told → (ys : List ℕ) → AreRest tree (M.state m.old).standing from ys
        → Shows tree (M.state m.old).standing (first_in tree (M.state m.old).standing ys) found) }
    ensures reads { GivesUp (M.state m.old) (M.state m.new) }
    ensures reason { IfErr result (IsHindered (M.state m.old) (M.state m.new)) }
{
    let mut page = from;
    for _ in 0..WALK {
        if page == 0 {
            return Ok(None);
        }
        match begin_on(m, tree, page)? {
            Met::Here(place) => return Ok(Some(Spot { page, place })),
            Met::Beyond(right) => page = right,
        }
    }
    Err(Visit::Bad {
        page: from,
        rule: PageRule::Neighbour as u8,
    })
}

/// Where the first pair stands whose key passes.
pub fn find_first<M: Mtr>(
    m: &mut M,
    tree: Tree,
    bound: Bound,
    key: &[u8],
) -> Result<Option<Spot>, Visit>
    requires idle { IsIdle (M.state m.old) }
    requires tree { IsTrue (M.state m.old).told → IsSoundTree tree (M.state m.old).standing }
    ensures first { IfOk result (λ found. IsTrue (M.state m.new).told
        → Shows tree (M.state m.old).standing (first_by bound key.now (tree_pairs tree (M.state m.old).standing)) found) }
    ensures reads { GivesUp (M.state m.old) (M.state m.new) }
    ensures reason { IfErr result (IsHindered (M.state m.old) (M.state m.new)) }
{
    let leaf = leaf_of(m, tree, key)?;
    match meet_on(m, tree, leaf, bound, key)? {
        Met::Here(place) => Ok(Some(Spot { page: leaf, place })),
        Met::Beyond(right) => first_right(m, tree, right),
    }
}

/// Puts the key and the value of a row into `key` and `value`. They stay where the row isn't read.
pub fn read_row<M: Mtr>(
    m: &mut M,
    tree: Tree,
    spot: Spot,
    key: &mut Vec<u8>,
    value: &mut Vec<u8>,
) -> Result<(), Visit>
    requires idle { IsIdle (M.state m.old) }
    requires key { tree.key_len ≤ vec_capacity key.old }
    requires value { tree.value_len ≤ vec_capacity value.old }
    ensures row { OnOk result (IsTrue (M.state m.new).told
        → slice_get (leaf_pairs tree.key_len ((M.state m.old).standing spot.page)) spot.place ≡ Some (key.new.items, value.new.items)) }
    ensures key { OnErr result (key.new.items ≡ key.old.items) }
    ensures value { OnErr result (value.new.items ≡ value.old.items) }
    ensures key_room { vec_capacity key.old ≤ vec_capacity key.new }
    ensures value_room { vec_capacity value.old ≤ vec_capacity value.new }
    ensures reads { GivesUp (M.state m.old) (M.state m.new) }
    ensures reason { IfErr result (StopsAt spot.page (HasRow tree spot.place) (M.state m.old) (M.state m.new)) }
{
    let bytes = m.bytes(spot.page)?;
    let read = copy_row(bytes, tree, spot, key, value);
    m.give_up();
    read
}

/// Puts the key of a row into `key`. It stays where the row isn't read.
pub fn read_key<M: Mtr>(m: &mut M, tree: Tree, spot: Spot, key: &mut Vec<u8>) -> Result<(), Visit>
    requires idle { IsIdle (M.state m.old) }
    requires key { tree.key_len ≤ vec_capacity key.old }
    ensures key { OnOk result (IsTrue (M.state m.new).told
        → HasKey key.new.items (slice_get (leaf_pairs tree.key_len ((M.state m.old).standing spot.page)) spot.place)) }
    ensures kept { OnErr result (key.new.items ≡ key.old.items) }
    ensures room { vec_capacity key.old ≤ vec_capacity key.new }
    ensures reads { GivesUp (M.state m.old) (M.state m.new) }
    ensures reason { IfErr result (StopsAt spot.page (HasRow tree spot.place) (M.state m.old) (M.state m.new)) }
{
    let bytes = m.bytes(spot.page)?;
    let read = copy_key(bytes, tree, spot, key);
    m.give_up();
    read
}
