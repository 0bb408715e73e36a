//! A pair added to a tree, a mini-transaction of its own. Where its leaf lacks room, the full pages at the end of its way are split
//! first, under a raised root where all of them are full. Where nothing comes of it, all is given up.

ghost use Rattle.std.specs.Prelude.{◌≡◌, ◌≢◌, ℕ, ◌+◌, ◌*◌, ◌<◌, ◌≤◌, length, IsTrue, IfOk, IfErr, OnOk, OnErr, None, MatchBool};
ghost use Rattle.store_api.specs.declared.visits.SpaceBad.TheVariants.{NoMemory as NoSpaceMemory};
ghost use Rattle.stored_pages.specs.declared.layout.TheConstants.{PAGE};
ghost use Rattle.page_format.specs.declared.layout.TheConstants.{FENCE, RECORDS};
ghost use Rattle.mtr.specs.declared.store.TheConstants.{MOST_VISITED};
ghost use Rattle.entries.specs.Pairs.{value_of, with_pair};
ghost use Rattle.mtr.specs.Seen.{visit};
ghost use Rattle.mtr.specs.Calls.{Commits, GivesUp};
ghost use Rattle.btree.specs.Reads.{IsIdle};
ghost use Rattle.btree.specs.Sound.{tree_pairs};
ghost use Rattle.btree_change.specs.Edits.{HasRoom};
ghost use Rattle.btree_change.specs.Trees.{IsCrowded, Becomes};
ghost use Rattle.btree_change.specs.Calls.{Ends, IsLeafFor};
ghost use Rattle.btree_split.specs.Placed.{IsPlacedTree};
ghost use Rattle.btree_split.specs.Ways.{IsLowestRoom, needed};
ghost use Rattle.btree_grow.specs.Going.{IsGrowStop};
ghost use Rattle.btree_grow.specs.Adding.{DoesAdd};

use crate::{Room, make_room};
use btree::{Tree, leaf_of};
use btree_change::{Insertion, insert_in};
use btree_split::{LowestRoom, lowest_room};
use mtr::Mtr;
use page_format::layout::MOST_LEVELS;
use store_api::{NoMemory, PageRule, SpaceBad, Visit};

/// What becomes of a pair that is to be added.
#[derive(Clone, Copy, Debug, PartialEq, Eq)]
pub enum Outcome {
    Added,
    /// The key has a pair.
    Present,
    /// So many pages would be taken, and fewer are free.
    Full { need: u32, free: u32 },
    /// No page on the way of the key has room, and the tree has as many levels as it may have.
    TooDeep,
}

/// Makes the puts stand, or drops them where memory is lacking.
fn settle<M: Mtr>(m: &mut M) -> Result<(), SpaceBad>
    ensures committed { OnOk result (Commits (M.state m.old) (M.state m.new)) }
    ensures given_up { OnErr result (GivesUp (M.state m.old) (M.state m.new)) }
    ensures memory { IfErr result (λ why. why ≡ NoSpaceMemory) }
{
    match m.commit() {
        Ok(()) => Ok(()),
        Err(NoMemory) => {
            m.give_up();
            Err(SpaceBad::NoMemory)
        }
    }
}

/// Adds a pair whose key has none to its leaf, which has room, and ends the mini-transaction.
fn finish_in<M: Mtr>(
    m: &mut M,
    tree: Tree,
    leaf: u32,
    key: &[u8],
    value: &[u8],
) -> Result<(), SpaceBad>
    requires few { length (visit leaf (M.state m.old).visited) ≤ MOST_VISITED }
    requires some { 0 < tree.key_len }
    requires key { length key.now ≡ tree.key_len }
    requires value { length value.now ≡ tree.value_len }
    requires leaf { IsTrue (M.state m.old).told → IsLeafFor tree key.now leaf (M.state m.old).seen }
    requires room { IsTrue (M.state m.old).told → HasRoom ((M.state m.old).seen leaf) }
    requires absent { IsTrue (M.state m.old).told → value_of key.now (tree_pairs tree (M.state m.old).seen) ≡ None }
    ensures done { OnOk result (IsTrue (M.state m.new).told
        → Becomes tree (with_pair key.now value.now (tree_pairs tree (M.state m.old).seen)) (M.state m.old).seen (M.state m.new).standing) }
    ensures elsewhere { OnOk result (IsTrue (M.state m.new).told → (page : ℕ) → page ≢ leaf
        → (M.state m.new).standing page ≡ (M.state m.old).seen page) }
    ensures ends { Ends (M.state m.old) (M.state m.new) }
    ensures kept { OnErr result (GivesUp (M.state m.old) (M.state m.new)) }
    ensures reason { IfErr result (IsGrowStop M.state (M.state m.old) (M.state m.new)) }
{
    match insert_in(m, tree, leaf, key, value) {
        Ok(Insertion::Added) => settle(m),
        Ok(_) => {
            m.give_up();
            Err(SpaceBad::Visit(Visit::Bad {
                page: leaf,
                rule: PageRule::Fields as u8,
            }))
        }
        Err(why) => {
            m.give_up();
            Err(why)
        }
    }
}

/// How many pages the splits of a way take.
fn need_of(lowest: LowestRoom) -> u32
    requires { lowest.full ≤ 8 }
    ensures { result ≡ needed lowest.above lowest.full }
{
    match lowest.above {
        Some(_) => u32::from(lowest.full),
        None => u32::from(lowest.full) + 1,
    }
}

/// Whether a tree would have a level too many.
fn is_too_deep(lowest: LowestRoom) -> bool
    requires { lowest.full ≤ 8 }
    ensures { MatchBool result ((lowest.above ≡ None) × (lowest.full ≡ 8)) (lowest.above ≡ None → lowest.full ≤ 7) }
{
    match lowest.above {
        Some(_) => false,
        None => lowest.full == MOST_LEVELS,
    }
}

/// Adds a pair whose key has none, and whose leaf lacks room, once there is room on its way.
fn insert_grown<M: Mtr>(
    m: &mut M,
    tree: Tree,
    lowest: LowestRoom,
    key: &[u8],
    value: &[u8],
) -> Result<Outcome, SpaceBad>
    requires idle { IsIdle (M.state m.old) }
    requires some { 0 < tree.key_len }
    requires short { tree.key_len ≤ FENCE }
    requires two { RECORDS + 2 * (tree.key_len + tree.value_len) ≤ PAGE }
    requires key { length key.now ≡ tree.key_len }
    requires value { length value.now ≡ tree.value_len }
    requires full { lowest.full ≤ 8 }
    requires inner { lowest.above ≡ None → 0 < lowest.full }
    requires low { lowest.above ≡ None → lowest.full ≤ 7 }
    requires tree { IsTrue (M.state m.old).told → IsPlacedTree tree (M.state m.old).standing }
    requires way { IsTrue (M.state m.old).told → IsLowestRoom tree (M.state m.old).standing key.now lowest.above lowest.full }
    requires absent { IsTrue (M.state m.old).told → value_of key.now (tree_pairs tree (M.state m.old).standing) ≡ None }
    requires crowded { IsTrue (M.state m.old).told → IsCrowded tree (M.state m.old).standing key.now }
    ensures done { IfOk result (λ done. IsTrue (M.state m.new).told
        → DoesAdd tree key.now value.now (M.state m.old).standing (M.state m.new).standing done) }
    ensures ends { Ends (M.state m.old) (M.state m.new) }
    ensures kept { OnErr result (GivesUp (M.state m.old) (M.state m.new)) }
    ensures reason { IfErr result (IsGrowStop M.state (M.state m.old) (M.state m.new)) }
{
    match make_room(m, tree, lowest, key) {
        Ok(Room::Leaf(leaf)) => {
            finish_in(m, tree, leaf, key, value)?;
            Ok(Outcome::Added)
        }
        Ok(Room::Full(free)) => {
            m.give_up();
            Ok(Outcome::Full {
                need: need_of(lowest),
                free: u32::from(free),
            })
        }
        Err(why) => {
            m.give_up();
            Err(why)
        }
    }
}

/// Adds a pair whose key has none, and whose leaf lacks room.
fn insert_crowded<M: Mtr>(
    m: &mut M,
    tree: Tree,
    key: &[u8],
    value: &[u8],
) -> Result<Outcome, SpaceBad>
    requires idle { IsIdle (M.state m.old) }
    requires some { 0 < tree.key_len }
    requires short { tree.key_len ≤ FENCE }
    requires two { RECORDS + 2 * (tree.key_len + tree.value_len) ≤ PAGE }
    requires key { length key.now ≡ tree.key_len }
    requires value { length value.now ≡ tree.value_len }
    requires tree { IsTrue (M.state m.old).told → IsPlacedTree tree (M.state m.old).standing }
    requires absent { IsTrue (M.state m.old).told → value_of key.now (tree_pairs tree (M.state m.old).standing) ≡ None }
    requires crowded { IsTrue (M.state m.old).told → IsCrowded tree (M.state m.old).standing key.now }
    ensures done { IfOk result (λ done. IsTrue (M.state m.new).told
        → DoesAdd tree key.now value.now (M.state m.old).standing (M.state m.new).standing done) }
    ensures ends { Ends (M.state m.old) (M.state m.new) }
    ensures kept { OnErr result (GivesUp (M.state m.old) (M.state m.new)) }
    ensures reason { IfErr result (IsGrowStop M.state (M.state m.old) (M.state m.new)) }
{
    let lowest = lowest_room(m, tree, key)?;
    if is_too_deep(lowest) {
        return Ok(Outcome::TooDeep);
    }
    insert_grown(m, tree, lowest, key, value)
}

/// Adds a pair, where the key has none.
pub fn insert<M: Mtr>(m: &mut M, tree: Tree, key: &[u8], value: &[u8]) -> Result<Outcome, SpaceBad>
    requires idle { IsIdle (M.state m.old) }
    requires some { 0 < tree.key_len }
    requires short { tree.key_len ≤ FENCE }
    requires two { RECORDS + 2 * (tree.key_len + tree.value_len) ≤ PAGE }
    requires key { length key.now ≡ tree.key_len }
    requires value { length value.now ≡ tree.value_len }
    requires tree { IsTrue (M.state m.old).told → IsPlacedTree tree (M.state m.old).standing }
    ensures done { IfOk result (λ done. IsTrue (M.state m.new).told
        → DoesAdd tree key.now value.now (M.state m.old).standing (M.state m.new).standing done) }
    ensures ends { Ends (M.state m.old) (M.state m.new) }
    ensures kept { OnErr result (GivesUp (M.state m.old) (M.state m.new)) }
    ensures reason { IfErr result (IsGrowStop M.state (M.state m.old) (M.state m.new)) }
{
    let leaf = leaf_of(m, tree, key)?;
    match insert_in(m, tree, leaf, key, value) {
        Ok(Insertion::Added) => {
            settle(m)?;
            Ok(Outcome::Added)
        }
        Ok(Insertion::Present) => {
            m.give_up();
            Ok(Outcome::Present)
        }
        Ok(Insertion::Crowded) => {
            m.give_up();
            insert_crowded(m, tree, key, value)
        }
        Err(why) => {
            m.give_up();
            Err(why)
        }
    }
}
