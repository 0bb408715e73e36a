//! Changes of one leaf, the one whose fences hold the key, in a mini-transaction that goes on: what was put before them
//! stays, and who calls them commits or gives up.

ghost use Rattle.std.specs.Prelude.{◌≡◌, ◌≢◌, ◌+◌, ◌<◌, ◌≤◌, length, IsTrue, IfOk, IfErr, OnOk, OnErr};
ghost use Rattle.stored_pages.specs.declared.layout.TheConstants.{PAGE};
ghost use Rattle.mtr.specs.declared.store.TheConstants.{MOST_VISITED};
ghost use Rattle.mtr.specs.Seen.{visit, is_in, IsWithin};
ghost use Rattle.btree_change.specs.Edits.{edited};
ghost use Rattle.btree_change.specs.Trees.{LacksRoom, DoesInsert, DoesReplace, DoesRemove};
ghost use Rattle.btree_change.specs.Calls.{Touches, Rewrites, IsLeafFor, IsLeafReason};

use crate::edit::{Edit, begin_of};
use crate::place::{find_in, has_room};
use big_endian::u16_bytes;
use btree::Tree;
use mtr::Mtr;
use page_format::Found;
use page_format::layout::COUNT;
use store_api::{NoMemory, SpaceBad};

/// What becomes of a pair that is to be added.
#[derive(Clone, Copy, Debug)]
pub enum Insertion {
    Added,
    /// The key has a pair.
    Present,
    /// The leaf of the key lacks room.
    Crowded,
}

/// Puts an edit on a page that was asked for.
pub fn put_edit<M: Mtr>(m: &mut M, page: u32, edit: &Edit) -> Result<(), NoMemory>
    requires dealt_with { IsTrue (is_in page (M.state m.old).visited) }
    requires within { IsWithin page (M.state m.old) }
    requires some { IsTrue (M.state m.old).told → page ≢ 0 }
    ensures put { OnOk result (Rewrites page (edited edit.now ((M.state m.old).seen page)) (M.state m.old) (M.state m.new)) }
    ensures touches { Touches page (M.state m.old) (M.state m.new) }
    ensures memory { OnErr result ((M.state m.old).spare < PAGE) }
{
    m.put(page, edit.at, edit.bytes())?;
    m.put(page, COUNT as u16, &u16_bytes(edit.count))
}

/// Adds a pair to the leaf of its key.
pub fn insert_in<M: Mtr>(
    m: &mut M,
    tree: Tree,
    leaf: u32,
    key: &[u8],
    value: &[u8],
) -> Result<Insertion, SpaceBad>
    requires few { length (visit leaf (M.state m.old).visited) ≤ MOST_VISITED }
    requires some { 0 < tree.key_len }
    requires key { length key.now ≡ tree.key_len }
    requires value { length value.now ≡ tree.value_len }
    requires leaf { IsTrue (M.state m.old).told → IsLeafFor tree key.now leaf (M.state m.old).seen }
    ensures done { IfOk result (λ done. IsTrue (M.state m.new).told
        → DoesInsert tree key.now value.now (M.state m.old).seen (M.state m.new).seen done) }
    ensures room { IfOk result (λ done. IsTrue (M.state m.new).told → LacksRoom leaf (M.state m.old).seen done) }
    ensures touches { Touches leaf (M.state m.old) (M.state m.new) }
    ensures reason { IfErr result (IsLeafReason leaf (M.state m.old) (M.state m.new)) }
{
    let bytes = m.bytes(leaf)?;
    match find_in(bytes, tree, leaf, key)? {
        Found::At(_) => Ok(Insertion::Present),
        Found::Before(i) => {
            if !has_room(bytes) {
                return Ok(Insertion::Crowded);
            }
            let edit = Edit::insertion(bytes, i, key, value);
            put_edit(m, leaf, &edit)?;
            Ok(Insertion::Added)
        }
    }
}

/// Gives a key of the leaf another value, and answers whether the key has a pair.
pub fn replace_in<M: Mtr>(
    m: &mut M,
    tree: Tree,
    leaf: u32,
    key: &[u8],
    value: &[u8],
) -> Result<bool, SpaceBad>
    requires few { length (visit leaf (M.state m.old).visited) ≤ MOST_VISITED }
    requires key { length key.now ≡ tree.key_len }
    requires value { length value.now ≡ tree.value_len }
    requires leaf { IsTrue (M.state m.old).told → IsLeafFor tree key.now leaf (M.state m.old).seen }
    ensures done { IfOk result (λ done. IsTrue (M.state m.new).told
        → DoesReplace tree key.now value.now (M.state m.old).seen (M.state m.new).seen done) }
    ensures touches { Touches leaf (M.state m.old) (M.state m.new) }
    ensures reason { IfErr result (IsLeafReason leaf (M.state m.old) (M.state m.new)) }
{
    let bytes = m.bytes(leaf)?;
    match find_in(bytes, tree, leaf, key)? {
        Found::At(i) => {
            let at = begin_of(bytes, i) + key.len();
            m.put(leaf, at as u16, value)?;
            Ok(true)
        }
        Found::Before(_) => Ok(false),
    }
}

/// Takes the pair of a key out of the leaf, and answers whether there was one.
pub fn remove_in<M: Mtr>(m: &mut M, tree: Tree, leaf: u32, key: &[u8]) -> Result<bool, SpaceBad>
    requires few { length (visit leaf (M.state m.old).visited) ≤ MOST_VISITED }
    requires key { length key.now ≡ tree.key_len }
    requires leaf { IsTrue (M.state m.old).told → IsLeafFor tree key.now leaf (M.state m.old).seen }
    ensures done { IfOk result (λ done. IsTrue (M.state m.new).told
        → DoesRemove tree key.now (M.state m.old).seen (M.state m.new).seen done) }
    ensures touches { Touches leaf (M.state m.old) (M.state m.new) }
    ensures reason { IfErr result (IsLeafReason leaf (M.state m.old) (M.state m.new)) }
{
    let bytes = m.bytes(leaf)?;
    match find_in(bytes, tree, leaf, key)? {
        Found::At(i) => {
            let edit = Edit::removal(bytes, i);
            put_edit(m, leaf, &edit)?;
            Ok(true)
        }
        Found::Before(_) => Ok(false),
    }
}
