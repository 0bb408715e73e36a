//! Two leaves that are merged under one parent: the left one gets the records of the right one, the parent loses the record of
//! that one, and its page is given back. Who calls commits or gives up.

ghost use Rattle.std.specs.Prelude.{◌≡◌, ◌+◌, ◌<◌, ◌≤◌, length, drop, IsTrue, IfOk, IfErr, OnOk, OnErr};
ghost use Rattle.stored_pages.specs.declared.layout.TheConstants.{PAGE};
ghost use Rattle.mtr.specs.declared.store.TheConstants.{MOST_VISITED};
ghost use Rattle.mtr.specs.Seen.{is_in, IsWithin};
ghost use Rattle.mtr.specs.Calls.{Puts};
ghost use Rattle.btree_split.specs.Placed.{IsPlacedTree};
ghost use Rattle.btree_merge.specs.Merges.{IsAboveLeaves, MergesLeaves};
ghost use Rattle.btree_merge.specs.Going.{GoesOn, IsMergeReason};
ghost use Rattle.btree_merge.specs.Merged.{DoesMerge};
ghost use Rattle.btree_merge.specs.Siblings.{AreReadable, AreDealtWith, AreToMerge};

use crate::free::free_page;
use crate::join::joined;
use crate::look::{Siblings, look_at};
use btree::Tree;
use btree_change::{Edit, put_edit};
use mtr::Mtr;
use store_api::{NoMemory, SpaceBad};
use stored_pages::layout::FIELDS;

/// Puts what an image has for a tree's page.
fn put_image<M: Mtr>(m: &mut M, page: u32, image: &[u8]) -> Result<(), NoMemory>
    requires size { length image.now ≡ PAGE }
    requires dealt_with { IsTrue (is_in page (M.state m.old).visited) }
    requires within { IsWithin page (M.state m.old) }
    ensures put { OnOk result (Puts page 20 (drop 20 image.now) (M.state m.old) (M.state m.new)) }
    ensures refused { OnErr result (M.state m.new ≡ M.state m.old) }
{
    let (_, fields) = image.split_at(FIELDS);
    m.put(page, FIELDS as u16, fields)
}

/// Puts the records of both leaves on the left one's page, and takes the record of the right one out of the parent.
fn put_joined<M: Mtr>(
    m: &mut M,
    tree: Tree,
    parent: u32,
    place: u16,
    both: &Siblings,
) -> Result<(), NoMemory>
    requires some { 0 < tree.key_len }
    requires readable { AreReadable tree place both.now }
    requires dealt_with { AreDealtWith parent both.now.couple (M.state m.old).visited }
    requires ready { IsTrue (M.state m.old).told → AreToMerge tree (M.state m.old).seen parent place both.now }
    ensures goes_on { GoesOn 0 (M.state m.old) (M.state m.new) }
    ensures merges { OnOk result (IsTrue (M.state m.new).told
        → MergesLeaves place parent both.now.couple.left both.now.couple.right (M.state m.old).seen (M.state m.new).seen) }
{
    let page = joined(&both.left, &both.right);
    let entry = Edit::removal(&both.above, place + 1);
    put_image(m, both.couple.left, &page)?;
    put_edit(m, parent, &entry)
}

/// Merges the child of a parent's record with that of the next one, where both fit into one page, and answers which page is
/// free now.
pub fn merge_in<M: Mtr>(
    m: &mut M,
    tree: Tree,
    parent: u32,
    place: u16,
) -> Result<Option<u32>, SpaceBad>
    requires few { 8 + length (M.state m.old).visited ≤ MOST_VISITED }
    requires some { 0 < tree.key_len }
    requires tree { IsTrue (M.state m.old).told → IsPlacedTree tree (M.state m.old).seen }
    requires parent { IsTrue (M.state m.old).told → IsAboveLeaves tree (M.state m.old).seen parent }
    ensures goes_on { GoesOn 8 (M.state m.old) (M.state m.new) }
    ensures done { IfOk result (λ freed. IsTrue (M.state m.new).told
        → DoesMerge tree parent place (M.state m.old).seen (M.state m.new).seen freed) }
    ensures reason { IfErr result (IsMergeReason M.state (M.state m.old) (M.state m.new)) }
{
    let both = match look_at(m, tree, parent, place)? {
        Some(both) => both,
        None => return Ok(None),
    };
    put_joined(m, tree, parent, place, &both)?;
    let right = both.couple.right;
    free_page(m, right)?;
    Ok(Some(right))
}
