//! A leaf that holds few records is merged with one beside it, a mini-transaction of its own. Where nothing comes of it, all is
//! given up.

ghost use Rattle.std.specs.Prelude.{◌≡◌, ◌≢◌, ◌+◌, ◌<◌, ◌≤◌, [], length, slice_index_or, IsTrue, IfOk, IfErr, OnOk, OnErr};
ghost use Rattle.store_api.specs.declared.visits.SpaceBad.TheVariants.{NoMemory as NoSpaceMemory};
ghost use Rattle.store_api.specs.declared.visits.Visit.TheVariants.{Bad};
ghost use Rattle.stored_pages.specs.declared.layout.TheConstants.{PAGE};
ghost use Rattle.mtr.specs.declared.store.TheConstants.{MOST_VISITED};
ghost use Rattle.page_format.specs.Words.{level_of, count_of, records_of};
ghost use Rattle.mtr.specs.Calls.{Commits, GivesUp};
ghost use Rattle.law_flat_tree.specs.Pages.{child_of};
ghost use Rattle.btree.specs.declared.page.Down.TheVariants.{Child};
ghost use Rattle.btree.specs.Descents.{IsReadable, Leads};
ghost use Rattle.btree.specs.Layout.{IsLaidOut};
ghost use Rattle.btree.specs.Reads.{IsIdle};
ghost use Rattle.btree_change.specs.Calls.{Ends};
ghost use Rattle.btree_split.specs.Placed.{IsPlacedTree};
ghost use Rattle.btree_merge.specs.Parents.{IsParent};
ghost use Rattle.btree_merge.specs.Merges.{IsAboveLeaves};
ghost use Rattle.btree_merge.specs.Going.{GoesOn, Reads, IsStop, IsMergeReason};
ghost use Rattle.btree_merge.specs.Tidied.{IsSparse, MergesBeside, DoesTidy};

use crate::join::holds_few;
use crate::merge::merge_in;
use crate::parent::parent_of;
use crate::reading::{copy_of, leaf_copy};
use btree::{Bound, Tree, child_at, first_place, is_laid_out};
use mtr::Mtr;
use page_format::layout::{COUNT, LEVEL};
use store_api::{NoMemory, PageRule, SpaceBad, Visit};
use stored_pages::read_u16;

/// The record of an inner page that leads to the child for a key.
fn place_for(bytes: &[u8], tree: Tree, page: u32, key: &[u8]) -> Result<u16, Visit>
    requires { length bytes.now ≡ PAGE }
    ensures laid_out { OnOk result (IsLaidOut tree bytes.now) }
    ensures inner { OnOk result (level_of bytes.now ≢ 0) }
    ensures within { IfOk result (λ place. place < count_of bytes.now) }
    ensures leads { IfOk result (λ place. Leads tree key.now bytes.now
        (Child (child_of tree.key_len (slice_index_or (records_of bytes.now) place [])))) }
    ensures refused { IfErr result (λ why. (why ≡ Bad page 1) × (IsReadable tree bytes.now → level_of bytes.now ≢ 0 → ⊥)) }
{
    if !is_laid_out(bytes, tree) {
        return Err(Visit::Bad {
            page,
            rule: PageRule::Fields as u8,
        });
    }
    if bytes[LEVEL] == 0 {
        return Err(Visit::Bad {
            page,
            rule: PageRule::Fields as u8,
        });
    }
    if read_u16(bytes, COUNT) == 0 {
        return Err(Visit::Bad {
            page,
            rule: PageRule::Fields as u8,
        });
    }
    Ok(first_place(bytes, tree, Bound::Above, key).saturating_sub(1))
}

/// The parent's record that leads to the leaf of the key, if that leaf holds few records.
fn find_sparse<M: Mtr>(m: &mut M, tree: Tree, parent: u32, key: &[u8]) -> Result<Option<u16>, Visit>
    requires few { 2 + length (M.state m.old).visited ≤ MOST_VISITED }
    requires tree { IsTrue (M.state m.old).told → IsPlacedTree tree (M.state m.old).seen }
    requires parent { IsTrue (M.state m.old).told → IsParent tree (M.state m.old).seen key.now parent }
    ensures reads { Reads 2 (M.state m.old) (M.state m.new) }
    ensures found { IfOk result (λ place. IsTrue (M.state m.new).told → IsSparse tree (M.state m.old).seen key.now parent place) }
    ensures reason { IfErr result (IsStop M.state (M.state m.old) (M.state m.new)) }
{
    let above = copy_of(m, parent)?;
    let place = place_for(&above, tree, parent, key)?;
    let leaf = child_at(&above, tree, place);
    let bytes = leaf_copy(m, tree, leaf)?;
    if holds_few(&bytes) {
        Ok(Some(place))
    } else {
        Ok(None)
    }
}

/// Merges the child of a parent's record with the one to its right, or else with the one to its left.
fn merge_beside<M: Mtr>(
    m: &mut M,
    tree: Tree,
    parent: u32,
    place: u16,
) -> Result<Option<u32>, SpaceBad>
    requires few { 16 + length (M.state m.old).visited ≤ MOST_VISITED }
    requires some { 0 < tree.key_len }
    requires tree { IsTrue (M.state m.old).told → IsPlacedTree tree (M.state m.old).seen }
    requires parent { IsTrue (M.state m.old).told → IsAboveLeaves tree (M.state m.old).seen parent }
    ensures goes_on { GoesOn 16 (M.state m.old) (M.state m.new) }
    ensures done { IfOk result (λ freed. IsTrue (M.state m.new).told
        → MergesBeside tree parent place (M.state m.old).seen (M.state m.new).seen freed) }
    ensures reason { IfErr result (IsMergeReason M.state (M.state m.old) (M.state m.new)) }
{
    match merge_in(m, tree, parent, place)? {
        Some(freed) => return Ok(Some(freed)),
        None => {}
    }
    if place == 0 {
        return Ok(None);
    }
    merge_in(m, tree, parent, place - 1)
}

/// Merges the leaf of the key with one beside it, where it holds few records and fits with one.
fn tidy_in<M: Mtr>(m: &mut M, tree: Tree, parent: u32, key: &[u8]) -> Result<Option<u32>, SpaceBad>
    requires few { 18 + length (M.state m.old).visited ≤ MOST_VISITED }
    requires some { 0 < tree.key_len }
    requires tree { IsTrue (M.state m.old).told → IsPlacedTree tree (M.state m.old).seen }
    requires parent { IsTrue (M.state m.old).told → IsParent tree (M.state m.old).seen key.now parent }
    ensures goes_on { GoesOn 18 (M.state m.old) (M.state m.new) }
    ensures done { IfOk result (λ freed. IsTrue (M.state m.new).told
        → DoesTidy tree key.now (M.state m.old).seen (M.state m.new).seen freed) }
    ensures reason { IfErr result (IsMergeReason M.state (M.state m.old) (M.state m.new)) }
{
    match find_sparse(m, tree, parent, key)? {
        Some(place) => merge_beside(m, tree, parent, place),
        None => Ok(None),
    }
}

/// Makes the puts stand, or drops them where memory is lacking.
fn settle<M: Mtr>(m: &mut M) -> Result<(), SpaceBad>
    ensures committed { OnOk result (Commits (M.state m.old) (M.state m.new)) }
    ensures given_up { OnErr result (GivesUp (M.state m.old) (M.state m.new)) }
    ensures memory { IfErr result (λ why. why ≡ NoSpaceMemory) }
{
    match m.commit() {
        Ok(()) => Ok(()),
        Err(NoMemory) => {
            m.give_up();
            Err(SpaceBad::NoMemory)
        }
    }
}

/// Merges the leaf of the key with one beside it under the same parent, where it has less than half of the records that have
/// room on a page, and those of both have room on one. Answers which page is free now, if they were merged. A root that has
/// one child left stays.
pub fn tidy<M: Mtr>(m: &mut M, tree: Tree, key: &[u8]) -> Result<Option<u32>, SpaceBad>
    requires idle { IsIdle (M.state m.old) }
    requires some { 0 < tree.key_len }
    requires tree { IsTrue (M.state m.old).told → IsPlacedTree tree (M.state m.old).standing }
    ensures done { IfOk result (λ freed. IsTrue (M.state m.new).told
        → DoesTidy tree key.now (M.state m.old).standing (M.state m.new).standing freed) }
    ensures ends { Ends (M.state m.old) (M.state m.new) }
    ensures kept { OnErr result (GivesUp (M.state m.old) (M.state m.new)) }
    ensures reason { IfErr result (IsMergeReason M.state (M.state m.old) (M.state m.new)) }
{
    let parent = match parent_of(m, tree, key)? {
        Some(parent) => parent,
        None => return Ok(None),
    };
    match tidy_in(m, tree, parent, key) {
        Ok(Some(freed)) => {
            settle(m)?;
            Ok(Some(freed))
        }
        Ok(None) => {
            m.give_up();
            Ok(None)
        }
        Err(why) => {
            m.give_up();
            Err(why)
        }
    }
}
