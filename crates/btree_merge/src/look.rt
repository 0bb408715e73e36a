//! Two leaves side by side under one parent, read before they are merged.
//! `merge_in` alone looks, before it writes; no page is changed here.

ghost use Rattle.std.specs.Prelude.{◌≡◌, ◌≢◌, ◌+◌, ◌≤◌, suc, length, IsTrue, IfOk, IfErr, IfSome, MatchOption};
ghost use Rattle.store_api.specs.declared.visits.Visit.TheVariants.{Bad};
ghost use Rattle.mtr.specs.declared.store.TheConstants.{MOST_VISITED};
ghost use Rattle.page_format.specs.Words.{level_of, records_of};
ghost use Rattle.btree.specs.Descents.{IsReadable};
ghost use Rattle.btree_split.specs.Placed.{IsPlacedTree};
ghost use Rattle.btree_merge.specs.Merges.{IsAboveLeaves};
ghost use Rattle.btree_merge.specs.Going.{Reads, IsStop};
ghost use Rattle.btree_merge.specs.Merged.{CanMerge};
ghost use Rattle.btree_merge.specs.Siblings.{IsCouple, AreReadable, AreDealtWith, AreToMerge};

use crate::join::fit_together;
use crate::reading::{copy_of, leaf_copy};
use btree::{Tree, child_at, is_laid_out};
use mtr::Mtr;
use page_format::layout::{COUNT, LEVEL};
use store_api::{PageRule, Visit};
use stored_pages::layout::PAGE;
use stored_pages::read_u16;

/// Two leaves side by side under one parent.
#[derive(Clone, Copy)]
pub struct Couple {
    pub left: u32,
    pub right: u32,
}

/// Two leaves side by side, and the bytes of their parent and of both, as they are read.
#[derive(Drop)]
pub struct Siblings {
    pub couple: Couple,
    pub above: [u8; PAGE],
    pub left: [u8; PAGE],
    pub right: [u8; PAGE],
}

/// The children of a record and of the next one, if there is a next one.
fn couple_at(bytes: &[u8], tree: Tree, page: u32, place: u16) -> Result<Option<Couple>, Visit>
    requires { length bytes.now ≡ PAGE }
    ensures couple { IfOk result (λ couple. MatchOption couple (length (records_of bytes.now) ≤ suc place) (IsCouple tree bytes.now place)) }
    ensures refused { IfErr result (λ why. (why ≡ Bad page 1) × (IsReadable tree bytes.now → level_of bytes.now ≢ 0 → ⊥)) }
{
    if !is_laid_out(bytes, tree) {
        return Err(Visit::Bad {
            page,
            rule: PageRule::Fields as u8,
        });
    }
    if bytes[LEVEL] == 0 {
        return Err(Visit::Bad {
            page,
            rule: PageRule::Fields as u8,
        });
    }
    if usize::from(place) + 1 >= usize::from(read_u16(bytes, COUNT)) {
        return Ok(None);
    }
    let left = child_at(bytes, tree, place);
    let right = child_at(bytes, tree, place + 1);
    Ok(Some(Couple { left, right }))
}

/// Reads the child of a parent's record and that of the next one, where there is one and both fit into one page.
pub fn look_at<M: Mtr>(
    m: &mut M,
    tree: Tree,
    parent: u32,
    place: u16,
) -> Result<Option<Siblings>, Visit>
    requires few { 3 + length (M.state m.old).visited ≤ MOST_VISITED }
    requires tree { IsTrue (M.state m.old).told → IsPlacedTree tree (M.state m.old).seen }
    requires parent { IsTrue (M.state m.old).told → IsAboveLeaves tree (M.state m.old).seen parent }
    ensures reads { Reads 3 (M.state m.old) (M.state m.new) }
    ensures readable { IfOk result (λ both. IfSome both (AreReadable tree place)) }
    ensures dealt_with { IfOk result (λ both. IfSome both (λ both. AreDealtWith parent both.couple (M.state m.new).visited)) }
    ensures found { IfOk result (λ both. IsTrue (M.state m.new).told
        → MatchOption both (CanMerge tree (M.state m.old).seen parent place → ⊥) (AreToMerge tree (M.state m.old).seen parent place)) }
    ensures reason { IfErr result (IsStop M.state (M.state m.old) (M.state m.new)) }
{
    let above = copy_of(m, parent)?;
    let couple = match couple_at(&above, tree, parent, place)? {
        Some(couple) => couple,
        None => return Ok(None),
    };
    let left = leaf_copy(m, tree, couple.left)?;
    let right = leaf_copy(m, tree, couple.right)?;
    if !fit_together(&left, &right) {
        return Ok(None);
    }
    Ok(Some(Siblings {
        couple,
        above,
        left,
        right,
    }))
}
