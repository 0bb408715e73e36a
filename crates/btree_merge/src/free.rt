//! A page that is given back: it is made zeros, and the map marks it as free.
//! `merge_in` alone calls it, once the page's records stand in the leaf to its left.

ghost use Rattle.std.specs.Prelude.{◌≡◌, ◌+◌, ◌<◌, ◌≤◌, length, IsTrue, IfErr, OnOk};
ghost use Rattle.store_api.specs.declared.limits.TheConstants.{MOST_PAGES};
ghost use Rattle.mtr.specs.declared.store.TheConstants.{MOST_VISITED};
ghost use Rattle.mtr.specs.Seen.{IsWithin};
ghost use Rattle.btree_merge.specs.Merges.{FreesPage};
ghost use Rattle.btree_merge.specs.Going.{GoesOn, IsMergeReason};

use mtr::Mtr;
use space_map::give;
use store_api::{FreshBad, SpaceBad, Visit};

/// Gives a page back and makes it zeros.
pub fn free_page<M: Mtr>(m: &mut M, page: u32) -> Result<(), SpaceBad>
    requires few { 5 + length (M.state m.old).visited ≤ MOST_VISITED }
    requires within { IsWithin page (M.state m.old) }
    requires beyond { IsTrue (M.state m.old).told → 20 < page }
    requires small { IsTrue (M.state m.old).told → page < MOST_PAGES }
    ensures goes_on { GoesOn 5 (M.state m.old) (M.state m.new) }
    ensures freed { OnOk result (IsTrue (M.state m.new).told → FreesPage page (M.state m.old).seen (M.state m.new).seen) }
    ensures reason { IfErr result (IsMergeReason M.state (M.state m.old) (M.state m.new)) }
{
    give(m, page)?;
    match m.fresh(page) {
        Ok(()) => Ok(()),
        Err(FreshBad::Again) => Err(SpaceBad::Visit(Visit::Again)),
        Err(FreshBad::NoMemory) => Err(SpaceBad::NoMemory),
    }
}
