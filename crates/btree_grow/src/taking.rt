//! Pages that a mini-transaction asks for while it goes on: one that is copied, and a free one that is taken and made
//! zeros. Only splits and raises ask here.

ghost use Rattle.std.specs.Prelude.{◌≡◌, ◌+◌, ◌≤◌, length, IsTrue, IfOk, IfErr};
ghost use Rattle.mtr.specs.declared.store.TheConstants.{MOST_VISITED};
ghost use Rattle.mtr.specs.Seen.{visit, is_in, claim, IsShown};
ghost use Rattle.mtr.specs.Calls.{Asks};
ghost use Rattle.space_map.specs.Taking.{map_pages};
ghost use Rattle.btree_grow.specs.Going.{GoesOn, IsHalt};
ghost use Rattle.btree_grow.specs.Taken.{AreReserved, TakesPage};

use mtr::Mtr;
use space_map::take;
use store_api::{FreshBad, SpaceBad, Visit};
use stored_pages::layout::PAGE;

/// The bytes of a page.
pub fn copy_of<M: Mtr>(m: &mut M, page: u32) -> Result<[u8; PAGE], Visit>
    requires { length (visit page (M.state m.old).visited) ≤ MOST_VISITED }
    ensures shown { IfOk result (λ bytes. IsTrue (M.state m.old).told → IsShown ((M.state m.old).seen page) bytes) }
    ensures asks { Asks page (M.state m.old) result (M.state m.new) }
{
    let mut copy = [0; PAGE];
    copy.copy_from_slice(m.bytes(page)?);
    Ok(copy)
}

/// Takes the first free page and makes it zeros.
pub fn take_blank<M: Mtr>(m: &mut M) -> Result<u32, SpaceBad>
    requires few { 1 + claim map_pages (M.state m.old).visited ≤ MOST_VISITED }
    requires reserved { IsTrue (M.state m.old).told → AreReserved (M.state m.old).seen }
    ensures goes_on { GoesOn 1 (M.state m.old) (M.state m.new) }
    ensures taken { IfOk result (λ page. IsTrue (M.state m.new).told → TakesPage page (M.state m.old).seen (M.state m.new).seen) }
    ensures dealt_with { IfOk result (λ page. IsTrue (is_in page (M.state m.new).visited)) }
    ensures reason { IfErr result (IsHalt M.state (M.state m.old) (M.state m.new)) }
{
    let page = take(m)?;
    match m.fresh(page) {
        Ok(()) => Ok(page),
        Err(FreshBad::Again) => Err(SpaceBad::Visit(Visit::Again)),
        Err(FreshBad::NoMemory) => Err(SpaceBad::NoMemory),
    }
}
