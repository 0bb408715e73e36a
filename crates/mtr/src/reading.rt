//! Numbers on pages, as a mini-transaction sees them.
//! What asks for one page and reads one number of it is here.

ghost use Rattle.std.specs.Prelude.{◌≡◌, ◌+◌, ◌≤◌, length, IsTrue, IfOk};
ghost use Rattle.stored_pages.specs.declared.layout.TheConstants.{PAGE};
ghost use Rattle.mtr.specs.declared.store.TheConstants.{MOST_VISITED};
ghost use Rattle.stored_pages.specs.Words.{u32_at};
ghost use Rattle.mtr.specs.Seen.{visit, capacity_of};
ghost use Rattle.mtr.specs.Calls.{Asks};

use crate::pages::Mtr;
use store_api::Visit;
use stored_pages::layout::PAGE_COUNT;
use stored_pages::read_u32;

/// The number of 4 bytes at a place of a page.
pub fn u32_on<M: Mtr>(m: &mut M, page: u32, at: usize) -> Result<u32, Visit>
    requires few { length (visit page (M.state m.old).visited) ≤ MOST_VISITED }
    requires begins { 20 ≤ at }
    requires ends { at + 4 ≤ PAGE }
    ensures value { IfOk result (λ n. IsTrue (M.state m.old).told → n ≡ u32_at at ((M.state m.old).seen page)) }
    ensures asks { Asks page (M.state m.old) result (M.state m.new) }
{
    let bytes = m.bytes(page)?;
    Ok(read_u32(bytes, at))
}

/// How many pages there are.
pub fn capacity<M: Mtr>(m: &mut M) -> Result<u32, Visit>
    requires { length (visit 0 (M.state m.old).visited) ≤ MOST_VISITED }
    ensures value { IfOk result (λ n. IsTrue (M.state m.old).told → n ≡ capacity_of (M.state m.old)) }
    ensures counted { IfOk result (λ n. IsTrue (M.state m.new).told → n ≡ capacity_of (M.state m.new)) }
    ensures asks { Asks 0 (M.state m.old) result (M.state m.new) }
{
    u32_on(m, 0, PAGE_COUNT)
}
