//! Pages are taken and given back, and the free ones are counted.
//! A page is free where the map says so and page 0 counts it.

ghost use Rattle.std.specs.Prelude.{◌≡◌, ◌≤◌, IsTrue, IfOk, IfErr, OnOk, OnErr};
ghost use Rattle.mtr.specs.declared.store.TheConstants.{MOST_VISITED};
ghost use Rattle.mtr.specs.Seen.{claim, capacity_of, IsWithin};
ghost use Rattle.mtr.specs.Calls.{Consults, IsReason};
ghost use Rattle.space_map.specs.Map.{free_among};
ghost use Rattle.space_map.specs.Taking.{map_pages, HasPageCount, Miscounts, Marks, Takes, IsTakeReason, IsGiveReason};

use crate::marking::set_mark;
use crate::parts::{count_all, find_free, page_count};
use mtr::Mtr;
use store_api::{PageRule, SpaceBad, Visit};

/// Takes the first free page. What stands on it is left to the caller.
pub fn take<M: Mtr>(m: &mut M) -> Result<u32, SpaceBad>
    requires { claim map_pages (M.state m.old).visited ≤ MOST_VISITED }
    ensures taken { IfOk result (λ page. Takes page (M.state m.old) (M.state m.new)) }
    ensures counted { IfOk result (λ _. IsTrue (M.state m.new).told → HasPageCount (M.state m.old).seen) }
    ensures kept { OnErr result (Consults map_pages (M.state m.old) (M.state m.new)) }
    ensures reason { IfErr result (IsTakeReason (M.state m.old) (M.state m.new)) }
{
    let count = page_count(m)?;
    let found = find_free(m, count)?;
    match found {
        Some(page) => {
            set_mark(m, page, true)?;
            Ok(page)
        }
        None => Err(SpaceBad::Full),
    }
}

/// Gives a page back.
pub fn give<M: Mtr>(m: &mut M, page: u32) -> Result<(), SpaceBad>
    requires few { claim map_pages (M.state m.old).visited ≤ MOST_VISITED }
    requires within { IsWithin page (M.state m.old) }
    ensures given { OnOk result (Marks page 0 (M.state m.old) (M.state m.new)) }
    ensures kept { OnErr result (Consults map_pages (M.state m.old) (M.state m.new)) }
    ensures reason { IfErr result (IsGiveReason (M.state m.old) (M.state m.new)) }
{
    let count = page_count(m)?;
    if page >= count {
        return Err(SpaceBad::Visit(Visit::Bad {
            page: 0,
            rule: PageRule::Fields as u8,
        }));
    }
    set_mark(m, page, false)?;
    Ok(())
}

/// How many pages are free.
pub fn free_count<M: Mtr>(m: &mut M) -> Result<u32, Visit>
    requires { claim map_pages (M.state m.old).visited ≤ MOST_VISITED }
    ensures free { IfOk result (λ free. IsTrue (M.state m.new).told → free ≡ free_among (M.state m.old).seen 0 (capacity_of (M.state m.old))) }
    ensures consults { Consults map_pages (M.state m.old) (M.state m.new) }
    ensures reason { IfErr result (IsReason map_pages Miscounts (M.state m.old) (M.state m.new)) }
{
    let count = page_count(m)?;
    count_all(m, count)
}
