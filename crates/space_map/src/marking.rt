//! One page is marked in the map, as used or as free.
//! Nothing else writes to the map.

ghost use Rattle.std.specs.Prelude.{◌≡◌, ◌+◌, ◌/◌, ◌<◌, ◌≤◌, IsTrue, IfErr, OnOk, OnErr, if◌then◌else◌};
ghost use Rattle.store_api.specs.declared.limits.TheConstants.{MOST_PAGES};
ghost use Rattle.mtr.specs.declared.store.TheConstants.{MOST_VISITED};
ghost use Rattle.mtr.specs.Seen.{claim, IsWithin};
ghost use Rattle.mtr.specs.Calls.{Consults};
ghost use Rattle.space_map.specs.Taking.{map_pages, Marks, IsGiveReason};

use crate::bits::with_bit;
use mtr::Mtr;
use store_api::SpaceBad;
use stored_pages::layout::{BITS, COVERED, FIRST_MAP_PAGE};

/// Sets or clears a page's bit.
pub fn set_mark<M: Mtr>(m: &mut M, page: u32, used: bool) -> Result<(), SpaceBad>
    requires page { page < MOST_PAGES }
    requires few { claim map_pages (M.state m.old).visited ≤ MOST_VISITED }
    requires within { IsWithin 20 (M.state m.old) }
    ensures marked { OnOk result (Marks page (if used then 1 else 0) (M.state m.old) (M.state m.new)) }
    ensures kept { OnErr result (Consults map_pages (M.state m.old) (M.state m.new)) }
    ensures reason { IfErr result (IsGiveReason (M.state m.old) (M.state m.new)) }
{
    let map = FIRST_MAP_PAGE + page / COVERED;
    let at = BITS + (page % COVERED / 8) as usize;
    let bytes = m.bytes(map)?;
    let byte = with_bit(bytes[at], (page % 8) as u8, used);
    m.put(map, at as u16, &[byte])?;
    Ok(())
}
