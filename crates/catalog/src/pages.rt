//! The pages of the catalog, one at a time.
//! What is asked here changes nothing.

ghost use Rattle.std.specs.Prelude.{◌≡◌, ◌<◌, ◌≤◌, IsTrue, IfOk, IfErr};
ghost use Rattle.stored_pages.specs.declared.layout.TheConstants.{FIRST_CATALOG_PAGE, FIXED_PAGES};
ghost use Rattle.mtr.specs.declared.store.TheConstants.{MOST_VISITED};
ghost use Rattle.mtr.specs.Seen.{claim};
ghost use Rattle.mtr.specs.Calls.{Consults};
ghost use Rattle.catalog.specs.Loading.{catalog_pages, Shows, IsTableReason};

use crate::tables::table_in;
use crate::{EntryBad, Held};
use mtr::Mtr;
use std::alloc::Global;
use store_api::{FindBad, PageRule};

/// The table that a page of the catalog holds, or None where it isn't in use.
pub fn table_on<M: Mtr>(
    alloc: Global,
    m: &mut M,
    page: u32,
    count: u32,
) -> Result<Option<Held>, FindBad>
    requires from { FIRST_CATALOG_PAGE ≤ page }
    requires to { page < FIXED_PAGES }
    requires few { claim catalog_pages (M.state m.old).visited ≤ MOST_VISITED }
    ensures shown { IfOk result (λ shown. IsTrue (M.state m.new).told → Shows count ((M.state m.old).seen page) shown) }
    ensures consults { Consults catalog_pages (M.state m.old) (M.state m.new) }
    ensures reason { IfErr result (IsTableReason page count (M.state m.old) (M.state m.new)) }
{
    let bytes = m.bytes(page)?;
    match table_in(alloc, bytes, count) {
        Ok(shown) => Ok(shown),
        Err(EntryBad::Shape) => Err(FindBad::Malformed {
            page,
            rule: PageRule::Fields as u8,
        }),
        Err(EntryBad::NoMemory) => Err(FindBad::NoMemory),
    }
}
