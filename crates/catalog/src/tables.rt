//! One table on the bytes of its page.
//! Nothing here asks for a page.

ghost use Rattle.std.specs.Prelude.{◌≡◌, ◌<◌, length, slice_index, IfOk, IfErr, MatchBool, All};
ghost use Rattle.stored_pages.specs.declared.layout.TheConstants.{PAGE};
ghost use Rattle.page_format.specs.Words.{kind_of};
ghost use Rattle.catalog.specs.Tables.{HoldsTable};
ghost use Rattle.catalog.specs.Loading.{Shows, IsNoTable};

use crate::{EntryBad, Held, get_entry};
use page_format::layout::KIND;
use std::alloc::Global;

/// The kind of a page of the catalog.
const CATALOG: u8 = 2;

/// Where the byte stands that tells whether the page is in use.
pub const IN_USE: usize = 32;

fn are_below(roots: &[u32], count: u32) -> bool
    ensures { MatchBool result (All (λ root. root < count) roots.now) (All (λ root. root < count) roots.now → ⊥) }
{
    roots.iter().all(|root| *root < count)
}

/// The table that a page of the catalog in use holds.
fn held_in(alloc: Global, page: &[u8], count: u32) -> Result<Held, EntryBad>
    requires size { length page.now ≡ PAGE }
    requires kind { kind_of page.now ≡ 2 }
    requires in_use { slice_index page.now 32 ≡ 1 }
    ensures held { IfOk result (λ held. HoldsTable count held page.now) }
    ensures refused { IfErr result (IsNoTable count page.now) }
{
    let held = get_entry(alloc, &page[IN_USE + 1..])?;
    if !are_below(held.roots.as_slice(), count) {
        return Err(EntryBad::Shape);
    }
    Ok(held)
}

/// The table that a page of the catalog holds, or None where it isn't in use.
pub fn table_in(alloc: Global, page: &[u8], count: u32) -> Result<Option<Held>, EntryBad>
    requires { length page.now ≡ PAGE }
    ensures shown { IfOk result (λ shown. Shows count page.now shown) }
    ensures refused { IfErr result (IsNoTable count page.now) }
{
    if page[KIND] != CATALOG {
        return Err(EntryBad::Shape);
    }
    match page[IN_USE] {
        0 => Ok(None),
        1 => Ok(Some(held_in(alloc, page, count)?)),
        _ => Err(EntryBad::Shape),
    }
}
