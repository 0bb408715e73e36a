//! Reading page 0, and the pages that are good in their places.
//! It runs once torn pages are put right, so that no copy matters. Nothing is written.

ghost use Rattle.std.specs.Prelude.{◌≡◌, ◌≤◌, ◌<◌, ℕ, List, length, take, None, Some, IfOk, IfErr, OnOk, MatchBool};
ghost use Rattle.store_api.specs.Causes.{HasCause};
ghost use Rattle.store_api.specs.Past.{Now};
ghost use Rattle.stored_pages.specs.Reading.{place_of};
ghost use Rattle.page_recovery.specs.Looking.{Since};
ghost use Rattle.store_api.specs.Looks.{Looks, LeavesState};
ghost use Rattle.page_recovery.specs.Reading.{StandsIn, AreStanding, IsTaken};
ghost use Rattle.page_recovery.specs.Recovering.{SaysHeader, IsCause, IsFault};
ghost use Rattle.page_recovery.specs.Refused.{IsFailed};

use crate::bad::RecoverBad;
use crate::header::{Header, header_of};
use crate::pages::Pages;
use std::alloc::Global;
use store_api::{Area, Disk, Failed};
use stored_pages::good_number;
use stored_pages::layout::PAGE;

/// Whether what was read of a page's place is the page.
fn is_page(place: &[u8], len: usize, page: u32) -> bool
    requires size { length place.now ≡ PAGE }
    ensures { (area : List ℕ) → take len place.now ≡ place_of page area →
        MatchBool result (StandsIn area page (Some place.now)) (StandsIn area page None) }
{
    if len < PAGE {
        return false;
    }
    match good_number(place) {
        Some(found) => found == page,
        None => false,
    }
}

/// Reads a page's place, and answers whether it is good there.
fn read_place<D: Disk>(disk: &mut D, page: u32, place: &mut [u8; PAGE]) -> Result<bool, Failed>
    ensures looks { Looks (D.past disk.old) (D.past disk.new) }
    ensures same { OnOk result (LeavesState (D.past disk.old) (D.past disk.new)) }
    ensures good { IfOk result (λ good. Now (λ s. MatchBool good (StandsIn s.pages.seen page (Some place.new)) (StandsIn s.pages.seen page None))
        (D.past disk.new)) }
    ensures size { length place.new ≡ PAGE }
    ensures cause { HasCause (D.past disk.old).faults (D.past disk.new).faults result }
{
    let len = disk.read(Area::Pages, PAGE as u64 * u64::from(page), place)?;
    Ok(is_page(place, len, page))
}

/// What page 0 says.
pub fn read_header<D: Disk>(disk: &mut D) -> Result<Header, RecoverBad>
    ensures looks { Looks (D.past disk.old) (D.past disk.new) }
    ensures same { OnOk result (LeavesState (D.past disk.old) (D.past disk.new)) }
    ensures header { IfOk result (λ header. Now (λ s. SaysHeader (StandsIn s.pages.seen) header.capacity header.run header.first) (D.past disk.new)) }
    ensures refused { IfErr result (λ why. Since (λ s. IsCause (StandsIn s.pages.seen) s.log.seen why) (D.past disk.old) (D.past disk.new)) }
    ensures later { (D.past disk.old).faults ≤ (D.past disk.new).faults }
    ensures failed { IfErr result (IsFault (D.past disk.old).faults (D.past disk.new).faults) }
{
    let mut place = [0; PAGE];
    if !read_place(disk, 0, &mut place)? {
        return Err(RecoverBad::NoHeader);
    }
    header_of(&place)
}

/// Takes a page, if it is good in its place.
fn read_page<D: Disk>(
    alloc: Global,
    disk: &mut D,
    page: u32,
    pages: &mut Pages,
) -> Result<(), RecoverBad>
    requires { page < length pages.old }
    ensures looks { Looks (D.past disk.old) (D.past disk.new) }
    ensures same { OnOk result (LeavesState (D.past disk.old) (D.past disk.new)) }
    ensures count { OnOk result (length pages.new ≡ length pages.old) }
    ensures taken { OnOk result (Now (λ s. IsTaken s.pages.seen page pages.old pages.new) (D.past disk.new)) }
    ensures later { (D.past disk.old).faults ≤ (D.past disk.new).faults }
    ensures failed { IfErr result (IsFailed (D.past disk.old).faults (D.past disk.new).faults) }
{
    let mut place = [0; PAGE];
    if read_place(disk, page, &mut place)? {
        pages.set(alloc, page, &place)?;
    }
    Ok(())
}

/// How many whole pages the area has, up to so many.
fn whole_pages<D: Disk>(disk: &mut D, capacity: u32) -> Result<u32, Failed>
    ensures looks { Looks (D.past disk.old) (D.past disk.new) }
    ensures same { OnOk result (LeavesState (D.past disk.old) (D.past disk.new)) }
    ensures most { IfOk result (λ count. count ≤ capacity) }
    ensures none { IfOk result (λ count. Now (λ s. (page : ℕ) → count ≤ page → page < capacity → StandsIn s.pages.seen page None) (D.past disk.new)) }
    ensures cause { HasCause (D.past disk.old).faults (D.past disk.new).faults result }
{
    let len = disk.len(Area::Pages)?;
    let whole = len / PAGE as u64;
    if whole < u64::from(capacity) {
        Ok(whole as u32)
    } else {
        Ok(capacity)
    }
}

/// All pages that are good in their places.
pub fn read_pages<D: Disk>(alloc: Global, disk: &mut D, capacity: u32) -> Result<Pages, RecoverBad>
    ensures looks { Looks (D.past disk.old) (D.past disk.new) }
    ensures same { OnOk result (LeavesState (D.past disk.old) (D.past disk.new)) }
    ensures count { IfOk result (λ pages. length pages ≡ capacity) }
    ensures pages { IfOk result (λ pages. Now (λ s. AreStanding s.pages.seen capacity pages) (D.past disk.new)) }
    ensures later { (D.past disk.old).faults ≤ (D.past disk.new).faults }
    ensures failed { IfErr result (IsFailed (D.past disk.old).faults (D.past disk.new).faults) }
{
    let mut pages = Pages::new(alloc, capacity)?;
    let count = whole_pages(disk, capacity)?;
    for page in 0..count {
        read_page(alloc, disk, page, &mut pages)?;
    }
    Ok(pages)
}
