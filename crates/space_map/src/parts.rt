//! The map part by part: each of its pages has the bits of one part of all pages.
//! What is asked here changes nothing.

ghost use Rattle.std.specs.Prelude.{◌≡◌, ℕ, ◌+◌, ◌-◌, ◌*◌, ◌<◌, ◌≤◌, length, IsTrue, IfOk, IfErr, IfSome, min};
ghost use Rattle.mtr.specs.declared.store.TheConstants.{MOST_VISITED};
ghost use Rattle.mtr.specs.Seen.{claim, capacity_of};
ghost use Rattle.mtr.specs.Calls.{Consults, IsReason};
ghost use Rattle.space_map.specs.Map.{mark_of, IsFirstFree, free_among};
ghost use Rattle.space_map.specs.Taking.{map_pages, Miscounts};

use crate::bits::{count_free, first_free};
use mtr::{Mtr, capacity};
use store_api::{MOST_PAGES, PageRule, Visit};
use stored_pages::layout::{COVERED, FIRST_MAP_PAGE, FIXED_PAGES, MAP_PAGES};

/// How many pages there are, if page 0 says a number that a file can have.
pub fn page_count<M: Mtr>(m: &mut M) -> Result<u32, Visit>
    requires { claim map_pages (M.state m.old).visited ≤ MOST_VISITED }
    ensures value { IfOk result (λ count. IsTrue (M.state m.new).told → count ≡ capacity_of (M.state m.old)) }
    ensures bounds { IfOk result (λ count. (FIXED_PAGES ≤ count) × (count ≤ MOST_PAGES)) }
    ensures consults { Consults map_pages (M.state m.old) (M.state m.new) }
    ensures reason { IfErr result (IsReason map_pages Miscounts (M.state m.old) (M.state m.new)) }
{
    let count = capacity(m)?;
    if count < FIXED_PAGES || count > MOST_PAGES {
        return Err(Visit::Bad {
            page: 0,
            rule: PageRule::Fields as u8,
        });
    }
    Ok(count)
}

/// How many pages a part has.
fn part_len(part: u32, count: u32) -> u32
    requires { part < 3 }
    ensures { result ≡ min count (COVERED * (part + 1)) - COVERED * part }
{
    count.saturating_sub(COVERED * part).min(COVERED)
}

/// The first free page of a part.
fn free_in_part<M: Mtr>(m: &mut M, part: u32, count: u32) -> Result<Option<u32>, Visit>
    requires part { part < 3 }
    requires few { claim map_pages (M.state m.old).visited ≤ MOST_VISITED }
    ensures found { IfOk result (λ found. IsTrue (M.state m.new).told → IsFirstFree (M.state m.old).seen (COVERED * part) (min count (COVERED * (part + 1))) found) }
    ensures below { IfOk result (λ found. IfSome found (λ page. page < count)) }
    ensures consults { Consults map_pages (M.state m.old) (M.state m.new) }
    ensures reason { IfErr result (IsReason map_pages Miscounts (M.state m.old) (M.state m.new)) }
{
    let end = part_len(part, count);
    let map = m.bytes(FIRST_MAP_PAGE + part)?;
    match first_free(map, end) {
        Some(place) => Ok(Some(COVERED * part + place)),
        None => Ok(None),
    }
}

/// How many pages of a part are free.
fn count_in_part<M: Mtr>(m: &mut M, part: u32, count: u32) -> Result<u32, Visit>
    requires part { part < 3 }
    requires few { claim map_pages (M.state m.old).visited ≤ MOST_VISITED }
    ensures free { IfOk result (λ free. IsTrue (M.state m.new).told → free ≡ free_among (M.state m.old).seen (COVERED * part) (min count (COVERED * (part + 1)) - COVERED * part)) }
    ensures few { IfOk result (λ free. free ≤ COVERED) }
    ensures consults { Consults map_pages (M.state m.old) (M.state m.new) }
    ensures reason { IfErr result (IsReason map_pages Miscounts (M.state m.old) (M.state m.new)) }
{
    let end = part_len(part, count);
    let map = m.bytes(FIRST_MAP_PAGE + part)?;
    Ok(count_free(map, end))
}

/// The first free page.
pub fn find_free<M: Mtr>(m: &mut M, count: u32) -> Result<Option<u32>, Visit>
    requires count { count ≤ MOST_PAGES }
    requires few { claim map_pages (M.state m.old).visited ≤ MOST_VISITED }
    ensures found { IfOk result (λ found. IsTrue (M.state m.new).told → IsFirstFree (M.state m.old).seen 0 count found) }
    ensures below { IfOk result (λ found. IfSome found (λ page. page < count)) }
    ensures consults { Consults map_pages (M.state m.old) (M.state m.new) }
    ensures reason { IfErr result (IsReason map_pages Miscounts (M.state m.old) (M.state m.new)) }
{
    for part in 0..MAP_PAGES {
        let found = free_in_part(m, part, count)?;
        match found {
            Some(page) => return Ok(Some(page)),
            None => {}
        }
    }
    Ok(None)
}

/// How many pages are free.
pub fn count_all<M: Mtr>(m: &mut M, count: u32) -> Result<u32, Visit>
    requires count { count ≤ MOST_PAGES }
    requires few { claim map_pages (M.state m.old).visited ≤ MOST_VISITED }
    ensures free { IfOk result (λ free. IsTrue (M.state m.new).told → free ≡ free_among (M.state m.old).seen 0 count) }
    ensures consults { Consults map_pages (M.state m.old) (M.state m.new) }
    ensures reason { IfErr result (IsReason map_pages Miscounts (M.state m.old) (M.state m.new)) }
{
    let mut free = 0;
    for part in 0..MAP_PAGES {
        free += count_in_part(m, part, count)?;
    }
    Ok(free)
}
