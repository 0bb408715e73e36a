//! Reading page 0: from its place if it is good there, else from its newest copy in the doublewrite.
//! Nothing is repaired, and nothing written.

ghost use Rattle.std.specs.Prelude.{◌≡◌, ◌≤◌, ℕ, List, length, IfOk, IfErr, OnOk, MatchBool};
ghost use Rattle.store_api.specs.Past.{Now};
ghost use Rattle.stored_pages.specs.Reading.{IsGoodPage, place_of};
ghost use Rattle.store_api.specs.Looks.{Looks, LeavesState};
ghost use Rattle.file_zero.specs.Reading.{IsRead, SaysHeader};
ghost use Rattle.file_zero.specs.Refused.{IsRefused, IsMissing};

use crate::fields::{Header, header_of};
use std::alloc::Global;
use store_api::{Area, Disk, MountBad};
use stored_pages::layout::{DOUBLE, NUMBER, PAGE, SUM};
use stored_pages::{good_number, newest_copy, read_u64};
use sum64::fnv;

/// Whether the first bytes of the pages are a good page 0.
fn is_in_place(place: &[u8], len: usize) -> bool
    requires size { length place.now ≡ PAGE }
    requires fits { len ≤ PAGE }
    ensures { (pages : List ℕ) → IsRead len place.now pages →
        MatchBool result ((place_of 0 pages ≡ place.now) × IsGoodPage 0 place.now) (IsGoodPage 0 (place_of 0 pages) → ⊥) }
{
    if len < PAGE {
        return false;
    }
    match good_number(place) {
        Some(found) => found == 0,
        None => false,
    }
}

/// Why there is no page 0, where it has no good copy.
fn missing(place: &[u8], len: usize) -> MountBad
    requires size { length place.now ≡ PAGE }
    requires fits { len ≤ PAGE }
    ensures { (pages : List ℕ) → IsRead len place.now pages → IsMissing pages result }
{
    if len < PAGE {
        return MountBad::NotInitialised;
    }
    MountBad::Damaged {
        area: Area::Pages,
        place: 0,
        stored: read_u64(place, SUM),
        computed: fnv(&place[NUMBER..]),
    }
}

/// What the newest copy of page 0 says, where the page is not good in its place.
fn read_copy<D: Disk>(
    alloc: Global,
    disk: &mut D,
    place: &[u8],
    len: usize,
) -> Result<Header, MountBad>
    requires size { length place.now ≡ PAGE }
    requires fits { len ≤ PAGE }
    requires read { Now (λ s. IsRead len place.now s.pages.seen) (D.past disk.old) }
    requires bad { Now (λ s. IsGoodPage 0 (place_of 0 s.pages.seen) → ⊥) (D.past disk.old) }
    ensures looks { Looks (D.past disk.old) (D.past disk.new) }
    ensures same { OnOk result (LeavesState (D.past disk.old) (D.past disk.new)) }
    ensures header { IfOk result (λ header. Now (SaysHeader header.run header.first) (D.past disk.new)) }
    ensures refused { IfErr result (IsRefused (D.past disk.old) (D.past disk.new)) }
    ensures later { (D.past disk.old).faults ≤ (D.past disk.new).faults }
{
    let Ok(mut copies) = vec![in alloc; 0; DOUBLE] else {
        return Err(MountBad::NoMemory);
    };
    let Ok(count) = disk.read(Area::Double, 0, &mut copies) else {
        return Err(MountBad::Disk);
    };
    match newest_copy(&copies[..count], 0) {
        Some(page) => header_of(page),
        None => Err(missing(place, len)),
    }
}

/// What page 0 says.
pub fn read_header<D: Disk>(alloc: Global, disk: &mut D) -> Result<Header, MountBad>
    ensures looks { Looks (D.past disk.old) (D.past disk.new) }
    ensures same { OnOk result (LeavesState (D.past disk.old) (D.past disk.new)) }
    ensures header { IfOk result (λ header. Now (SaysHeader header.run header.first) (D.past disk.new)) }
    ensures refused { IfErr result (IsRefused (D.past disk.old) (D.past disk.new)) }
    ensures later { (D.past disk.old).faults ≤ (D.past disk.new).faults }
{
    let mut place = [0; PAGE];
    let Ok(len) = disk.read(Area::Pages, 0, &mut place) else {
        return Err(MountBad::Disk);
    };
    if is_in_place(&place, len) {
        return header_of(&place);
    }
    read_copy(alloc, disk, &place, len)
}
