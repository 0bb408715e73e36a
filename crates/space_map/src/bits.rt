//! The bits of one page of the map.
//! Nothing here asks for a page.

ghost use Rattle.std.specs.Prelude.{◌≡◌, ◌≢◌, ℕ, ◌+◌, ◌-◌, ◌*◌, ◌/◌, ◌%◌, ◌<◌, ◌≤◌, length, slice_index, IsTrue, MatchOption, MatchBool, if◌then◌else◌};
ghost use Rattle.std.specs.Int.{bit_at};
ghost use Rattle.stored_pages.specs.declared.layout.TheConstants.{PAGE, COVERED};
ghost use Rattle.space_map.specs.Map.{bit_in};
ghost use Rattle.space_map.specs.Places.{free_places};

use stored_pages::layout::BITS;

/// A byte with one bit set or cleared.
pub fn with_bit(byte: u8, bit: u8, on: bool) -> u8
    requires { bit < 8 }
    ensures here { bit_at result bit ≡ (if on then 1 else 0) }
    ensures others { (other : ℕ) → other < 8 → other ≢ bit → bit_at result other ≡ bit_at byte other }
{
    if on {
        byte | (1 << bit)
    } else {
        byte & !(1 << bit)
    }
}

/// Whether a place of a page of the map is marked.
pub fn is_marked(map: &[u8], place: u32) -> bool
    requires size { length map.now ≡ PAGE }
    requires place { place < COVERED }
    ensures { MatchBool result (bit_in map.now place ≡ 1) (bit_in map.now place ≡ 0) }
{
    let byte = map[BITS + (place / 8) as usize];
    (byte >> (place % 8)) & 1 == 1
}

/// The first place that isn't marked, below another.
pub fn first_free(map: &[u8], end: u32) -> Option<u32>
    requires size { length map.now ≡ PAGE }
    requires end { end ≤ COVERED }
    ensures { MatchOption result ((place : ℕ) → place < end → bit_in map.now place ≡ 1)
        (λ found. (found < end) × (bit_in map.now found ≡ 0) × ((place : ℕ) → place < found → bit_in map.now place ≡ 1)) }
{
    for place in 0..end {
        if !is_marked(map, place) {
            return Some(place);
        }
    }
    None
}

/// How many places below another aren't marked.
pub fn count_free(map: &[u8], end: u32) -> u32
    requires size { length map.now ≡ PAGE }
    requires end { end ≤ COVERED }
    ensures count { result ≡ free_places map.now end }
    ensures few { result ≤ end }
{
    let mut count = 0;
    for place in 0..end {
        if !is_marked(map, place) {
            count += 1;
        }
    }
    count
}
