//! The copies in the area Double, as bytes that were read.
//! No call here meets the disk.

ghost use Rattle.std.specs.Prelude.{◌≡◌, ◌+◌, ◌*◌, ◌<◌, ◌≤◌, ℕ, List, length, MatchBool, MatchOption, IfSome, IfNone};
ghost use Rattle.store_api.specs.Areas.{piece};
ghost use Rattle.stored_pages.specs.Words.{lsn_of};
ghost use Rattle.stored_pages.specs.Reading.{IsGoodPage, IsCopyIn, IsNewestCopy};

use crate::heads::{lsn_in, number_in, passes_sum};
use crate::layout::{PAGE, SLOTS};
use store_api::MOST_PAGES;

/// The number of a page that is whole.
pub fn good_number(page: &[u8]) -> Option<u32>
    requires { length page.now ≡ PAGE }
    ensures { MatchOption result ((number : ℕ) → IsGoodPage number page.now → ⊥) (λ number. IsGoodPage number page.now) }
{
    if passes_sum(page) {
        Some(number_in(page))
    } else {
        None
    }
}

/// The copy in a slot.
pub fn copy_at(double: &[u8], slot: usize) -> &[u8]
    requires { PAGE * slot + PAGE ≤ length double.now }
    ensures value { result.now ≡ piece PAGE slot double.now }
    ensures size { length result.now ≡ PAGE }
{
    &double[slot * PAGE..(slot + 1) * PAGE]
}

/// The number of the copy in a slot, if it is good.
pub fn number_of_copy(double: &[u8], slot: usize) -> Option<u32>
    requires { slot < SLOTS }
    ensures { MatchOption result ((number : ℕ) → IsGoodPage number (piece PAGE slot double.now) → ⊥) (λ number. IsGoodPage number (piece PAGE slot double.now)) }
{
    if double.len() < (slot + 1) * PAGE {
        None
    } else {
        good_number(copy_at(double, slot))
    }
}

/// The number of the copy in a slot, if it is a good one of a page that a database may have.
pub fn restorable(double: &[u8], slot: usize) -> Option<u32>
    requires { slot < SLOTS }
    ensures { MatchOption result ((number : ℕ) → number < MOST_PAGES → IsGoodPage number (piece PAGE slot double.now) → ⊥)
        (λ number. (number < MOST_PAGES) × IsGoodPage number (piece PAGE slot double.now)) }
{
    match number_of_copy(double, slot) {
        Some(number) => {
            if number < MOST_PAGES {
                Some(number)
            } else {
                None
            }
        }
        None => None,
    }
}

/// Whether the copy in a slot is a good one of that page, with a greater LSN.
fn is_newer(double: &[u8], number: u32, newest: usize, slot: usize) -> bool
    requires slot { slot < SLOTS }
    requires newest { PAGE * newest + PAGE ≤ length double.now }
    ensures { MatchBool result (IsGoodPage number (piece PAGE slot double.now) × (lsn_of (piece PAGE newest double.now) < lsn_of (piece PAGE slot double.now)))
        (IsGoodPage number (piece PAGE slot double.now) → lsn_of (piece PAGE slot double.now) ≤ lsn_of (piece PAGE newest double.now)) }
{
    match number_of_copy(double, slot) {
        Some(other) => {
            if other == number {
                lsn_in(copy_at(double, newest)) < lsn_in(copy_at(double, slot))
            } else {
                false
            }
        }
        None => false,
    }
}

/// The slot of the newest copy of a page that has one.
pub fn newest_slot(double: &[u8], number: u32, first: usize) -> usize
    requires slot { first < SLOTS }
    requires good { IsGoodPage number (piece PAGE first double.now) }
    ensures slot { result < SLOTS }
    ensures newest { IsNewestCopy double.now number (piece PAGE result double.now) }
{
    let mut newest = first;
    for slot in 0..SLOTS {
        if is_newer(double, number, newest, slot) {
            newest = slot;
        }
    }
    newest
}

/// Whether the copy in a slot is a good one of that page.
fn is_copy_of(double: &[u8], number: u32, slot: usize) -> bool
    requires { slot < SLOTS }
    ensures { MatchBool result (IsGoodPage number (piece PAGE slot double.now)) (IsGoodPage number (piece PAGE slot double.now) → ⊥) }
{
    match number_of_copy(double, slot) {
        Some(other) => other == number,
        None => false,
    }
}

/// The newest good copy of a page among the copies that were read, if there is one.
pub fn newest_copy(double: &[u8], number: u32) -> Option<&[u8]>
    ensures some { IfSome result (λ copy. IsNewestCopy double.now number copy.now) }
    ensures none { IfNone result ((copy : List ℕ) → IsCopyIn double.now number copy → ⊥) }
{
    for slot in 0..SLOTS {
        if is_copy_of(double, number, slot) {
            return Some(copy_at(double, newest_slot(double, number, slot)));
        }
    }
    None
}
