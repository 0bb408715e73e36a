//! Whether bytes have the shape of a page: the values of the fields, and the order of the records and fences.
//! Each test answers true exactly where the fact in its contract holds.

ghost use Rattle.std.specs.Prelude.{◌≡◌, ◌+◌, ◌*◌, ◌≤◌, ◌<◌, length, take, drop, slice_index, ◌==◌, if◌then◌else◌, MatchBool, IsTrue};
ghost use Rattle.page_format.specs.Words.{kind_of, level_of, count_of, record_len_of, records_of, pieces};
ghost use Rattle.page_format.specs.Shape.{AreZeros, IsFence, HasTreeFields, HasPlainFields, HasFields, AreRising, IsOrdered, HasTreeOrder, HasOrder, fence_width, is_tree};

use crate::behind::behind;
use crate::fences::{begins_inside, do_fences_rise, ends_inside};
use crate::layout::{
    COUNT, FENCE, FENCES_END, HIGH, HIGH_LEN, INNER, KIND, LEAF, LEVEL, LOW, LOW_LEN, MOST_LEVELS,
    NO_FENCE, RECORDS, WIDTH,
};
use std::cmp::Ordering;
use stored_pages::layout::PAGE;
use stored_pages::read_u16;

fn are_zeros(bytes: &[u8]) -> bool
    ensures { MatchBool result (AreZeros bytes.now) (AreZeros bytes.now → ⊥) }
{
    bytes.iter().all(|byte| *byte == 0)
}

fn is_fence(len: u8, bytes: &[u8]) -> bool
    requires { length bytes.now ≡ FENCE }
    ensures { MatchBool result (IsFence len bytes.now) (IsFence len bytes.now → ⊥) }
{
    let width = if len == NO_FENCE { 0 } else { usize::from(len) };
    width <= FENCE && are_zeros(behind(bytes, width))
}

fn tree_kind(level: u8) -> u8
    ensures { result ≡ (if level == 0 then LEAF else INNER) }
{
    if level == 0 { LEAF } else { INNER }
}

fn has_tree_fields(bytes: &[u8]) -> bool
    requires { length bytes.now ≡ PAGE }
    ensures { MatchBool result (HasTreeFields bytes.now) (HasTreeFields bytes.now → ⊥) }
{
    let width = usize::from(read_u16(bytes, WIDTH));
    let end = RECORDS + usize::from(read_u16(bytes, COUNT)) * width;
    if bytes[KIND] != tree_kind(bytes[LEVEL]) {
        return false;
    }
    if bytes[LEVEL] >= MOST_LEVELS {
        return false;
    }
    if width == 0 {
        return false;
    }
    if end > PAGE {
        return false;
    }
    if !is_fence(bytes[LOW_LEN], &bytes[LOW..HIGH]) {
        return false;
    }
    if !is_fence(bytes[HIGH_LEN], &bytes[HIGH..FENCES_END]) {
        return false;
    }
    if !are_zeros(&bytes[FENCES_END..RECORDS]) {
        return false;
    }
    are_zeros(behind(bytes, end))
}

fn has_plain_fields(bytes: &[u8]) -> bool
    requires { length bytes.now ≡ PAGE }
    ensures { MatchBool result (HasPlainFields bytes.now) (HasPlainFields bytes.now → ⊥) }
{
    matches!(bytes[KIND], 1 | 2 | 5 | 6 | 7) && are_zeros(&bytes[LEVEL..WIDTH])
}

pub fn has_fields(bytes: &[u8]) -> bool
    requires { length bytes.now ≡ PAGE }
    ensures { MatchBool result (HasFields bytes.now) (HasFields bytes.now → ⊥) }
{
    if is_tree_kind(bytes[KIND]) {
        has_tree_fields(bytes)
    } else {
        has_plain_fields(bytes)
    }
}

/// Whether a page of this kind has records.
pub fn is_tree_kind(kind: u8) -> bool
    ensures { result ≡ is_tree kind }
{
    kind == LEAF || kind == INNER
}

/// Whether records of one width rise.
fn are_rising(count: u16, width: usize, records: &[u8]) -> bool
    requires width { 0 < width }
    requires room { count * width ≤ length records.now }
    ensures { MatchBool result (AreRising (pieces width count records.now)) (AreRising (pieces width count records.now) → ⊥) }
{
    let mut rest = records;
    for _ in 1..count {
        let (first, others) = rest.split_at(width);
        match first.cmp(&others[..width]) {
            Ordering::Less => rest = others,
            _ => return false,
        }
    }
    true
}

/// Whether the records of a tree page rise, between fences that rise.
fn has_tree_order(bytes: &[u8]) -> bool
    requires size { length bytes.now ≡ PAGE }
    requires fields { HasTreeFields bytes.now }
    ensures { MatchBool result (HasTreeOrder bytes.now) (HasTreeOrder bytes.now → ⊥) }
{
    let width = usize::from(read_u16(bytes, WIDTH));
    if !are_rising(read_u16(bytes, COUNT), width, behind(bytes, RECORDS)) {
        return false;
    }
    if !do_fences_rise(bytes) {
        return false;
    }
    if !begins_inside(bytes) {
        return false;
    }
    ends_inside(bytes)
}

pub fn has_order(bytes: &[u8]) -> bool
    requires size { length bytes.now ≡ PAGE }
    requires fields { HasFields bytes.now }
    ensures { MatchBool result (HasOrder bytes.now) (HasOrder bytes.now → ⊥) }
{
    if is_tree_kind(bytes[KIND]) {
        has_tree_order(bytes)
    } else {
        true
    }
}
