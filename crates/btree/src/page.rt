//! One page of a tree, read where it stands: whether it is laid out as the tree's pages are, and the place of a key among
//! its records, by halves. Nothing here asks for a page.

ghost use Rattle.std.specs.Prelude.{◌≡◌, ◌≢◌, ◌+◌, ◌*◌, ◌<◌, ◌≤◌, [], length, take, map, slice_index_or, MatchBool, IfOk, IfErr};
ghost use Rattle.store_api.specs.declared.visits.Visit.TheVariants.{Bad};
ghost use Rattle.page_format.specs.Words.{level_of, count_of, record_len_of, records_of};
ghost use Rattle.stored_pages.specs.Words.{u16_at};
ghost use Rattle.page_format.specs.Shape.{AreRising};
ghost use Rattle.law_flat_tree.specs.Pages.{child_of};
ghost use Rattle.btree.specs.Layout.{IsLaidOut};
ghost use Rattle.btree.specs.Descents.{IsReadable, Leads};
ghost use Rattle.btree.specs.Places.{passes, record_passes, StartsAt};

use crate::tree::{Bound, Tree};
use big_endian::u32_at;
use page_format::layout::{CHILD, COUNT, LEVEL, RECORDS, WIDTH};
use store_api::{PageRule, Visit};
use stored_pages::layout::PAGE;
use stored_pages::read_u16;

/// Whether the page's records are as long as those of the tree on the page's level, and lie within the page.
pub fn is_laid_out(bytes: &[u8], tree: Tree) -> bool
    requires { length bytes.now ≡ PAGE }
    ensures { MatchBool result (IsLaidOut tree bytes.now) (IsLaidOut tree bytes.now → ⊥) }
{
    let width = usize::from(read_u16(bytes, WIDTH));
    let behind_key = if bytes[LEVEL] == 0 {
        usize::from(tree.value_len)
    } else {
        CHILD
    };
    let end = RECORDS + usize::from(read_u16(bytes, COUNT)) * width;
    if width != usize::from(tree.key_len) + behind_key {
        return false;
    }
    end <= PAGE
}

/// The record of that number.
pub fn record_at(bytes: &[u8], i: u16) -> &[u8]
    requires size { length bytes.now ≡ PAGE }
    requires inside { RECORDS + count_of bytes.now * record_len_of bytes.now ≤ PAGE }
    requires place { i < count_of bytes.now }
    ensures value { result.now ≡ slice_index_or (records_of bytes.now) i [] }
    ensures width { length result.now ≡ record_len_of bytes.now }
{
    let width = usize::from(read_u16(bytes, WIDTH));
    let at = RECORDS + usize::from(i) * width;
    bytes.split_at(at).1.split_at(width).0
}

/// The key of a record, its first bytes.
pub fn key_at(bytes: &[u8], tree: Tree, i: u16) -> &[u8]
    requires size { length bytes.now ≡ PAGE }
    requires laid_out { IsLaidOut tree bytes.now }
    requires place { i < count_of bytes.now }
    ensures { result.now ≡ take tree.key_len (slice_index_or (records_of bytes.now) i []) }
{
    record_at(bytes, i).split_at(usize::from(tree.key_len)).0
}

/// Whether a key passes in a search.
fn passes(bound: Bound, key: &[u8], other: &[u8]) -> bool
    ensures { result ≡ passes bound key.now other.now }
{
    let order = key.cmp(other);
    match bound {
        Bound::AtOrAbove => order.is_le(),
        Bound::Above => order.is_lt(),
    }
}

/// The place of the first record whose key passes, or the end. It halves the records in question each time.
pub fn first_place(bytes: &[u8], tree: Tree, bound: Bound, key: &[u8]) -> u16
    requires size { length bytes.now ≡ PAGE }
    requires laid_out { IsLaidOut tree bytes.now }
    ensures within { result ≤ count_of bytes.now }
    ensures place { AreRising (map (take tree.key_len) (records_of bytes.now))
        → StartsAt (record_passes tree.key_len bound key.now) (records_of bytes.now) result }
{
    let mut low = 0;
    let mut high = read_u16(bytes, COUNT);
    while low < high {
        let middle = low + (high - low) / 2;
        if passes(bound, key, key_at(bytes, tree, middle)) {
            high = middle;
        } else {
            low = middle + 1;
        }
    }
    low
}

/// Where a page leads.
pub enum Down {
    Leaf,
    Child(u32),
}

/// The number of a record's child, behind its key.
pub fn child_at(bytes: &[u8], tree: Tree, i: u16) -> u32
    requires size { length bytes.now ≡ PAGE }
    requires laid_out { IsLaidOut tree bytes.now }
    requires inner { level_of bytes.now ≢ 0 }
    requires place { i < count_of bytes.now }
    ensures { result ≡ child_of tree.key_len (slice_index_or (records_of bytes.now) i []) }
{
    let (_, child) = record_at(bytes, i).split_at(usize::from(tree.key_len));
    u32_at(child, 0)
}

/// Where the page leads for a key. It is refused where it can't be read as a page of the tree.
pub fn way_down(bytes: &[u8], tree: Tree, page: u32, key: &[u8]) -> Result<Down, Visit>
    requires { length bytes.now ≡ PAGE }
    ensures leads { IfOk result (Leads tree key.now bytes.now) }
    ensures refused { IfErr result (λ why. (why ≡ Bad page 1) × (IsReadable tree bytes.now → ⊥)) }
{
    if !is_laid_out(bytes, tree) {
        return Err(Visit::Bad {
            page,
            rule: PageRule::Fields as u8,
        });
    }
    if bytes[LEVEL] == 0 {
        return Ok(Down::Leaf);
    }
    if read_u16(bytes, COUNT) == 0 {
        return Err(Visit::Bad {
            page,
            rule: PageRule::Fields as u8,
        });
    }
    let place = first_place(bytes, tree, Bound::Above, key).saturating_sub(1);
    Ok(Down::Child(child_at(bytes, tree, place)))
}
