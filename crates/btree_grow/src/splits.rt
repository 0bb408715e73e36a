//! A page that is split under a parent that has room, on any level: a free page gets the upper half, the page keeps the lower
//! one, and the parent gets a record for the new page. Who calls commits or gives up.

ghost use Rattle.std.specs.Prelude.{◌≡◌, ◌≢◌, ℕ, suc, ◌+◌, ◌*◌, ◌<◌, ◌≤◌, [], length, drop, slice_index_or, IsTrue, IfOk, IfErr, OnOk, OnErr, if◌then◌else◌};
ghost use Rattle.std.specs.Ordering.{is_le};
ghost use Rattle.store_api.specs.declared.visits.Visit.TheVariants.{Bad};
ghost use Rattle.stored_pages.specs.declared.layout.TheConstants.{PAGE};
ghost use Rattle.page_format.specs.declared.layout.TheConstants.{FENCE, RECORDS};
ghost use Rattle.mtr.specs.declared.store.TheConstants.{MOST_VISITED};
ghost use Rattle.entries.specs.Pairs.{key_cmp};
ghost use Rattle.page_format.specs.Words.{level_of, count_of, records_of};
ghost use Rattle.mtr.specs.Seen.{is_in, claim, IsWithin};
ghost use Rattle.mtr.specs.Calls.{Puts};
ghost use Rattle.space_map.specs.Taking.{map_pages};
ghost use Rattle.law_flat_tree.specs.Pages.{child_of};
ghost use Rattle.btree.specs.declared.page.Down.TheVariants.{Child};
ghost use Rattle.btree.specs.Descents.{IsReadable, Leads};
ghost use Rattle.btree.specs.Layout.{IsLaidOut};
ghost use Rattle.btree_change.specs.Edits.{HasRoom};
ghost use Rattle.btree_split.specs.Halves.{SplitsChild};
ghost use Rattle.btree_grow.specs.Cuts.{fence_at, IsCut, IsReady};
ghost use Rattle.btree_grow.specs.Going.{GoesOn, IsHalt};
ghost use Rattle.btree_grow.specs.Grown.{StandsAbove, HasGrown};

use crate::taking::{copy_of, take_blank};
use big_endian::u32_bytes;
use btree::{Bound, Tree, child_at, first_place, is_laid_out, key_at};
use btree_change::{Edit, has_room, put_edit};
use btree_split::{lower_half, upper_half};
use mtr::Mtr;
use page_format::layout::{COUNT, LEVEL};
use store_api::{NoMemory, PageRule, SpaceBad, Visit};
use stored_pages::layout::FIELDS;
use stored_pages::read_u16;

/// A page that is to be cut: the record in the middle that the new page begins with, and the record of the parent that leads
/// to the page.
#[derive(Clone, Copy)]
pub struct Cut {
    pub parent: u32,
    pub place: u16,
    pub child: u32,
    pub middle: u16,
}

/// The record of an inner page that leads to the child for a key.
fn place_for(bytes: &[u8], tree: Tree, page: u32, key: &[u8]) -> Result<u16, Visit>
    requires { length bytes.now ≡ PAGE }
    ensures laid_out { OnOk result (IsLaidOut tree bytes.now) }
    ensures within { IfOk result (λ place. place < count_of bytes.now) }
    ensures leads { IfOk result (λ place. Leads tree key.now bytes.now
        (Child (child_of tree.key_len (slice_index_or (records_of bytes.now) place [])))) }
    ensures refused { IfErr result (λ why. (why ≡ Bad page 1) × (IsReadable tree bytes.now → level_of bytes.now ≢ 0 → ⊥)) }
{
    if !is_laid_out(bytes, tree) {
        return Err(Visit::Bad {
            page,
            rule: PageRule::Fields as u8,
        });
    }
    if bytes[LEVEL] == 0 {
        return Err(Visit::Bad {
            page,
            rule: PageRule::Fields as u8,
        });
    }
    if read_u16(bytes, COUNT) == 0 {
        return Err(Visit::Bad {
            page,
            rule: PageRule::Fields as u8,
        });
    }
    Ok(first_place(bytes, tree, Bound::Above, key).saturating_sub(1))
}

/// The record in the middle of a page without room for one more.
fn middle_of(bytes: &[u8], tree: Tree, page: u32) -> Result<u16, Visit>
    requires size { length bytes.now ≡ PAGE }
    requires short { tree.key_len ≤ FENCE }
    requires two { RECORDS + 2 * (tree.key_len + tree.value_len) ≤ PAGE }
    ensures laid_out { OnOk result (IsLaidOut tree bytes.now) }
    ensures middle { IfOk result (λ i. (0 < i) × (i < count_of bytes.now)) }
    ensures refused { IfErr result (λ why. (why ≡ Bad page 1) × (IsLaidOut tree bytes.now → (HasRoom bytes.now → ⊥) → ⊥)) }
{
    if !is_laid_out(bytes, tree) {
        return Err(Visit::Bad {
            page,
            rule: PageRule::Fields as u8,
        });
    }
    let middle = read_u16(bytes, COUNT) / 2;
    if middle == 0 {
        return Err(Visit::Bad {
            page,
            rule: PageRule::Fields as u8,
        });
    }
    Ok(middle)
}

/// Puts what an image has for a tree's page.
pub fn put_image<M: Mtr>(m: &mut M, page: u32, image: &[u8]) -> Result<(), NoMemory>
    requires size { length image.now ≡ PAGE }
    requires dealt_with { IsTrue (is_in page (M.state m.old).visited) }
    requires within { IsWithin page (M.state m.old) }
    ensures put { OnOk result (Puts page 20 (drop 20 image.now) (M.state m.old) (M.state m.new)) }
    ensures refused { OnErr result (M.state m.new ≡ M.state m.old) }
{
    let (_, fields) = image.split_at(FIELDS);
    m.put(page, FIELDS as u16, fields)
}

/// Puts both halves of a page, and the record of the new page behind that of the page.
fn put_split<M: Mtr>(
    m: &mut M,
    tree: Tree,
    cut: Cut,
    number: u32,
    above: &[u8],
    bytes: &[u8],
) -> Result<(), NoMemory>
    requires above_size { length above.now ≡ PAGE }
    requires size { length bytes.now ≡ PAGE }
    requires above_laid_out { IsLaidOut tree above.now }
    requires inner { level_of above.now ≢ 0 }
    requires place { cut.place < count_of above.now }
    requires room { HasRoom above.now }
    requires laid_out { IsLaidOut tree bytes.now }
    requires middle { (0 < cut.middle) × (cut.middle < count_of bytes.now) }
    requires some { 0 < tree.key_len }
    requires short { tree.key_len ≤ FENCE }
    requires parent_dealt_with { IsTrue (is_in cut.parent (M.state m.old).visited) }
    requires child_dealt_with { IsTrue (is_in cut.child (M.state m.old).visited) }
    requires number_dealt_with { IsTrue (is_in number (M.state m.old).visited) }
    requires cut { IsTrue (M.state m.old).told → IsCut cut number above.now bytes.now (M.state m.old).seen }
    ensures goes_on { GoesOn 0 (M.state m.old) (M.state m.new) }
    ensures splits { OnOk result (IsTrue (M.state m.new).told
        → SplitsChild tree (fence_at tree bytes.now cut.middle) cut.middle cut.place cut.parent cut.child number
        (M.state m.old).seen (M.state m.new).seen) }
{
    let fence = key_at(bytes, tree, cut.middle);
    let lower = lower_half(bytes, cut.middle, fence, number);
    let upper = upper_half(bytes, cut.middle, fence, number);
    let entry = Edit::insertion(above, cut.place + 1, fence, &u32_bytes(number));
    put_image(m, number, &upper)?;
    put_image(m, cut.child, &lower)?;
    put_edit(m, cut.parent, &entry)
}

/// The half that a key belongs to.
fn half_for(key: &[u8], fence: &[u8], lower: u32, upper: u32) -> u32
    ensures { result ≡ (if is_le (key_cmp fence.now key.now) then upper else lower) }
{
    if fence.cmp(key).is_le() { upper } else { lower }
}

/// Splits a page, and answers which half holds the key.
fn split_page<M: Mtr>(
    m: &mut M,
    tree: Tree,
    cut: Cut,
    above: &[u8],
    bytes: &[u8],
    key: &[u8],
) -> Result<u32, SpaceBad>
    requires few { 1 + claim map_pages (M.state m.old).visited ≤ MOST_VISITED }
    requires above_size { length above.now ≡ PAGE }
    requires size { length bytes.now ≡ PAGE }
    requires above_laid_out { IsLaidOut tree above.now }
    requires inner { level_of above.now ≢ 0 }
    requires place { cut.place < count_of above.now }
    requires room { HasRoom above.now }
    requires laid_out { IsLaidOut tree bytes.now }
    requires middle { (0 < cut.middle) × (cut.middle < count_of bytes.now) }
    requires some { 0 < tree.key_len }
    requires short { tree.key_len ≤ FENCE }
    requires parent_dealt_with { IsTrue (is_in cut.parent (M.state m.old).visited) }
    requires child_dealt_with { IsTrue (is_in cut.child (M.state m.old).visited) }
    requires ready { IsTrue (M.state m.old).told → (n : ℕ) × IsReady tree key.now n cut above.now bytes.now (M.state m.old).seen }
    ensures goes_on { GoesOn 1 (M.state m.old) (M.state m.new) }
    ensures dealt_with { IfOk result (λ half. IsTrue (is_in half (M.state m.new).visited)) }
    ensures split { IfOk result (λ half. IsTrue (M.state m.new).told → (n : ℕ) → IsReady tree key.now n cut above.now bytes.now (M.state m.old).seen
        → HasGrown tree key.now 1 n half (M.state m.old).seen (M.state m.new).seen) }
    ensures reason { IfErr result (IsHalt M.state (M.state m.old) (M.state m.new)) }
{
    let number = take_blank(m)?;
    put_split(m, tree, cut, number, above, bytes)?;
    let fence = key_at(bytes, tree, cut.middle);
    Ok(half_for(key, fence, cut.child, number))
}

/// Splits the next page on the way of a key, below one that has room, and answers which half holds the key.
pub fn split_below<M: Mtr>(m: &mut M, tree: Tree, parent: u32, key: &[u8]) -> Result<u32, SpaceBad>
    requires few { 2 + claim map_pages (M.state m.old).visited ≤ MOST_VISITED }
    requires some { 0 < tree.key_len }
    requires short { tree.key_len ≤ FENCE }
    requires two { RECORDS + 2 * (tree.key_len + tree.value_len) ≤ PAGE }
    requires dealt_with { IsTrue (is_in parent (M.state m.old).visited) }
    requires above { IsTrue (M.state m.old).told → (n : ℕ) × StandsAbove tree key.now (suc n) parent (M.state m.old).seen }
    ensures goes_on { GoesOn 2 (M.state m.old) (M.state m.new) }
    ensures dealt_with { IfOk result (λ half. IsTrue (is_in half (M.state m.new).visited)) }
    ensures split { IfOk result (λ half. IsTrue (M.state m.new).told → (n : ℕ) → StandsAbove tree key.now (suc n) parent (M.state m.old).seen
        → HasGrown tree key.now 1 n half (M.state m.old).seen (M.state m.new).seen) }
    ensures reason { IfErr result (IsHalt M.state (M.state m.old) (M.state m.new)) }
{
    let above = copy_of(m, parent)?;
    let place = place_for(&above, tree, parent, key)?;
    if !has_room(&above) {
        return Err(SpaceBad::Visit(Visit::Bad {
            page: parent,
            rule: PageRule::Fields as u8,
        }));
    }
    let child = child_at(&above, tree, place);
    let bytes = copy_of(m, child)?;
    let middle = middle_of(&bytes, tree, child)?;
    let cut = Cut {
        parent,
        place,
        child,
        middle,
    };
    split_page(m, tree, cut, &above, &bytes, key)
}
