//! One leaf, read where it stands: the first record whose key passes, the first record of all, and a row of it.
//! Nothing here asks for a page.

ghost use Rattle.std.specs.Prelude.{◌≡◌, ◌<◌, ◌≤◌, length, IfOk, IfErr, OnOk, OnErr, MatchBool, Some, vec_capacity};
ghost use Rattle.std.specs.List.{slice_get};
ghost use Rattle.store_api.specs.declared.visits.Visit.TheVariants.{Bad};
ghost use Rattle.stored_pages.specs.declared.layout.TheConstants.{PAGE};
ghost use Rattle.entries.specs.Calls.{HasKey};
ghost use Rattle.law_flat_tree.specs.Pages.{leaf_pairs};
ghost use Rattle.btree.specs.Walks.{IsReadableLeaf, HasRow, Meets, Begins};

use crate::page::{first_place, is_laid_out, key_at, record_at};
use crate::tree::{Bound, Tree};
use page_format::layout::{COUNT, LEVEL, RIGHT};
use store_api::{PageRule, Visit};
use stored_pages::{read_u16, read_u32};

/// What a leaf has for a search: the place of a record, or the leaf to the right.
pub enum Met {
    Here(u16),
    Beyond(u32),
}

/// Where a record of a leaf stands.
#[derive(Clone, Copy)]
pub struct Spot {
    pub page: u32,
    pub place: u16,
}

/// Whether the page can be read as a leaf of the tree.
pub fn is_readable_leaf(bytes: &[u8], tree: Tree) -> bool
    requires { length bytes.now ≡ PAGE }
    ensures { MatchBool result (IsReadableLeaf tree bytes.now) (IsReadableLeaf tree bytes.now → ⊥) }
{
    if !is_laid_out(bytes, tree) {
        return false;
    }
    bytes[LEVEL] == 0
}

/// The first record whose key passes.
pub fn meet(bytes: &[u8], tree: Tree, page: u32, bound: Bound, key: &[u8]) -> Result<Met, Visit>
    requires { length bytes.now ≡ PAGE }
    ensures meets { IfOk result (Meets tree bound key.now bytes.now) }
    ensures refused { IfErr result (λ why. (why ≡ Bad page 1) × (IsReadableLeaf tree bytes.now → ⊥)) }
{
    if !is_readable_leaf(bytes, tree) {
        return Err(Visit::Bad {
            page,
            rule: PageRule::Fields as u8,
        });
    }
    let place = first_place(bytes, tree, bound, key);
    if place < read_u16(bytes, COUNT) {
        Ok(Met::Here(place))
    } else {
        Ok(Met::Beyond(read_u32(bytes, RIGHT)))
    }
}

/// The first record of the leaf.
pub fn begin(bytes: &[u8], tree: Tree, page: u32) -> Result<Met, Visit>
    requires { length bytes.now ≡ PAGE }
    ensures begins { IfOk result (Begins bytes.now) }
    ensures refused { IfErr result (λ why. (why ≡ Bad page 1) × (IsReadableLeaf tree bytes.now → ⊥)) }
{
    if !is_readable_leaf(bytes, tree) {
        return Err(Visit::Bad {
            page,
            rule: PageRule::Fields as u8,
        });
    }
    if read_u16(bytes, COUNT) == 0 {
        Ok(Met::Beyond(read_u32(bytes, RIGHT)))
    } else {
        Ok(Met::Here(0))
    }
}

/// Puts these bytes in place of those that are there.
fn copy_into(bytes: &[u8], into: &mut Vec<u8>)
    requires { length bytes.now ≤ vec_capacity into.old }
    ensures items { into.new.items ≡ bytes.now }
    ensures room { vec_capacity into.old ≤ vec_capacity into.new }
{
    into.clear();
    let _ = into.extend_from_slice(bytes);
}

/// Puts the key and the value of a record into `key` and `value`. They stay where the page is refused.
pub fn copy_row(
    bytes: &[u8],
    tree: Tree,
    spot: Spot,
    key: &mut Vec<u8>,
    value: &mut Vec<u8>,
) -> Result<(), Visit>
    requires size { length bytes.now ≡ PAGE }
    requires key { tree.key_len ≤ vec_capacity key.old }
    requires value { tree.value_len ≤ vec_capacity value.old }
    ensures row { OnOk result (slice_get (leaf_pairs tree.key_len bytes.now) spot.place ≡ Some (key.new.items, value.new.items)) }
    ensures refused { IfErr result (λ why. (why ≡ Bad spot.page 1) × (HasRow tree spot.place bytes.now → ⊥)) }
    ensures key { OnErr result (key.new.items ≡ key.old.items) }
    ensures value { OnErr result (value.new.items ≡ value.old.items) }
    ensures key_room { vec_capacity key.old ≤ vec_capacity key.new }
    ensures value_room { vec_capacity value.old ≤ vec_capacity value.new }
{
    let page = spot.page;
    if !is_readable_leaf(bytes, tree) {
        return Err(Visit::Bad {
            page,
            rule: PageRule::Fields as u8,
        });
    }
    if spot.place >= read_u16(bytes, COUNT) {
        return Err(Visit::Bad {
            page,
            rule: PageRule::Fields as u8,
        });
    }
    let (front, back) = record_at(bytes, spot.place).split_at(usize::from(tree.key_len));
    copy_into(front, key);
    copy_into(back, value);
    Ok(())
}

/// Puts the key of a record into `key`. It stays where the page is refused.
pub fn copy_key(bytes: &[u8], tree: Tree, spot: Spot, key: &mut Vec<u8>) -> Result<(), Visit>
    requires size { length bytes.now ≡ PAGE }
    requires key { tree.key_len ≤ vec_capacity key.old }
    ensures key { OnOk result (HasKey key.new.items (slice_get (leaf_pairs tree.key_len bytes.now) spot.place)) }
    ensures refused { IfErr result (λ why. (why ≡ Bad spot.page 1) × (HasRow tree spot.place bytes.now → ⊥)) }
    ensures kept { OnErr result (key.new.items ≡ key.old.items) }
    ensures room { vec_capacity key.old ≤ vec_capacity key.new }
{
    let page = spot.page;
    if !is_readable_leaf(bytes, tree) {
        return Err(Visit::Bad {
            page,
            rule: PageRule::Fields as u8,
        });
    }
    if spot.place >= read_u16(bytes, COUNT) {
        return Err(Visit::Bad {
            page,
            rule: PageRule::Fields as u8,
        });
    }
    copy_into(key_at(bytes, tree, spot.place), key);
    Ok(())
}
