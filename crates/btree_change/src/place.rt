//! Where a leaf has a key, and whether it has room for one record more. The page is read where it stands.
//! `leaf_changes` looks for keys here; `btree_split` and `btree_grow` ask whether a page has room.

ghost use Rattle.std.specs.Prelude.{◌≡◌, ◌+◌, ◌*◌, ◌≤◌, length, take, map, MatchBool, OnOk, IfOk, IfErr};
ghost use Rattle.store_api.specs.declared.visits.Visit.TheVariants.{Bad};
ghost use Rattle.page_format.specs.Found.{IsFound};
ghost use Rattle.page_format.specs.Shape.{AreRising};
ghost use Rattle.page_format.specs.Words.{count_of, record_len_of, records_of};
ghost use Rattle.btree.specs.Walks.{IsReadableLeaf};
ghost use Rattle.btree_change.specs.Edits.{HasRoom, IsPlace};

use btree::{Bound, Tree, first_place, is_readable_leaf, key_at};
use page_format::Found;
use page_format::layout::{COUNT, RECORDS, WIDTH};
use std::cmp::Ordering;
use store_api::{PageRule, Visit};
use stored_pages::layout::PAGE;
use stored_pages::read_u16;

/// Where the leaf has the key: at a record, or before one.
pub fn find_in(bytes: &[u8], tree: Tree, page: u32, key: &[u8]) -> Result<Found, Visit>
    requires size { length bytes.now ≡ PAGE }
    requires key { length key.now ≡ tree.key_len }
    ensures readable { OnOk result (IsReadableLeaf tree bytes.now) }
    ensures found { IfOk result (λ found. AreRising (map (take tree.key_len) (records_of bytes.now)) → IsFound (records_of bytes.now) key.now found) }
    ensures within { IfOk result (IsPlace bytes.now) }
    ensures refused { IfErr result (λ why. (why ≡ Bad page 1) × (IsReadableLeaf tree bytes.now → ⊥)) }
{
    if !is_readable_leaf(bytes, tree) {
        return Err(Visit::Bad {
            page,
            rule: PageRule::Fields as u8,
        });
    }
    let place = first_place(bytes, tree, Bound::AtOrAbove, key);
    if place == read_u16(bytes, COUNT) {
        return Ok(Found::Before(place));
    }
    match key_at(bytes, tree, place).cmp(key) {
        Ordering::Equal => Ok(Found::At(place)),
        _ => Ok(Found::Before(place)),
    }
}

/// Whether one record more has room on the page.
pub fn has_room(bytes: &[u8]) -> bool
    requires { length bytes.now ≡ PAGE }
    ensures { MatchBool result (HasRoom bytes.now) (HasRoom bytes.now → ⊥) }
{
    let count = usize::from(read_u16(bytes, COUNT));
    RECORDS + (count + 1) * usize::from(read_u16(bytes, WIDTH)) <= PAGE
}
