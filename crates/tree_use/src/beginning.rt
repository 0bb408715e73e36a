//! Whether the pages hold a tree that was just made: a root in use that is an empty leaf.
//! `TreeUse::begin` alone asks, before the index has a user; no page is changed.

ghost use Rattle.std.specs.Prelude.{◌≡◌, ◌<◌, ◌≤◌, ℕ, false, [], length, IsTrue, IfOk, IfErr, MatchBool};
ghost use Rattle.page_format.specs.Shape.{AreZeros};
ghost use Rattle.mtr.specs.Seen.{IsShown};
ghost use Rattle.mtr.specs.Calls.{GivesUp};
ghost use Rattle.space_map.specs.Map.{bit_in};
ghost use Rattle.btree.specs.Sound.{tree_pairs};
ghost use Rattle.btree.specs.Reads.{IsIdle, IsHindered};
ghost use Rattle.tree_use.specs.Stored.{HasWidths, IsAtRest};
ghost use Rattle.tree_use.specs.Beginning.{IsEmptyLeaf, AreReserved, IsCountedRoot, HoldsNewTree};

use crate::reading::sure;
use btree::Tree;
use mtr::{Mtr, Resident};
use page_format::layout::{
    COUNT, HIGH_LEN, INDEX, KIND, LEAF, LEVEL, LOW, LOW_LEN, NO_FENCE, RIGHT, WIDTH,
};
use store_api::{MOST_PAGES, Visit};
use stored_pages::layout::{BITS, COVERED, FIRST_MAP_PAGE, FIXED_PAGES, PAGE, PAGE_COUNT};
use stored_pages::{read_u16, read_u32};

/// Whether a page is marked as used in the first page of the map.
fn is_used(map: &[u8; PAGE], page: u32) -> bool
    requires { page < COVERED }
    ensures { MatchBool result (bit_in map.now page ≡ 1) (bit_in map.now page ≡ 1 → ⊥) }
{
    let byte = map[BITS + (page / 8) as usize];
    (byte >> (page % 8)) & 1 == 1
}

/// Whether the first pages are marked as used.
fn are_reserved(map: &[u8; PAGE]) -> bool
    ensures { MatchBool result (AreReserved map.now) (AreReserved map.now → ⊥) }
{
    for page in 0..FIXED_PAGES {
        if !is_used(map, page) {
            return false;
        }
    }
    true
}

/// Whether the root is a page of the file that is in use.
fn is_counted(root: u32, header: &[u8; PAGE], map: &[u8; PAGE]) -> bool
    ensures { MatchBool result (IsCountedRoot root header.now map.now) (IsCountedRoot root header.now map.now → ⊥) }
{
    let count = read_u32(header, PAGE_COUNT);
    if root < FIXED_PAGES || root >= COVERED || root >= count || count > MOST_PAGES {
        return false;
    }
    are_reserved(map) && is_used(map, root)
}

fn are_zeros(bytes: &[u8]) -> bool
    ensures { MatchBool result (AreZeros bytes.now) (AreZeros bytes.now → ⊥) }
{
    bytes.iter().all(|byte| *byte == 0)
}

/// Whether a page is an empty leaf of the tree's index, without fences and neighbour.
fn is_empty_leaf(tree: Tree, bytes: &[u8]) -> bool
    requires size { length bytes.now ≡ PAGE }
    requires widths { HasWidths tree }
    ensures { MatchBool result (IsEmptyLeaf tree bytes.now) (IsEmptyLeaf tree bytes.now → ⊥) }
{
    if bytes[KIND] != LEAF
        || bytes[LEVEL] != 0
        || bytes[LOW_LEN] != NO_FENCE
        || bytes[HIGH_LEN] != NO_FENCE
    {
        return false;
    }
    if read_u16(bytes, COUNT) != 0 || read_u32(bytes, RIGHT) != 0 {
        return false;
    }
    if read_u32(bytes, INDEX) != tree.index {
        return false;
    }
    if read_u16(bytes, WIDTH) != u16::from(tree.key_len) + tree.value_len {
        return false;
    }
    let (_, behind) = bytes.split_at(LOW);
    are_zeros(behind)
}

/// A copy of a page.
fn copied<M: Mtr>(m: &mut M, page: u32) -> Result<[u8; PAGE], Visit>
    requires idle { IsIdle (M.state m.old) }
    ensures shown { IfOk result (λ bytes. IsTrue (M.state m.new).told → IsShown ((M.state m.old).standing page) bytes) }
    ensures reads { GivesUp (M.state m.old) (M.state m.new) }
    ensures reason { IfErr result (IsHindered (M.state m.old) (M.state m.new)) }
{
    let mut copy = [0; PAGE];
    copy.copy_from_slice(m.bytes(page)?);
    m.give_up();
    Ok(copy)
}

/// Whether the pages hold a tree that was just made: then it stands on them and has no pairs.
pub fn is_new_tree<M: Resident>(m: &mut M, tree: Tree) -> bool
    requires widths { HasWidths tree }
    requires told { IsTrue (M.state m.old).told }
    requires idle { IsIdle (M.state m.old) }
    requires spare { PAGE ≤ (M.state m.old).whole }
    ensures rest { IsTrue result → IsAtRest tree (M.state m.new) }
    ensures none { IsTrue result → tree_pairs tree (M.state m.new).standing ≡ [] }
    ensures other { result ≡ false → HoldsNewTree tree (M.state m.old).standing → ⊥ }
{
    let header = sure(copied(m, 0));
    let map = sure(copied(m, FIRST_MAP_PAGE));
    let root = sure(copied(m, tree.root));
    is_counted(tree.root, &header, &map) && is_empty_leaf(tree, &root)
}
