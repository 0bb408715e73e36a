//! Room for one record more in the leaf of a key: the full pages at the end of its way are split, from the top one down, so that
//! each has a parent with room. Where all of the way is full, the root is raised first. Who calls commits or gives up.

ghost use Rattle.std.specs.Prelude.{◌≡◌, ◌+◌, ◌*◌, ◌<◌, ◌≤◌, length, IsTrue, IfOk, IfErr, Some, None};
ghost use Rattle.stored_pages.specs.declared.layout.TheConstants.{PAGE};
ghost use Rattle.page_format.specs.declared.layout.TheConstants.{FENCE, RECORDS};
ghost use Rattle.mtr.specs.declared.store.TheConstants.{MOST_VISITED};
ghost use Rattle.mtr.specs.Seen.{visit, is_in, claim};
ghost use Rattle.mtr.specs.Calls.{Asks};
ghost use Rattle.space_map.specs.Taking.{map_pages};
ghost use Rattle.btree_split.specs.Placed.{IsPlacedTree};
ghost use Rattle.btree_split.specs.Ways.{IsLowestRoom, needed};
ghost use Rattle.btree_grow.specs.Going.{GoesOn, IsGrowStop};
ghost use Rattle.btree_grow.specs.Grown.{StandsAbove, MakesRoom, LacksPages};

use crate::raises::raise_in;
use crate::splits::split_below;
use btree::Tree;
use btree_split::LowestRoom;
use mtr::Mtr;
use store_api::{SpaceBad, Visit};

/// What comes of making room.
#[derive(Clone, Copy)]
pub enum Room {
    /// The leaf of the key, which has room now.
    Leaf(u32),
    /// So many pages were free, and all of them were taken.
    Full(u8),
}

/// Splits the pages of a way below one that has room, which are so many, each of them full.
fn split_down<M: Mtr>(
    m: &mut M,
    tree: Tree,
    top: u32,
    full: u8,
    key: &[u8],
) -> Result<Room, SpaceBad>
    requires few { 2 * full + claim map_pages (M.state m.old).visited ≤ MOST_VISITED }
    requires some { 0 < tree.key_len }
    requires short { tree.key_len ≤ FENCE }
    requires two { RECORDS + 2 * (tree.key_len + tree.value_len) ≤ PAGE }
    requires dealt_with { IsTrue (is_in top (M.state m.old).visited) }
    requires above { IsTrue (M.state m.old).told → StandsAbove tree key.now full top (M.state m.old).seen }
    ensures goes_on { GoesOn (2 * full) (M.state m.old) (M.state m.new) }
    ensures made { IfOk result (λ room. IsTrue (M.state m.new).told
        → MakesRoom tree key.now full (M.state m.old).seen (M.state m.new).seen room) }
    ensures lacks { IfOk result (LacksPages full) }
    ensures reason { IfErr result (IsGrowStop M.state (M.state m.old) (M.state m.new)) }
{
    let mut page = top;
    for taken in 0..full {
        match split_below(m, tree, page, key) {
            Ok(half) => page = half,
            Err(SpaceBad::Full) => return Ok(Room::Full(taken)),
            Err(SpaceBad::Visit(why)) => return Err(SpaceBad::Visit(why)),
            Err(SpaceBad::NoMemory) => return Err(SpaceBad::NoMemory),
        }
    }
    Ok(Room::Leaf(page))
}

/// Raises the root, and splits the pages of a way below it, which are so many, each of them full.
fn raise_down<M: Mtr>(m: &mut M, tree: Tree, full: u8, key: &[u8]) -> Result<Room, SpaceBad>
    requires few { 2 + 2 * full + claim map_pages (M.state m.old).visited ≤ MOST_VISITED }
    requires some { 0 < tree.key_len }
    requires short { tree.key_len ≤ FENCE }
    requires two { RECORDS + 2 * (tree.key_len + tree.value_len) ≤ PAGE }
    requires inner { 0 < full }
    requires low { full ≤ 7 }
    requires tree { IsTrue (M.state m.old).told → IsPlacedTree tree (M.state m.old).seen }
    requires way { IsTrue (M.state m.old).told → IsLowestRoom tree (M.state m.old).seen key.now None full }
    ensures goes_on { GoesOn (2 + 2 * full) (M.state m.old) (M.state m.new) }
    ensures made { IfOk result (λ room. IsTrue (M.state m.new).told
        → MakesRoom tree key.now (full + 1) (M.state m.old).seen (M.state m.new).seen room) }
    ensures reason { IfErr result (IsGrowStop M.state (M.state m.old) (M.state m.new)) }
{
    match raise_in(m, tree, full) {
        Ok(()) => {}
        Err(SpaceBad::Full) => return Ok(Room::Full(0)),
        Err(SpaceBad::Visit(why)) => return Err(SpaceBad::Visit(why)),
        Err(SpaceBad::NoMemory) => return Err(SpaceBad::NoMemory),
    }
    match split_down(m, tree, tree.root, full, key)? {
        Room::Leaf(leaf) => Ok(Room::Leaf(leaf)),
        Room::Full(free) => Ok(Room::Full(free + 1)),
    }
}

/// Asks for a page.
fn ask<M: Mtr>(m: &mut M, page: u32) -> Result<(), Visit>
    requires { length (visit page (M.state m.old).visited) ≤ MOST_VISITED }
    ensures { Asks page (M.state m.old) result (M.state m.new) }
{
    m.bytes(page)?;
    Ok(())
}

/// Asks for a page that has room, and splits the pages of a way below it, which are so many, each of them full.
fn ask_down<M: Mtr>(m: &mut M, tree: Tree, top: u32, full: u8, key: &[u8]) -> Result<Room, SpaceBad>
    requires few { 1 + 2 * full + claim map_pages (M.state m.old).visited ≤ MOST_VISITED }
    requires some { 0 < tree.key_len }
    requires short { tree.key_len ≤ FENCE }
    requires two { RECORDS + 2 * (tree.key_len + tree.value_len) ≤ PAGE }
    requires tree { IsTrue (M.state m.old).told → IsPlacedTree tree (M.state m.old).seen }
    requires way { IsTrue (M.state m.old).told → IsLowestRoom tree (M.state m.old).seen key.now (Some top) full }
    ensures goes_on { GoesOn (1 + 2 * full) (M.state m.old) (M.state m.new) }
    ensures made { IfOk result (λ room. IsTrue (M.state m.new).told
        → MakesRoom tree key.now full (M.state m.old).seen (M.state m.new).seen room) }
    ensures reason { IfErr result (IsGrowStop M.state (M.state m.old) (M.state m.new)) }
{
    ask(m, top)?;
    split_down(m, tree, top, full, key)
}

/// Makes room in the leaf of a key, of whose way this is the lowest page that has room.
pub fn make_room<M: Mtr>(
    m: &mut M,
    tree: Tree,
    lowest: LowestRoom,
    key: &[u8],
) -> Result<Room, SpaceBad>
    requires few { 17 + claim map_pages (M.state m.old).visited ≤ MOST_VISITED }
    requires some { 0 < tree.key_len }
    requires short { tree.key_len ≤ FENCE }
    requires two { RECORDS + 2 * (tree.key_len + tree.value_len) ≤ PAGE }
    requires full { lowest.full ≤ 8 }
    requires inner { lowest.above ≡ None → 0 < lowest.full }
    requires low { lowest.above ≡ None → lowest.full ≤ 7 }
    requires tree { IsTrue (M.state m.old).told → IsPlacedTree tree (M.state m.old).seen }
    requires way { IsTrue (M.state m.old).told → IsLowestRoom tree (M.state m.old).seen key.now lowest.above lowest.full }
    ensures goes_on { GoesOn 17 (M.state m.old) (M.state m.new) }
    ensures made { IfOk result (λ room. IsTrue (M.state m.new).told
        → MakesRoom tree key.now (needed lowest.above lowest.full) (M.state m.old).seen (M.state m.new).seen room) }
    ensures reason { IfErr result (IsGrowStop M.state (M.state m.old) (M.state m.new)) }
{
    match lowest.above {
        Some(top) => ask_down(m, tree, top, lowest.full, key),
        None => raise_down(m, tree, lowest.full, key),
    }
}
