//! A root gets a level below it: a free page gets what the root had, and the root leads to that page. Who calls commits or
//! gives up.

ghost use Rattle.std.specs.Prelude.{◌≡◌, ℕ, suc, ◌+◌, ◌<◌, ◌≤◌, List, length, IsTrue, IfErr, OnOk, None};
ghost use Rattle.stored_pages.specs.declared.layout.TheConstants.{PAGE};
ghost use Rattle.page_format.specs.declared.layout.TheConstants.{FENCE};
ghost use Rattle.mtr.specs.declared.store.TheConstants.{MOST_VISITED};
ghost use Rattle.page_format.specs.Words.{level_of};
ghost use Rattle.mtr.specs.Seen.{is_in, claim};
ghost use Rattle.space_map.specs.Taking.{map_pages};
ghost use Rattle.btree_split.specs.Placed.{IsPlacedTree};
ghost use Rattle.btree_split.specs.Ways.{IsLowestRoom};
ghost use Rattle.btree_grow.specs.Raised.{RaisesTree};
ghost use Rattle.btree_grow.specs.Going.{GoesOn, IsHalt};
ghost use Rattle.btree_grow.specs.Grown.{HasGrown};
ghost use Rattle.btree_grow.specs.Raising.{IsRaiseReady};

use crate::raised_root;
use crate::splits::put_image;
use crate::taking::{copy_of, take_blank};
use btree::Tree;
use mtr::Mtr;
use store_api::{NoMemory, SpaceBad};

/// Puts what the root had on another page, and a root that leads to that page.
fn put_raised<M: Mtr>(
    m: &mut M,
    tree: Tree,
    number: u32,
    bytes: &[u8],
    level: u8,
) -> Result<(), NoMemory>
    requires size { length bytes.now ≡ PAGE }
    requires short { tree.key_len ≤ FENCE }
    requires inner { 0 < level }
    requires low { level ≤ 7 }
    requires root_dealt_with { IsTrue (is_in tree.root (M.state m.old).visited) }
    requires number_dealt_with { IsTrue (is_in number (M.state m.old).visited) }
    requires ready { IsTrue (M.state m.old).told → IsRaiseReady tree.root number level bytes.now (M.state m.old).seen }
    ensures goes_on { GoesOn 0 (M.state m.old) (M.state m.new) }
    ensures raises { OnOk result (IsTrue (M.state m.new).told → RaisesTree tree number (M.state m.old).seen (M.state m.new).seen) }
{
    let root = raised_root(bytes, tree.key_len, number, level);
    put_image(m, number, bytes)?;
    put_image(m, tree.root, &root)?;
    Ok(())
}

/// Moves what the root has to a free page, which the root, then on that level, leads to from then on.
pub fn raise_in<M: Mtr>(m: &mut M, tree: Tree, level: u8) -> Result<(), SpaceBad>
    requires few { 2 + claim map_pages (M.state m.old).visited ≤ MOST_VISITED }
    requires short { tree.key_len ≤ FENCE }
    requires inner { 0 < level }
    requires low { level ≤ 7 }
    requires tree { IsTrue (M.state m.old).told → IsPlacedTree tree (M.state m.old).seen }
    requires level { IsTrue (M.state m.old).told → level ≡ suc (level_of ((M.state m.old).seen tree.root)) }
    ensures goes_on { GoesOn 2 (M.state m.old) (M.state m.new) }
    ensures dealt_with { OnOk result (IsTrue (is_in tree.root (M.state m.new).visited)) }
    ensures raised { OnOk result (IsTrue (M.state m.new).told → (key : List ℕ) (full : ℕ)
        → IsLowestRoom tree (M.state m.old).seen key None full
        → HasGrown tree key 1 full tree.root (M.state m.old).seen (M.state m.new).seen) }
    ensures reason { IfErr result (IsHalt M.state (M.state m.old) (M.state m.new)) }
{
    let bytes = copy_of(m, tree.root)?;
    let number = take_blank(m)?;
    put_raised(m, tree, number, &bytes, level)?;
    Ok(())
}
