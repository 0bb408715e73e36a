//! The page above the leaf of a key, by the descent that ends at that leaf. Each page that was read is given up.
//! `tidy` alone asks, before it merges.

ghost use Rattle.std.specs.Prelude.{◌≡◌, IsTrue, IfOk, IfErr};
ghost use Rattle.mtr.specs.Calls.{GivesUp};
ghost use Rattle.btree.specs.Reads.{IsIdle, IsHindered};
ghost use Rattle.btree.specs.Sound.{IsSoundTree};
ghost use Rattle.btree_merge.specs.Parents.{IsParentFor};

use btree::{Down, Tree, step_down};
use mtr::Mtr;
use page_format::layout::MOST_LEVELS;
use store_api::{PageRule, Visit};

/// The page above the leaf of the key, if the root isn't that leaf.
pub fn parent_of<M: Mtr>(m: &mut M, tree: Tree, key: &[u8]) -> Result<Option<u32>, Visit>
    requires idle { IsIdle (M.state m.old) }
    requires tree { IsTrue (M.state m.old).told → IsSoundTree tree (M.state m.old).standing }
    ensures parent { IfOk result (λ parent. IsTrue (M.state m.new).told → IsParentFor tree (M.state m.old).standing key.now parent) }
    ensures reads { GivesUp (M.state m.old) (M.state m.new) }
    ensures reason { IfErr result (IsHindered (M.state m.old) (M.state m.new)) }
{
    let mut parent = None;
    let mut page = tree.root;
    for _ in 0..MOST_LEVELS {
        match step_down(m, tree, page, key)? {
            Down::Leaf => return Ok(parent),
            Down::Child(child) => {
                parent = Some(page);
                page = child;
            }
        }
    }
    Err(Visit::Bad {
        page: tree.root,
        rule: PageRule::Child as u8,
    })
}
