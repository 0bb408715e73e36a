//! The descent from the root to the leaf whose fences hold a key, a page at a time. Each page that it has read is given up,
//! so a mini-transaction that only reads deals with one page.

ghost use Rattle.std.specs.Prelude.{◌≡◌, length, IsTrue, IfOk, IfErr};
ghost use Rattle.mtr.specs.Calls.{GivesUp};
ghost use Rattle.btree.specs.Descents.{IsReadable, Leads};
ghost use Rattle.btree.specs.Reads.{IsIdle, StopsAt, IsHindered};
ghost use Rattle.btree.specs.Sound.{IsSoundTree, HoldsKey};

use crate::page::{Down, way_down};
use crate::tree::Tree;
use mtr::Mtr;
use page_format::layout::MOST_LEVELS;
use store_api::{PageRule, Visit};

/// Where a page leads for a key.
pub fn step_down<M: Mtr>(m: &mut M, tree: Tree, page: u32, key: &[u8]) -> Result<Down, Visit>
    requires { IsIdle (M.state m.old) }
    ensures leads { IfOk result (λ down. IsTrue (M.state m.new).told → Leads tree key.now ((M.state m.old).standing page) down) }
    ensures reads { GivesUp (M.state m.old) (M.state m.new) }
    ensures reason { IfErr result (StopsAt page (IsReadable tree) (M.state m.old) (M.state m.new)) }
{
    let bytes = m.bytes(page)?;
    let led = way_down(bytes, tree, page, key);
    m.give_up();
    led
}

/// The leaf whose fences hold the key.
pub fn leaf_of<M: Mtr>(m: &mut M, tree: Tree, key: &[u8]) -> Result<u32, Visit>
    requires idle { IsIdle (M.state m.old) }
    requires tree { IsTrue (M.state m.old).told → IsSoundTree tree (M.state m.old).standing }
    ensures holds { IfOk result (λ leaf. IsTrue (M.state m.new).told → HoldsKey tree (M.state m.old).standing key.now leaf) }
    ensures reads { GivesUp (M.state m.old) (M.state m.new) }
    ensures reason { IfErr result (IsHindered (M.state m.old) (M.state m.new)) }
{
    let mut page = tree.root;
    for _ in 0..MOST_LEVELS {
        match step_down(m, tree, page, key)? {
            Down::Leaf => return Ok(page),
            Down::Child(child) => page = child,
        }
    }
    Err(Visit::Bad {
        page: tree.root,
        rule: PageRule::Child as u8,
    })
}
