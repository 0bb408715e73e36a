//! Changes of a tree on pages that are all in memory, each a mini-transaction of its own that stands when the call
//! ends. `pages` alone makes them, for the calls of `TreeUse`.

ghost use Rattle.std.specs.Prelude.{◌≡◌, true, false, length, IfOk, OnErr};
ghost use Rattle.btree.specs.Sound.{tree_pairs};
ghost use Rattle.mtr.specs.Calls.{Commits, GivesUp};
ghost use Rattle.btree_change.specs.Trees.{DoesReplace, DoesRemove};
ghost use Rattle.btree_grow.specs.Adding.{DoesAdd};
ghost use Rattle.tree_use.specs.Stored.{HasWidths, IsAtRest};

use crate::reading::sure_leaf;
use btree::Tree;
use btree_change::{remove_in, replace_in};
use btree_grow::{Outcome, insert};
use btree_merge::tidy;
use mtr::Resident;
use store_api::{NoMemory, SpaceBad};

/// Ends the mini-transaction: what was changed stands.
fn end<M: Resident>(m: &mut M, changed: bool)
    ensures stands { changed ≡ true → Commits (M.state m.old) (M.state m.new) }
    ensures dropped { changed ≡ false → GivesUp (M.state m.old) (M.state m.new) }
{
    if changed {
        m.settle();
    } else {
        m.give_up();
    }
}

/// Gives a key another value, and answers whether the key has a pair.
pub fn put_value<M: Resident>(m: &mut M, tree: Tree, key: &[u8], value: &[u8]) -> bool
    requires rest { IsAtRest tree (M.state m.old) }
    requires key { length key.now ≡ tree.key_len }
    requires value { length value.now ≡ tree.value_len }
    ensures done { DoesReplace tree key.now value.now (M.state m.old).standing (M.state m.new).standing result }
    ensures rest { IsAtRest tree (M.state m.new) }
{
    let leaf = sure_leaf(m, tree, key);
    match replace_in(m, tree, leaf, key, value) {
        Ok(found) => {
            end(m, found);
            found
        }
        Err(_) => unreachable!(),
    }
}

/// Takes the pair of a key out, and answers whether there was one.
pub fn take_pair<M: Resident>(m: &mut M, tree: Tree, key: &[u8]) -> bool
    requires rest { IsAtRest tree (M.state m.old) }
    requires key { length key.now ≡ tree.key_len }
    ensures done { DoesRemove tree key.now (M.state m.old).standing (M.state m.new).standing result }
    ensures rest { IsAtRest tree (M.state m.new) }
{
    let leaf = sure_leaf(m, tree, key);
    match remove_in(m, tree, leaf, key) {
        Ok(found) => {
            end(m, found);
            found
        }
        Err(_) => unreachable!(),
    }
}

/// Adds a pair, where the key has none. Where memory is lacking, nothing is changed.
pub fn add_pair<M: Resident>(
    m: &mut M,
    tree: Tree,
    key: &[u8],
    value: &[u8],
) -> Result<Outcome, NoMemory>
    requires rest { IsAtRest tree (M.state m.old) }
    requires widths { HasWidths tree }
    requires key { length key.now ≡ tree.key_len }
    requires value { length value.now ≡ tree.value_len }
    ensures done { IfOk result (DoesAdd tree key.now value.now (M.state m.old).standing (M.state m.new).standing) }
    ensures same { OnErr result ((M.state m.new).standing ≡ (M.state m.old).standing) }
    ensures rest { IsAtRest tree (M.state m.new) }
{
    match insert(m, tree, key, value) {
        Ok(done) => Ok(done),
        Err(SpaceBad::NoMemory) => Err(NoMemory),
        Err(SpaceBad::Full) => unreachable!(),
        Err(SpaceBad::Visit(_)) => unreachable!(),
    }
}

/// Merges the leaf of a key with one beside it, where it holds few rows and both fit into one page. Where memory is lacking,
/// nothing is changed.
pub fn tidy_leaf<M: Resident>(m: &mut M, tree: Tree, key: &[u8]) -> Result<(), NoMemory>
    requires rest { IsAtRest tree (M.state m.old) }
    requires widths { HasWidths tree }
    ensures same { tree_pairs tree (M.state m.new).standing ≡ tree_pairs tree (M.state m.old).standing }
    ensures rest { IsAtRest tree (M.state m.new) }
{
    match tidy(m, tree, key) {
        Ok(_) => Ok(()),
        Err(SpaceBad::NoMemory) => Err(NoMemory),
        Err(SpaceBad::Full) => unreachable!(),
        Err(SpaceBad::Visit(_)) => unreachable!(),
    }
}
