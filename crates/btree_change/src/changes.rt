//! Changes of a tree, each a mini-transaction of its own: from the root to the leaf of the key, and the change committed.
//! Where nothing is changed, or a change isn't made, all is given up; where the leaf isn't at hand, nothing was begun.

ghost use Rattle.std.specs.Prelude.{◌≡◌, ◌<◌, length, IsTrue, IfOk, IfErr, OnOk, OnErr};
ghost use Rattle.store_api.specs.declared.visits.SpaceBad.TheVariants.{NoMemory as NoSpaceMemory};
ghost use Rattle.mtr.specs.Calls.{Commits, GivesUp};
ghost use Rattle.btree.specs.Reads.{IsIdle};
ghost use Rattle.btree_change.specs.Trees.{IsWholeTree, DoesInsert, DoesReplace, DoesRemove};
ghost use Rattle.btree_change.specs.Calls.{Ends, IsChangeReason};

use crate::leaf_changes::{Insertion, insert_in, remove_in, replace_in};
use btree::{Tree, leaf_of};
use mtr::Mtr;
use store_api::{NoMemory, SpaceBad, Visit};

/// Makes the puts stand, or drops them where memory is lacking.
fn settle<M: Mtr>(m: &mut M) -> Result<(), SpaceBad>
    ensures committed { OnOk result (Commits (M.state m.old) (M.state m.new)) }
    ensures given_up { OnErr result (GivesUp (M.state m.old) (M.state m.new)) }
    ensures memory { IfErr result (λ why. why ≡ NoSpaceMemory) }
{
    match m.commit() {
        Ok(()) => Ok(()),
        Err(NoMemory) => {
            m.give_up();
            Err(SpaceBad::NoMemory)
        }
    }
}

/// Adds a pair, where the key has none and its leaf has room.
pub fn insert<M: Mtr>(
    m: &mut M,
    tree: Tree,
    key: &[u8],
    value: &[u8],
) -> Result<Insertion, SpaceBad>
    requires idle { IsIdle (M.state m.old) }
    requires some { 0 < tree.key_len }
    requires key { length key.now ≡ tree.key_len }
    requires value { length value.now ≡ tree.value_len }
    requires tree { IsTrue (M.state m.old).told → IsWholeTree tree (M.state m.old).standing }
    ensures done { IfOk result (λ done. IsTrue (M.state m.new).told
        → DoesInsert tree key.now value.now (M.state m.old).standing (M.state m.new).standing done) }
    ensures ends { Ends (M.state m.old) (M.state m.new) }
    ensures tree { IsTrue (M.state m.new).told → IsWholeTree tree (M.state m.new).standing }
    ensures kept { OnErr result (GivesUp (M.state m.old) (M.state m.new)) }
    ensures reason { IfErr result (IsChangeReason (M.state m.old) (M.state m.new)) }
{
    let leaf = leaf_of(m, tree, key)?;
    match insert_in(m, tree, leaf, key, value) {
        Ok(Insertion::Added) => {
            settle(m)?;
            Ok(Insertion::Added)
        }
        Ok(Insertion::Present) => {
            m.give_up();
            Ok(Insertion::Present)
        }
        Ok(Insertion::Crowded) => {
            m.give_up();
            Ok(Insertion::Crowded)
        }
        Err(SpaceBad::Visit(Visit::Again)) => Err(SpaceBad::Visit(Visit::Again)),
        Err(why) => {
            m.give_up();
            Err(why)
        }
    }
}

/// Gives a key another value, and answers whether the key has a pair.
pub fn replace<M: Mtr>(m: &mut M, tree: Tree, key: &[u8], value: &[u8]) -> Result<bool, SpaceBad>
    requires idle { IsIdle (M.state m.old) }
    requires key { length key.now ≡ tree.key_len }
    requires value { length value.now ≡ tree.value_len }
    requires tree { IsTrue (M.state m.old).told → IsWholeTree tree (M.state m.old).standing }
    ensures done { IfOk result (λ done. IsTrue (M.state m.new).told
        → DoesReplace tree key.now value.now (M.state m.old).standing (M.state m.new).standing done) }
    ensures ends { Ends (M.state m.old) (M.state m.new) }
    ensures tree { IsTrue (M.state m.new).told → IsWholeTree tree (M.state m.new).standing }
    ensures kept { OnErr result (GivesUp (M.state m.old) (M.state m.new)) }
    ensures reason { IfErr result (IsChangeReason (M.state m.old) (M.state m.new)) }
{
    let leaf = leaf_of(m, tree, key)?;
    match replace_in(m, tree, leaf, key, value) {
        Ok(true) => {
            settle(m)?;
            Ok(true)
        }
        Ok(false) => {
            m.give_up();
            Ok(false)
        }
        Err(SpaceBad::Visit(Visit::Again)) => Err(SpaceBad::Visit(Visit::Again)),
        Err(why) => {
            m.give_up();
            Err(why)
        }
    }
}

/// Takes the pair of a key out, and answers whether there was one.
pub fn remove<M: Mtr>(m: &mut M, tree: Tree, key: &[u8]) -> Result<bool, SpaceBad>
    requires idle { IsIdle (M.state m.old) }
    requires key { length key.now ≡ tree.key_len }
    requires tree { IsTrue (M.state m.old).told → IsWholeTree tree (M.state m.old).standing }
    ensures done { IfOk result (λ done. IsTrue (M.state m.new).told
        → DoesRemove tree key.now (M.state m.old).standing (M.state m.new).standing done) }
    ensures ends { Ends (M.state m.old) (M.state m.new) }
    ensures tree { IsTrue (M.state m.new).told → IsWholeTree tree (M.state m.new).standing }
    ensures kept { OnErr result (GivesUp (M.state m.old) (M.state m.new)) }
    ensures reason { IfErr result (IsChangeReason (M.state m.old) (M.state m.new)) }
{
    let leaf = leaf_of(m, tree, key)?;
    match remove_in(m, tree, leaf, key) {
        Ok(true) => {
            settle(m)?;
            Ok(true)
        }
        Ok(false) => {
            m.give_up();
            Ok(false)
        }
        Err(SpaceBad::Visit(Visit::Again)) => Err(SpaceBad::Visit(Visit::Again)),
        Err(why) => {
            m.give_up();
            Err(why)
        }
    }
}
