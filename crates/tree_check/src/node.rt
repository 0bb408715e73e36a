//! Whether a page that was read may stand on a level of a tree. Nothing here asks for a page.
//! `read_node` alone asks, of one page after another.

ghost use Rattle.std.specs.Prelude.{◌≡◌, ◌≢◌, ◌<◌, ◌==◌, ◌||◌, length, MatchBool, OnOk, IfErr};
ghost use Rattle.stored_pages.specs.declared.layout.TheConstants.{PAGE};
ghost use Rattle.page_format.specs.Shape.{AreZeros, HasFields, HasTreeFields};
ghost use Rattle.page_format.specs.Words.{level_of, count_of};
ghost use Rattle.btree.specs.Layout.{width_of, IsLaidOut};
ghost use Rattle.btree_split.specs.Placed.{BeginsLow};
ghost use Rattle.tree_check.specs.Nodes.{StandsOn, HasLengths, DoKeysRise, IsNode, IsBroken};

use crate::fences::low_fence_of;
use btree::{Tree, key_at};
use page_format::layout::{
    CHILD, COUNT, HIGH_LEN, INDEX, INNER, KIND, LEAF, LEVEL, LOW_LEN, NO_FENCE, WIDTH,
};
use stored_pages::{read_u16, read_u32};

/// What is wrong with a page in a tree.
#[derive(Clone, Copy, Debug, PartialEq, Eq)]
pub enum NodeBad {
    /// A record or a fence has another length than the tree's.
    Field,
    /// Its keys don't rise.
    Order,
    /// It is of another index or level, or has no child.
    Place,
    /// Its first child isn't under the least key that the page may have.
    First,
}

/// Whether the page is of that index and level, with a child if it is an inner one.
fn stands_on(bytes: &[u8], tree: Tree, level: u8) -> bool
    requires { length bytes.now ≡ PAGE }
    ensures { MatchBool result (StandsOn tree level bytes.now) (StandsOn tree level bytes.now → ⊥) }
{
    if bytes[KIND] != LEAF && bytes[KIND] != INNER {
        return false;
    }
    if read_u32(bytes, INDEX) != tree.index {
        return false;
    }
    if bytes[LEVEL] != level {
        return false;
    }
    level == 0 || read_u16(bytes, COUNT) > 0
}

/// How many bytes a record has on that level.
fn width_for(tree: Tree, level: u8) -> usize
    ensures { result ≡ width_of tree level }
{
    let behind_key = if level == 0 {
        usize::from(tree.value_len)
    } else {
        CHILD
    };
    usize::from(tree.key_len) + behind_key
}

/// Whether a fence of that length is none, or as long as a key.
fn is_fence_of(len: u8, key_len: u8) -> bool
    ensures { result ≡ (len == NO_FENCE || len == key_len) }
{
    len == NO_FENCE || len == key_len
}

/// Whether the records are as long as the tree's on the page's level, and the fences as long as a key.
fn has_lengths(bytes: &[u8], tree: Tree) -> bool
    requires size { length bytes.now ≡ PAGE }
    requires fields { HasTreeFields bytes.now }
    ensures { MatchBool result (HasLengths tree bytes.now) (HasLengths tree bytes.now → ⊥) }
{
    if usize::from(read_u16(bytes, WIDTH)) != width_for(tree, bytes[LEVEL]) {
        return false;
    }
    if !is_fence_of(bytes[LOW_LEN], tree.key_len) {
        return false;
    }
    is_fence_of(bytes[HIGH_LEN], tree.key_len)
}

/// Whether the keys that the records begin with rise.
fn keys_rise(bytes: &[u8], tree: Tree) -> bool
    requires size { length bytes.now ≡ PAGE }
    requires laid_out { IsLaidOut tree bytes.now }
    ensures { MatchBool result (DoKeysRise tree bytes.now) (DoKeysRise tree bytes.now → ⊥) }
{
    for i in 1..read_u16(bytes, COUNT) {
        if !key_at(bytes, tree, i - 1)
            .cmp(key_at(bytes, tree, i))
            .is_lt()
        {
            return false;
        }
    }
    true
}

fn are_zeros(bytes: &[u8]) -> bool
    ensures { MatchBool result (AreZeros bytes.now) (AreZeros bytes.now → ⊥) }
{
    bytes.iter().all(|byte| *byte == 0)
}

/// Whether an inner page's first key is its low fence, or zeros where it has none.
fn begins_low(bytes: &[u8], tree: Tree) -> bool
    requires size { length bytes.now ≡ PAGE }
    requires fields { HasTreeFields bytes.now }
    requires laid_out { IsLaidOut tree bytes.now }
    requires some { level_of bytes.now ≢ 0 → 0 < count_of bytes.now }
    ensures { MatchBool result (BeginsLow tree.key_len bytes.now) (BeginsLow tree.key_len bytes.now → ⊥) }
{
    if bytes[LEVEL] == 0 {
        return true;
    }
    let first = key_at(bytes, tree, 0);
    match low_fence_of(bytes) {
        Some(low) => first == low,
        None => are_zeros(first),
    }
}

/// Whether a page that was read may stand on that level of the tree, or what is wrong with it.
pub fn check_node(bytes: &[u8], tree: Tree, level: u8) -> Result<(), NodeBad>
    requires size { length bytes.now ≡ PAGE }
    requires fields { HasFields bytes.now }
    ensures node { OnOk result (IsNode tree level bytes.now) }
    ensures broken { IfErr result (IsBroken tree level bytes.now) }
{
    if !stands_on(bytes, tree, level) {
        return Err(NodeBad::Place);
    }
    if !has_lengths(bytes, tree) {
        return Err(NodeBad::Field);
    }
    if !keys_rise(bytes, tree) {
        return Err(NodeBad::Order);
    }
    if !begins_low(bytes, tree) {
        return Err(NodeBad::First);
    }
    Ok(())
}
