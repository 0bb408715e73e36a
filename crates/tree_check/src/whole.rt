//! All levels of a tree over the pages of a file, from the root down.
//! It is asked for one tree after another, so far by tests alone; the pages are only read.

ghost use Rattle.std.specs.Prelude.{◌≡◌, ◌<◌, ◌≤◌, ℕ, [], ◌∷◌, length, IfOk, IfErr, OnOk, OnErr};
ghost use Rattle.page_format.specs.Words.{level_of};
ghost use Rattle.btree_split.specs.Placed.{IsPlacedTree};
ghost use Rattle.tree_check.specs.Space.{HasFirstPages};
ghost use Rattle.tree_check.specs.Rows.{page_in, AreFilePages, IsCheckedRow, IsRootFault, IsTreeFault};

use crate::fences::{high_fence_of, low_fence_of};
use crate::pages::{PageFault, read_node};
use crate::rows::{RowFault, check_level};
use crate::space::page_count;
use btree::{Tree, child_at};
use page_format::layout::{LEVEL, RIGHT};
use stored_pages::layout::PAGE;
use stored_pages::read_u32;

/// The root's level, where it is a row by itself.
fn read_root(pages: &[[u8; PAGE]], tree: Tree) -> Result<u8, RowFault>
    requires { HasFirstPages pages.now }
    ensures row { IfOk result (λ level. IsCheckedRow tree pages.now level tree.root (tree.root ∷ [])) }
    ensures fault { IfErr result (IsRootFault tree pages.now) }
    ensures refused { OnErr result (IsCheckedRow tree pages.now (level_of (page_in pages.now tree.root)) tree.root (tree.root ∷ []) → ⊥) }
{
    let page = tree.root;
    if page >= page_count(pages) {
        return Err(RowFault::Page {
            page,
            fault: PageFault::Missing,
        });
    }
    let bytes = &pages[page as usize];
    let level = bytes[LEVEL];
    match read_node(pages, tree, level, page) {
        Ok(()) => {}
        Err(fault) => return Err(RowFault::Page { page, fault }),
    }
    if low_fence_of(bytes).is_some() || high_fence_of(bytes).is_some() {
        return Err(RowFault::Child { page });
    }
    if read_u32(bytes, RIGHT) != 0 {
        return Err(RowFault::Neighbour { page });
    }
    Ok(level)
}

/// Checks that the pages of a file from the root on are a tree, each of them one of the file's, and in use.
pub fn check_tree(pages: &[[u8; PAGE]], tree: Tree) -> Result<(), RowFault>
    requires some { 0 < tree.key_len }
    requires file { HasFirstPages pages.now }
    ensures tree { OnOk result (IsPlacedTree tree (page_in pages.now)) }
    ensures fault { IfErr result (IsTreeFault tree pages.now) }
    ensures refused { OnErr result (IsPlacedTree tree (page_in pages.now) → AreFilePages tree pages.now → ⊥) }
{
    let height = read_root(pages, tree)?;
    let mut top = tree.root;
    for down in 0..height {
        let first = child_at(&pages[top as usize], tree, 0);
        check_level(pages, tree, height - 1 - down, top, first)?;
        top = first;
    }
    Ok(())
}
