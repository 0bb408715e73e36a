//! A page of a file, read where a tree leads to it: whether it may stand there.
//! `rows` and `whole` read each page of a tree by this, and only where the map has it in use.

ghost use Rattle.std.specs.Prelude.{◌≡◌, ◌<◌, ◌≤◌, length, MatchBool, OnOk, IfErr};
ghost use Rattle.stored_pages.specs.Words.{u32_at};
ghost use Rattle.space_map.specs.Map.{mark_of};
ghost use Rattle.tree_check.specs.Rows.{page_in, IsNodeAt, IsFaulty};
ghost use Rattle.tree_check.specs.Space.{HasFirstPages};

use crate::node::{NodeBad, check_node};
use crate::space::{is_used, page_count};
use btree::Tree;
use page_format::{Page, PageBad};
use stored_pages::layout::{FIXED_PAGES, PAGE};

/// Why a page may not stand where a tree leads to it.
#[derive(Clone, Copy, Debug, PartialEq, Eq)]
pub enum PageFault {
    /// Page 0 doesn't count the page, or it is one of the first ones, which are no tree's.
    Missing,
    /// The map says that it is free.
    Free,
    /// Its bytes are no page of that number.
    Unread(PageBad),
    /// It is no page of that level of the tree.
    Wrong(NodeBad),
}

/// Whether the file has a page of that number that may stand on that level.
pub fn read_node(pages: &[[u8; PAGE]], tree: Tree, level: u8, number: u32) -> Result<(), PageFault>
    requires { HasFirstPages pages.now }
    ensures node { OnOk result (IsNodeAt tree pages.now level number) }
    ensures faulty { IfErr result (IsFaulty tree pages.now level number) }
{
    if number < FIXED_PAGES || number >= page_count(pages) {
        return Err(PageFault::Missing);
    }
    if !is_used(pages, number) {
        return Err(PageFault::Free);
    }
    let bytes = &pages[number as usize];
    match Page::read(bytes, number) {
        Ok(page) => drop(page),
        Err(bad) => return Err(PageFault::Unread(bad)),
    }
    match check_node(bytes, tree, level) {
        Ok(()) => Ok(()),
        Err(bad) => Err(PageFault::Wrong(bad)),
    }
}
