//! Two levels of a tree, walked side by side: the pages of the lower one are to be the children of the upper one's, in order,
//! and each begins where the one before ends. It takes no memory.

ghost use Rattle.std.specs.Prelude.{◌≡◌, ◌≢◌, ◌<◌, ◌≤◌, ℕ, suc, List, length, IfOk, IfErr, OnOk, OnErr, MatchBool};
ghost use Rattle.page_format.specs.Shape.{HasTreeFields};
ghost use Rattle.page_format.specs.Words.{low_of, right_of, count_of};
ghost use Rattle.law_flat_tree.specs.Levels.Fence.{Key};
ghost use Rattle.law_flat_tree.specs.Pages.{low_fence};
ghost use Rattle.btree.specs.Layout.{IsLaidOut};
ghost use Rattle.tree_check.specs.Space.{HasFirstPages};
ghost use Rattle.tree_check.specs.Rows.{page_in, entry_fence, end_before, IsNodeAt, IsNextChild, IsStep, IsRowEnd};
ghost use Rattle.tree_check.specs.Rows.{IsCheckedRow, IsRowFrom, HasRowBelow, IsStop, IsRowFault};

use crate::fences::{do_meet, high_fence_of, low_fence_of};
use crate::pages::{PageFault, read_node};
use btree::{Tree, child_at, is_laid_out, key_at};
use page_format::layout::{COUNT, LEVEL, RIGHT};
use stored_pages::layout::PAGE;
use stored_pages::{read_u16, read_u32};

/// Where a walk along two levels has come: the page above and its record that comes next, the page below, and the one before
/// that, or 0 where there is none.
#[derive(Clone, Copy)]
pub struct Walk {
    pub upper: u32,
    pub place: u16,
    pub lower: u32,
    pub last: u32,
}

/// What is wrong with two levels.
#[derive(Clone, Copy, Debug, PartialEq, Eq)]
pub enum RowFault {
    /// This page may not stand where it is.
    Page { page: u32, fault: PageFault },
    /// This page begins elsewhere than its parent's record says, or than the page before ends: it breaks the third rule.
    Child { page: u32 },
    /// This page's neighbour isn't the next page of its level, or the level doesn't end with it: it breaks the fourth rule. It is
    /// page 0 where the first page isn't the one that comes next.
    Neighbour { page: u32 },
}

/// Whether both pages begin at the same fence.
fn begin_alike(above: &[u8], child: &[u8]) -> bool
    requires above_size { length above.now ≡ PAGE }
    requires size { length child.now ≡ PAGE }
    requires above_fields { HasTreeFields above.now }
    requires fields { HasTreeFields child.now }
    ensures { MatchBool result (low_fence (low_of child.now) ≡ low_fence (low_of above.now))
        (low_fence (low_of child.now) ≡ low_fence (low_of above.now) → ⊥) }
{
    match low_fence_of(child) {
        Some(low) => match low_fence_of(above) {
            Some(key) => low == key,
            None => false,
        },
        None => low_fence_of(above).is_none(),
    }
}

/// Whether the page begins at the key.
fn begins_at(child: &[u8], key: &[u8]) -> bool
    requires size { length child.now ≡ PAGE }
    requires fields { HasTreeFields child.now }
    ensures { MatchBool result (low_fence (low_of child.now) ≡ Key key.now) (low_fence (low_of child.now) ≡ Key key.now → ⊥) }
{
    match low_fence_of(child) {
        Some(low) => low == key,
        None => false,
    }
}

/// Whether a child begins where the parent's record says.
fn begins_there(above: &[u8], tree: Tree, place: u16, child: &[u8]) -> bool
    requires above_size { length above.now ≡ PAGE }
    requires size { length child.now ≡ PAGE }
    requires above_fields { HasTreeFields above.now }
    requires fields { HasTreeFields child.now }
    requires laid_out { IsLaidOut tree above.now }
    requires place { place < count_of above.now }
    ensures { MatchBool result (low_fence (low_of child.now) ≡ entry_fence tree.key_len above.now place)
        (low_fence (low_of child.now) ≡ entry_fence tree.key_len above.now place → ⊥) }
{
    if place == 0 {
        begin_alike(above, child)
    } else {
        begins_at(child, key_at(above, tree, place))
    }
}

/// Whether the page begins where the one before ends, or has no low fence where it is the first of its row.
fn follows(pages: &[[u8; PAGE]], tree: Tree, last: u32, page: u32) -> bool
    requires last { last ≢ 0 → (last < length pages.now) × HasTreeFields (page_in pages.now last) }
    requires within { page < length pages.now }
    requires fields { HasTreeFields (page_in pages.now page) }
    ensures { MatchBool result (low_fence (low_of (page_in pages.now page)) ≡ end_before tree pages.now last)
        (low_fence (low_of (page_in pages.now page)) ≡ end_before tree pages.now last → ⊥) }
{
    if last == 0 {
        low_fence_of(&pages[page as usize]).is_none()
    } else {
        do_meet(&pages[last as usize], &pages[page as usize])
    }
}

/// What comes next once the page below stands where it may.
fn next_of(above: &[u8], child: &[u8], now: Walk) -> Walk
    requires above_size { length above.now ≡ PAGE }
    requires size { length child.now ≡ PAGE }
    requires place { now.place < count_of above.now }
    ensures last { result.last ≡ now.lower }
    ensures lower { result.lower ≡ right_of child.now }
    ensures behind { suc now.place < count_of above.now → (result.upper ≡ now.upper) × (result.place ≡ suc now.place) }
    ensures over { count_of above.now ≤ suc now.place → (result.upper ≡ right_of above.now) × (result.place ≡ 0) }
{
    let count = read_u16(above, COUNT);
    let lower = read_u32(child, RIGHT);
    let last = now.lower;
    if now.place + 1 == count {
        return Walk {
            upper: read_u32(above, RIGHT),
            place: 0,
            lower,
            last,
        };
    }
    Walk {
        upper: now.upper,
        place: now.place + 1,
        lower,
        last,
    }
}

/// Checks the page that comes next below, and answers what comes next then.
fn step(pages: &[[u8; PAGE]], tree: Tree, level: u8, now: Walk) -> Result<Walk, RowFault>
    requires file { HasFirstPages pages.now }
    requires upper { IsNodeAt tree pages.now (suc level) now.upper }
    requires last { now.last ≢ 0 → IsNodeAt tree pages.now level now.last }
    requires place { now.place < count_of (page_in pages.now now.upper) }
    ensures step { IfOk result (IsStep tree pages.now level now) }
    ensures fault { IfErr result (IsStop tree pages.now level now) }
    ensures refused { OnErr result (IsNextChild tree pages.now level now → ⊥) }
{
    let above = &pages[now.upper as usize];
    if child_at(above, tree, now.place) != now.lower {
        return Err(RowFault::Neighbour { page: now.last });
    }
    match read_node(pages, tree, level, now.lower) {
        Ok(()) => {}
        Err(fault) => {
            return Err(RowFault::Page {
                page: now.lower,
                fault,
            });
        }
    }
    let child = &pages[now.lower as usize];
    if !begins_there(above, tree, now.place, child) {
        return Err(RowFault::Child { page: now.lower });
    }
    if !follows(pages, tree, now.last, now.lower) {
        return Err(RowFault::Child { page: now.lower });
    }
    Ok(next_of(above, child, now))
}

/// Whether the row below ends with the last page.
fn ends_with(pages: &[[u8; PAGE]], last: u32, lower: u32) -> bool
    requires { last ≢ 0 → (last < length pages.now) × HasTreeFields (page_in pages.now last) }
    ensures { MatchBool result (IsRowEnd pages.now last lower) (IsRowEnd pages.now last lower → ⊥) }
{
    if lower != 0 {
        return false;
    }
    if last == 0 {
        return false;
    }
    high_fence_of(&pages[last as usize]).is_none()
}

/// Checks that the pages from the first one on are a row, and the children of the row above, in order.
pub fn check_level(
    pages: &[[u8; PAGE]],
    tree: Tree,
    level: u8,
    top: u32,
    first: u32,
) -> Result<(), RowFault>
    requires file { HasFirstPages pages.now }
    requires some { 0 < tree.key_len }
    requires above { IsRowFrom tree pages.now (suc level) top }
    ensures rows { OnOk result ((us : List ℕ) → IsCheckedRow tree pages.now (suc level) top us → HasRowBelow tree pages.now level first us) }
    ensures fault { IfErr result (IsRowFault tree pages.now level top first) }
    ensures refused { OnErr result ((us : List ℕ) → IsCheckedRow tree pages.now (suc level) top us → HasRowBelow tree pages.now level first us → ⊥) }
{
    let mut walk = Walk {
        upper: top,
        place: 0,
        lower: first,
        last: 0,
    };
    for _ in 0..pages.len() {
        if walk.upper == 0 {
            if ends_with(pages, walk.last, walk.lower) {
                return Ok(());
            }
            return Err(RowFault::Neighbour { page: walk.last });
        }
        walk = step(pages, tree, level, walk)?;
    }
    // no page stands twice in a row, and page 0 in none
    unreachable!()
}
