//! The first pages of a file, which every tree's pages depend on: page 0 counts the pages, and the map says which are
//! in use. `pages` and `whole` count and look pages up here; `check_space` is asked before any tree, so far by tests
//! alone.

ghost use Rattle.std.specs.Prelude.{◌≡◌, ℕ, ◌<◌, ◌≤◌, length, MatchBool, OnOk, OnErr, IfErr};
ghost use Rattle.stored_pages.specs.Words.{u32_at};
ghost use Rattle.space_map.specs.Map.{mark_of};
ghost use Rattle.tree_check.specs.Rows.{page_in};
ghost use Rattle.tree_check.specs.Space.{HasFirstPages, IsSpaceFault};

use store_api::MOST_PAGES;
use stored_pages::layout::{BITS, COVERED, FIRST_MAP_PAGE, FIXED_PAGES, PAGE, PAGE_COUNT};
use stored_pages::read_u32;

/// What is wrong with the first pages of a file.
#[derive(Clone, Copy, Debug, PartialEq, Eq)]
pub enum SpaceFault {
    /// Page 0 counts more pages than the file has, more than a file may have, or too few: it breaks the first rule.
    Count,
    /// The map says that one of the first pages is free: it breaks the fifth rule.
    Free { page: u32 },
}

/// How many pages page 0 counts.
pub fn page_count(pages: &[[u8; PAGE]]) -> u32
    requires { 0 < length pages.now }
    ensures { result ≡ u32_at PAGE_COUNT (page_in pages.now 0) }
{
    read_u32(&pages[0], PAGE_COUNT)
}

/// Whether the map says that the page is in use.
pub fn is_used(pages: &[[u8; PAGE]], page: u32) -> bool
    requires map { 4 < length pages.now }
    requires page { page < MOST_PAGES }
    ensures { MatchBool result (mark_of (page_in pages.now) page ≡ 1) (mark_of (page_in pages.now) page ≡ 0) }
{
    let map = &pages[(FIRST_MAP_PAGE + page / COVERED) as usize];
    let byte = map[BITS + (page % COVERED / 8) as usize];
    (byte >> (page % 8)) & 1 == 1
}

/// Whether page 0 counts the pages as it may, and the map says that the first ones are in use.
pub fn check_space(pages: &[[u8; PAGE]]) -> Result<(), SpaceFault>
    ensures first { OnOk result (HasFirstPages pages.now) }
    ensures fault { IfErr result (IsSpaceFault pages.now) }
    ensures refused { OnErr result (HasFirstPages pages.now → ⊥) }
{
    if pages.len() < FIXED_PAGES as usize {
        return Err(SpaceFault::Count);
    }
    let count = page_count(pages);
    if count < FIXED_PAGES || count > MOST_PAGES || count as usize > pages.len() {
        return Err(SpaceFault::Count);
    }
    for page in 0..FIXED_PAGES {
        if !is_used(pages, page) {
            return Err(SpaceFault::Free { page });
        }
    }
    Ok(())
}
