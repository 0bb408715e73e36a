//! The numbers in a page's header that say whether it is whole, whose copy it is, and how new.
//! Nothing here tests more of a page.

ghost use Rattle.std.specs.Prelude.{◌≡◌, ◌≤◌, ◌↔◌, length, IsTrue};
ghost use Rattle.store_api.specs.Areas.{PassesSum};
ghost use Rattle.stored_pages.specs.Words.{number_of, lsn_of};

use crate::layout::{LSN, NUMBER, SUM};
use crate::words::{read_u32, read_u64};
use sum64::fnv;

/// The page's number.
pub fn number_in(page: &[u8]) -> u32
    requires { 12 ≤ length page.now }
    ensures { result ≡ number_of page.now }
{
    read_u32(page, NUMBER)
}

/// The LSN of the last group that changed the page.
pub fn lsn_in(page: &[u8]) -> u64
    requires { 20 ≤ length page.now }
    ensures { result ≡ lsn_of page.now }
{
    read_u64(page, LSN)
}

/// Whether the page is whole.
#[tactic(auto, unfolding(crate::specs::Words::u64_at))]
pub fn passes_sum(page: &[u8]) -> bool
    requires { 8 ≤ length page.now }
    ensures { IsTrue result ↔ PassesSum page.now }
{
    let stored = read_u64(page, SUM);
    stored == fnv(&page[NUMBER..])
}
