//! Pages in two vectors: as they stand, and as a mini-transaction sees them.
//! Only `ListedPages` uses this.

ghost use Rattle.std.specs.Prelude.{◌≡◌, ℕ, ◌+◌, ◌<◌, ◌≤◌, [], length, vec_len, vec_capacity, slice_index_or, slice_set, IsTrue, IfOk, OnOk, OnErr};
ghost use Rattle.stored_pages.specs.declared.layout.TheConstants.{PAGE_COUNT};
ghost use Rattle.stored_pages.specs.Words.{u32_at};
ghost use Rattle.mtr.specs.declared.store.TheConstants.{MOST_VISITED};
ghost use Rattle.mtr.specs.Seen.{visit, IsWithin, with_bytes};
ghost use Rattle.mtr.specs.Calls.{Looks, Makes, Puts, Commits, GivesUp};

use std::alloc::{AllocError, Global};
use store_api::NoMemory;
use stored_pages::layout::{PAGE, PAGE_COUNT};
use stored_pages::read_u32;

/// The most pages that a mini-transaction deals with.
pub const MOST_VISITED: usize = 24;

/// Pages as they stand and as they are seen. Those past the end are blank. They are told as long as page 0 counts no
/// more pages than there are.
#[derive(Drop)]
pub struct Store {
    pub standing: Vec<[u8; PAGE]>,
    pub seen: Vec<[u8; PAGE]>,
    pub blank: [u8; PAGE],
    pub visited: Vec<u32>,
    pub told: bool,
    pub spare: u64,
    pub whole: u64,
    ghost same_count: { vec_len seen ≡ vec_len standing },
    ghost room: { MOST_VISITED ≤ vec_capacity visited },
    ghost few: { vec_len visited ≤ MOST_VISITED },
    ghost seen_counted: { IsTrue told → u32_at PAGE_COUNT (slice_index_or seen.items 0 blank) ≤ vec_len seen },
    ghost standing_counted: { IsTrue told → u32_at PAGE_COUNT (slice_index_or standing.items 0 blank) ≤ vec_len seen },
}

/// A page of a list, blank past its end.
fn page_in<'a>(pages: &'a [[u8; PAGE]], blank: &'a [u8; PAGE], page: u32) -> &'a [u8; PAGE]
    ensures { result.now ≡ slice_index_or pages.now page blank.now }
{
    if (page as usize) < pages.len() {
        &pages[page as usize]
    } else {
        blank
    }
}

fn count_of(pages: &[[u8; PAGE]], blank: &[u8; PAGE]) -> u32
    ensures { result ≡ u32_at PAGE_COUNT (slice_index_or pages.now 0 blank.now) }
{
    read_u32(page_in(pages, blank, 0), PAGE_COUNT)
}

/// A page with bytes written over its own.
fn with_bytes_at(page: &[u8; PAGE], at: u16, bytes: &[u8]) -> [u8; PAGE]
    requires { at + length bytes.now ≤ PAGE }
    ensures { result ≡ with_bytes at bytes.now page.now }
{
    let at = usize::from(at);
    let mut changed = *page;
    changed[at..at + bytes.len()].copy_from_slice(bytes);
    changed
}

impl Store {
    ghost use Rattle.mtr.specs.Listed.{state_of, Replaces};
    ghost use Rattle.mtr.specs.Resting.{IsResting};

    pub fn new(alloc: Global, pages: Vec<[u8; PAGE]>, spare: u64) -> Result<Store, AllocError>
        ensures { IfOk result (λ s. IsResting pages.items spare (state_of s)) }
    {
        let blank = [0; PAGE];
        let seen = Vec::from_slice(alloc, &pages)?;
        let visited = Vec::with_capacity(alloc, MOST_VISITED)?;
        let told = count_of(&seen, &blank) as usize <= seen.len();
        Ok(Store {
            standing: pages,
            seen,
            blank,
            visited,
            told,
            spare,
            whole: spare,
        })
    }

    /// The page as it is seen.
    pub fn page(&self, page: u32) -> &[u8]
        ensures value { result.now ≡ (state_of self.now).seen page }
        ensures size { length result.now ≡ PAGE }
    {
        page_in(&self.seen, &self.blank, page)
    }

    /// The page is one of those dealt with.
    pub fn visit(&mut self, page: u32)
        requires { length (visit page self.old.visited.items) ≤ MOST_VISITED }
        ensures looks { Looks (visit page self.old.visited.items) (state_of self.old) (state_of self.new) }
        ensures seen { (state_of self.new).seen ≡ (state_of self.old).seen }
        ensures told { self.new.told ≡ self.old.told }
    {
        if !self.visited.contains(&page) {
            let _ = self.visited.push(page);
        }
    }

    /// The page is seen with these bytes, where there is such a page.
    fn replace(&mut self, page: u32, bytes: &[u8; PAGE])
        requires { IsWithin page (state_of self.old) }
        ensures { Replaces page bytes.now (state_of self.old) (state_of self.new) }
    {
        if (page as usize) < self.seen.len() {
            self.seen[page as usize] = *bytes;
        }
        let counted = count_of(&self.seen, &self.blank) as usize <= self.seen.len();
        self.told = self.told && counted;
    }

    /// No page was dealt with, and the spare is whole.
    fn begin(&mut self)
        ensures seen { self.new.seen.items ≡ self.old.seen.items }
        ensures standing { self.new.standing.items ≡ self.old.standing.items }
        ensures blank { self.new.blank ≡ self.old.blank }
        ensures told { self.new.told ≡ self.old.told }
        ensures visited { self.new.visited.items ≡ [] }
        ensures spare { self.new.spare ≡ self.old.whole }
        ensures whole { self.new.whole ≡ self.old.whole }
    {
        self.visited.clear();
        self.spare = self.whole;
    }

    /// The page is zeros. It changes nothing where the spare doesn't suffice.
    pub fn make(&mut self, page: u32) -> Result<(), NoMemory>
        requires few { length (visit page self.old.visited.items) ≤ MOST_VISITED }
        requires within { IsWithin page (state_of self.old) }
        ensures made { OnOk result (Makes page (state_of self.old) (state_of self.new)) }
        ensures refused { OnErr result (state_of self.new ≡ state_of self.old) }
        ensures memory { OnErr result (self.old.spare < 5) }
    {
        if self.spare < 5 {
            return Err(NoMemory);
        }
        self.spare -= 5;
        self.replace(page, &[0; PAGE]);
        self.visit(page);
        Ok(())
    }

    /// Bytes of the page are written over. It changes nothing where the spare doesn't suffice.
    pub fn put(&mut self, page: u32, at: u16, bytes: &[u8]) -> Result<(), NoMemory>
        requires ends { at + length bytes.now ≤ PAGE }
        requires within { IsWithin page (state_of self.old) }
        ensures put { OnOk result (Puts page at bytes.now (state_of self.old) (state_of self.new)) }
        ensures refused { OnErr result (state_of self.new ≡ state_of self.old) }
        ensures memory { OnErr result (self.old.spare < length bytes.now + 9) }
    {
        let cost = bytes.len() as u64 + 9;
        if self.spare < cost {
            return Err(NoMemory);
        }
        self.spare -= cost;
        let changed = with_bytes_at(page_in(&self.seen, &self.blank, page), at, bytes);
        self.replace(page, &changed);
        Ok(())
    }

    pub fn commit(&mut self)
        ensures { Commits (state_of self.old) (state_of self.new) }
    {
        self.standing.copy_from_slice(&self.seen);
        self.begin();
    }

    pub fn give_up(&mut self)
        ensures { GivesUp (state_of self.old) (state_of self.new) }
    {
        self.seen.copy_from_slice(&self.standing);
        self.begin();
    }
}
