//! The pages that a mini-transaction deals with, and room for a copy of each.
//! All of the room is taken at the beginning, so that no call takes memory later.

ghost use Rattle.std.specs.Prelude.{◌≡◌, ◌+◌, ◌-◌, ◌<◌, ◌≤◌, ◌==◌, ◌&&◌, true, [], ◌∷◌, ◌++◌, length, take};
ghost use Rattle.std.specs.Prelude.{position, is_some, option_copied, IsTrue, IfOk, IfSome};
ghost use Rattle.mtr.specs.Seen.{is_in, visit, with_bytes};
ghost use Rattle.mini_txn.specs.Dealt.{copy_of, pages_of, IsVisited, HasCopy};

use mtr::MOST_VISITED;
use std::alloc::Global;
use std::marker::Model;
use store_api::NoMemory;
use stored_pages::layout::PAGE;

/// A page that is dealt with, and room for a copy of it.
#[derive(Drop)]
pub struct Entry {
    pub page: u32,
    pub copied: bool,
    pub bytes: [u8; PAGE],
}

/// The pages dealt with. Contracts see their entries.
#[derive(Drop)]
pub struct Dealt {
    entries: Vec<Entry>,
    count: usize,
}

impl Model for Dealt {
    ghost use Rattle.std.specs.Prelude.{◌≡◌, ◌≤◌, List, length, take};
    ghost use Rattle.mtr.specs.declared.store.TheConstants.{MOST_VISITED};
    ghost use Rattle.mini_txn.specs.declared.dealt.Entry.{Entry};

    ghost Value = { List Entry };

    ghost view = { λ d. take d.count d.entries.items };

    ghost invariant = { λ d. (length d.entries.items ≡ MOST_VISITED) × (d.count ≤ MOST_VISITED) };
}

fn empty_entries(alloc: Global) -> Result<Vec<Entry>, NoMemory>
    ensures { IfOk result (λ entries. length entries.items ≡ MOST_VISITED) }
{
    let mut entries = Vec::with_capacity(alloc, MOST_VISITED)?;
    for _ in 0..MOST_VISITED {
        entries.push(Entry {
            page: 0,
            copied: false,
            bytes: [0; PAGE],
        })?;
    }
    Ok(entries)
}

fn place_of(entries: &[Entry], page: u32) -> Option<usize>
    ensures { result ≡ position (λ entry. entry.page == page) entries.now }
{
    entries.iter().position(|entry| entry.page == page)
}

fn place_of_copy(entries: &[Entry], page: u32) -> Option<usize>
    ensures { result ≡ position (λ entry. entry.page == page && entry.copied) entries.now }
{
    entries
        .iter()
        .position(|entry| entry.page == page && entry.copied)
}

fn write_over(bytes: &mut [u8; PAGE], at: u16, piece: &[u8])
    requires { at + length piece.now ≤ PAGE }
    ensures { bytes.new ≡ with_bytes at piece.now bytes.old }
{
    let at = usize::from(at);
    bytes[at..at + piece.len()].copy_from_slice(piece);
}

impl Dealt {
    /// Of no page, with room for as many as a mini-transaction may deal with.
    pub fn new(alloc: Global) -> Result<Dealt, NoMemory>
        ensures { IfOk result (λ dealt. dealt ≡ []) }
    {
        Ok(Dealt {
            entries: empty_entries(alloc)?,
            count: 0,
        })
    }

    pub fn contains(&self, page: u32) -> bool
        ensures { result ≡ is_in page (pages_of self.now) }
    {
        place_of(&self.entries[..self.count], page).is_some()
    }

    /// The page's copy, if it has one.
    pub fn copy(&self, page: u32) -> Option<&[u8]>
        ensures value { option_copied result ≡ copy_of self.now page }
        ensures size { IfSome result (λ bytes. length bytes.now ≡ PAGE) }
    {
        match place_of_copy(&self.entries[..self.count], page) {
            Some(place) => Some(&self.entries[place].bytes),
            None => None,
        }
    }

    /// The page is one of those dealt with. Nothing is copied.
    pub fn visit(&mut self, page: u32)
        requires { length (visit page (pages_of self.old)) ≤ MOST_VISITED }
        ensures { IsVisited page self.old self.new }
    {
        if !self.contains(page) {
            let entry = &mut self.entries[self.count];
            entry.page = page;
            entry.copied = false;
            self.count += 1;
        }
    }

    /// Copies these bytes as the page's.
    pub fn set(&mut self, page: u32, bytes: &[u8])
        requires dealt_with { IsTrue (is_in page (pages_of self.old)) }
        requires size { length bytes.now ≡ PAGE }
        ensures { HasCopy page bytes.now self.old self.new }
    {
        match place_of(&self.entries[..self.count], page) {
            Some(place) => {
                let entry = &mut self.entries[place];
                entry.copied = true;
                entry.bytes.copy_from_slice(bytes);
            }
            None => {}
        }
    }

    /// Writes bytes over those of the page's copy.
    pub fn write(&mut self, page: u32, at: u16, bytes: &[u8])
        requires copied { is_some (copy_of self.old page) ≡ true }
        requires ends { at + length bytes.now ≤ PAGE }
        ensures { IfSome (copy_of self.old page) (λ copy. HasCopy page (with_bytes at bytes.now copy) self.old self.new) }
    {
        match place_of_copy(&self.entries[..self.count], page) {
            Some(place) => {
                let entry = &mut self.entries[place];
                write_over(&mut entry.bytes, at, bytes);
            }
            None => {}
        }
    }

    pub fn len(&self) -> usize
        ensures { result ≡ length self.now }
    {
        self.count
    }

    /// The entry at a place.
    pub fn at(&self, place: usize) -> &Entry
        requires { place < length self.now }
        ensures { take (place + 1) self.now ≡ take place self.now ++ result.now ∷ [] }
    {
        &self.entries[place]
    }

    /// Forgets all pages, and keeps the room.
    pub fn forget(&mut self)
        ensures { self.new ≡ [] }
    {
        self.count = 0;
    }

    /// The page that was asked for last.
    pub fn last(&self) -> &Entry
        requires { 0 < length self.now }
        ensures { take (length self.now - 1) self.now ++ result.now ∷ [] ≡ self.now }
    {
        &self.entries[self.count - 1]
    }

    /// Takes away the page that was asked for last.
    pub fn drop_last(&mut self)
        requires { 0 < length self.old }
        ensures { self.new ≡ take (length self.old - 1) self.old }
    {
        self.count -= 1;
    }
}
