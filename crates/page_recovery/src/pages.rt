//! Pages in memory by their numbers: those that were found in their places, and those that the log has made or changed.
//! Recovery alone changes them; who opens a database takes them from there.

ghost use Rattle.std.specs.Prelude.{◌≡◌, ◌+◌, ◌<◌, ◌≤◌, length, replicate, slice_index_or, slice_set, option_copied, IfOk, IfSome, OnOk, Some, None};
ghost use Rattle.stored_pages.specs.Words.{lsn_of};
ghost use Rattle.mtr.specs.Seen.{with_bytes};
ghost use Rattle.mini_txn.specs.Edits.{blank};
ghost use Rattle.mini_txn.specs.View.{stamped};
ghost use Rattle.page_recovery.specs.Pages.{page_of, ArePages, HasInstead};

use big_endian::{u32_bytes, u64_bytes};
use std::alloc::Global;
use std::boxed::Box;
use std::marker::Model;
use std::mem;
use store_api::NoMemory;
use stored_pages::layout::{FIELDS, LSN, NUMBER, PAGE};
use stored_pages::read_u64;

/// The bytes of one page.
#[derive(Drop)]
pub struct PageBytes {
    bytes: Box<[u8; PAGE]>,
}

impl Model for PageBytes {
    ghost use Rattle.std.specs.Prelude.{◌≡◌, ℕ, List, length};
    ghost use Rattle.stored_pages.specs.declared.layout.TheConstants.{PAGE};

    ghost Value = { List ℕ };

    ghost view = { λ p. p.bytes.value };

    ghost invariant = { λ p. length p.bytes.value ≡ PAGE };
}

/// Writes a piece over the bytes from a place on.
fn write_over(bytes: &mut [u8; PAGE], at: usize, piece: &[u8])
    requires { at + length piece.now ≤ PAGE }
    ensures { bytes.new ≡ with_bytes at piece.now bytes.old }
{
    bytes[at..at + piece.len()].copy_from_slice(piece);
}

/// Writes a page's number and an LSN.
#[tactic(auto, unfolding(schema_codec::specs::Numbers::u32_bytes, schema_codec::specs::Numbers::u64_bytes))]
fn stamp_over(bytes: &mut [u8; PAGE], page: u32, lsn: u64)
    ensures { bytes.new ≡ stamped page lsn bytes.old }
{
    let p = u32_bytes(page);
    let l = u64_bytes(lsn);
    let stamp = [
        p[0], p[1], p[2], p[3], l[0], l[1], l[2], l[3], l[4], l[5], l[6], l[7],
    ];
    bytes[NUMBER..FIELDS].copy_from_slice(&stamp);
}

impl PageBytes {
    /// Zeros.
    #[tactic(auto, unfolding(mini_txn::specs::Edits::blank))]
    fn zeros(alloc: Global) -> Result<PageBytes, NoMemory>
        ensures { IfOk result (λ page. page ≡ blank) }
    {
        Ok(PageBytes {
            bytes: Box::new(alloc, [0; PAGE])?,
        })
    }

    fn as_slice(&self) -> &[u8]
        ensures value { result.now ≡ self.now }
        ensures size { length result.now ≡ PAGE }
    {
        self.bytes.as_slice()
    }

    /// The page with these bytes.
    fn filled(mut self, bytes: &[u8]) -> PageBytes
        requires { length bytes.now ≡ PAGE }
        ensures { result ≡ bytes.now }
    {
        self.bytes.copy_from_slice(bytes);
        self
    }

    /// The page with a piece over its bytes.
    fn written(mut self, at: usize, piece: &[u8]) -> PageBytes
        requires { at + length piece.now ≤ PAGE }
        ensures value { result ≡ with_bytes at piece.now self }
        ensures size { length result ≡ PAGE }
    {
        write_over(&mut self.bytes, at, piece);
        self
    }

    /// The page with its number and an LSN.
    fn stamped(mut self, page: u32, lsn: u64) -> PageBytes
        ensures value { result ≡ stamped page lsn self }
        ensures size { length result ≡ PAGE }
    {
        stamp_over(&mut self.bytes, page, lsn);
        self
    }
}

type Slot = Option<PageBytes>;

fn empty_slots(alloc: Global, count: u32) -> Result<Vec<Slot>, NoMemory>
    ensures { IfOk result (λ slots. slots.items ≡ replicate count None) }
{
    let mut slots = Vec::with_capacity(alloc, count as usize)?;
    for _slot in 0..count {
        slots.push(None)?;
    }
    Ok(slots)
}

fn slot_at(slots: &[Slot], page: u32) -> Option<&PageBytes>
    ensures { option_copied result ≡ slice_index_or slots.now page None }
{
    match slots.get(page as usize) {
        Some(slot) => slot.as_ref(),
        None => None,
    }
}

/// Puts something else into a slot, and gives what stood there.
fn put_slot(slots: &mut Vec<Slot>, page: u32, slot: Slot) -> Slot
    requires { page < length slots.old.items }
    ensures value { result ≡ slice_index_or slots.old.items page None }
    ensures items { slots.new.items ≡ slice_set slots.old.items page slot }
{
    mem::replace(&mut slots[page as usize], slot)
}

/// The bytes of a page, zeros if it isn't there. Its slot is empty then.
fn taken(slots: &mut Vec<Slot>, alloc: Global, page: u32) -> Result<PageBytes, NoMemory>
    requires { page < length slots.old.items }
    ensures bytes { IfOk result (λ bytes. bytes ≡ page_of slots.old.items page) }
    ensures items { slots.new.items ≡ slice_set slots.old.items page None }
{
    match put_slot(slots, page, None) {
        Some(bytes) => Ok(bytes),
        None => PageBytes::zeros(alloc),
    }
}

/// Pages in memory, for a file of so many at most.
#[derive(Drop)]
pub struct Pages {
    slots: Vec<Slot>,
}

impl Model for Pages {
    ghost use Rattle.std.specs.Prelude.{ℕ, List, Option};
    ghost use Rattle.page_recovery.specs.Pages.{ArePages};

    ghost Value = { List (Option (List ℕ)) };

    ghost view = { λ p. p.slots.items };

    ghost invariant = { λ p. ArePages p.slots.items };
}

impl Pages {
    /// No page is there.
    pub(crate) fn new(alloc: Global, count: u32) -> Result<Pages, NoMemory>
        ensures { IfOk result (λ pages. pages ≡ replicate count None) }
    {
        Ok(Pages {
            slots: empty_slots(alloc, count)?,
        })
    }

    /// How many pages there may be.
    pub fn count(&self) -> u32
        ensures value { result ≡ length self.now }
        ensures are { ArePages self.now }
    {
        self.slots.len() as u32
    }

    /// The bytes of a page, if it is there.
    pub fn bytes(&self, page: u32) -> Option<&[u8]>
        ensures value { option_copied result ≡ slice_index_or self.now page None }
        ensures size { IfSome result (λ bytes. length bytes.now ≡ PAGE) }
    {
        match slot_at(&self.slots, page) {
            Some(bytes) => Some(bytes.as_slice()),
            None => None,
        }
    }

    /// The LSN of the last group that changed the page, 0 if it isn't there.
    pub(crate) fn lsn(&self, page: u32) -> u64
        ensures { result ≡ lsn_of (page_of self.now page) }
    {
        match slot_at(&self.slots, page) {
            Some(bytes) => read_u64(bytes.as_slice(), LSN),
            None => 0,
        }
    }

    /// These are the page's bytes.
    pub(crate) fn set(&mut self, alloc: Global, page: u32, bytes: &[u8]) -> Result<(), NoMemory>
        requires within { page < length self.old }
        requires size { length bytes.now ≡ PAGE }
        ensures ok { OnOk result (self.new ≡ slice_set self.old page (Some bytes.now)) }
    {
        let old = taken(&mut self.slots, alloc, page)?;
        put_slot(&mut self.slots, page, Some(old.filled(bytes)));
        Ok(())
    }

    /// Writes a piece over the page's bytes.
    pub(crate) fn write(
        &mut self,
        alloc: Global,
        page: u32,
        at: u16,
        piece: &[u8],
    ) -> Result<(), NoMemory>
        requires within { page < length self.old }
        requires ends { at + length piece.now ≤ PAGE }
        ensures ok { OnOk result (HasInstead page (with_bytes at piece.now (page_of self.old page)) self.old self.new) }
    {
        let old = taken(&mut self.slots, alloc, page)?;
        put_slot(
            &mut self.slots,
            page,
            Some(old.written(usize::from(at), piece)),
        );
        Ok(())
    }

    /// The page is zeros.
    pub(crate) fn clear(&mut self, alloc: Global, page: u32) -> Result<(), NoMemory>
        requires within { page < length self.old }
        ensures ok { OnOk result (HasInstead page blank self.old self.new) }
    {
        let zeros = PageBytes::zeros(alloc)?;
        put_slot(&mut self.slots, page, Some(zeros));
        Ok(())
    }

    /// The page has its number and this LSN.
    pub(crate) fn stamp(&mut self, alloc: Global, page: u32, lsn: u64) -> Result<(), NoMemory>
        requires within { page < length self.old }
        ensures ok { OnOk result (HasInstead page (stamped page lsn (page_of self.old page)) self.old self.new) }
    {
        let old = taken(&mut self.slots, alloc, page)?;
        put_slot(&mut self.slots, page, Some(old.stamped(page, lsn)));
        Ok(())
    }
}
