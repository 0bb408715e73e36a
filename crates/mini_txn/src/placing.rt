//! What a mini-transaction does to the pool: it takes frames for new pages, puts its copies there, and gives frames back.
//! None of these calls takes memory, and none gives a page up.

ghost use Rattle.std.specs.Prelude.{◌≡◌, ℕ, ◌<◌, ◌++◌, ◌∷◌, [], List, drop, length, IsTrue};
ghost use Rattle.buffer_pool.specs.Frames.{is_pooled, fixes_of, at_slot, changed};
ghost use Rattle.mini_txn.specs.declared.dealt.Entry.{Entry as EntryValue};
ghost use Rattle.mini_txn.specs.View.{IsResident, AreHeld, FixesPage, KeepsPages, TakesFrame, Places, IsStampOf, stamped};

use crate::dealt::{Dealt, Entry};
use big_endian::{u32_bytes, u64_bytes};
use buffer_pool::Pool;
use stored_pages::layout::{FIELDS, NUMBER, PAGE};

/// Fixes a page that nobody has fixed, if it is in the pool.
fn keep(pool: &mut Pool, page: u32)
    requires { page < length pool.old.slots }
    ensures { FixesPage page pool.old pool.new }
{
    if pool.is_pooled(page) && pool.fixes(page) == 0 {
        pool.hold(page);
    }
}

/// Fixes each page of the pool that nobody has fixed, so that none is given up.
pub fn keep_all(pool: &mut Pool)
    ensures { KeepsPages pool.old pool.new }
{
    for page in 0..pool.pages() {
        keep(pool, page);
    }
}

/// Takes a frame for a page, where it has none and there is one.
pub fn take_frame(pool: &mut Pool, page: u32)
    requires { IsResident pool.old }
    ensures { TakesFrame page pool.old pool.new }
{
    if page < pool.pages() && !pool.is_pooled(page) {
        pool.fix_new(page);
    }
}

/// A page's bytes with its number and an LSN.
#[tactic(auto, unfolding(schema_codec::specs::Numbers::u32_bytes, schema_codec::specs::Numbers::u64_bytes))]
fn with_stamp(bytes: &[u8; PAGE], page: u32, lsn: u64) -> [u8; PAGE]
    ensures stamped { result ≡ stamped page lsn bytes.now }
    ensures behind { drop 20 result ≡ drop 20 bytes.now }
    ensures size { length bytes.now ≡ PAGE }
{
    let p = u32_bytes(page);
    let l = u64_bytes(lsn);
    let stamp = [
        p[0], p[1], p[2], p[3], l[0], l[1], l[2], l[3], l[4], l[5], l[6], l[7],
    ];
    let mut changed = *bytes;
    changed[NUMBER..FIELDS].copy_from_slice(&stamp);
    changed
}

/// Puts a page into its frame, with its number and an LSN.
fn place(pool: &mut Pool, page: u32, bytes: &[u8; PAGE], lsn: u64)
    requires { 0 < fixes_of pool.old page }
    ensures { (placed : List ℕ) × IsStampOf page lsn bytes.now placed × (pool.new ≡ at_slot page (changed placed) pool.old) }
{
    let placed = with_stamp(bytes, page, lsn);
    pool.change(page, &placed);
}

/// Puts the copy of an entry into the pool, if there is one, with the LSN of its group.
fn place_entry(pool: &mut Pool, entry: &Entry, lsn: u64)
    requires { IsTrue (is_pooled pool.old entry.now.page) → 0 < fixes_of pool.old entry.now.page }
    ensures { (front : List EntryValue) → Places lsn pool.old (front ++ entry.now ∷ []) pool.new front }
{
    if entry.copied && pool.is_pooled(entry.page) {
        place(pool, entry.page, &entry.bytes, lsn);
    }
}

/// Puts all copies into the pool, with the LSN of their group.
pub fn place_copies(pool: &mut Pool, dealt: &Dealt, lsn: u64)
    requires { AreHeld pool.old dealt.now }
    ensures { Places lsn pool.old dealt.now pool.new [] }
{
    let mut left = dealt.len();
    while left > 0 {
        left -= 1;
        place_entry(pool, dealt.at(left), lsn);
    }
}

/// Gives the frame back that was taken for a page, where nobody has written it.
fn release(pool: &mut Pool, page: u32)
    requires { IsResident pool.old }
    ensures { KeepsPages pool.old pool.new }
{
    if pool.is_pooled(page) && !pool.is_standing(page) {
        pool.unfix(page);
    }
}

/// Forgets all copies, and gives the frames back that were taken.
pub fn release_all(pool: &mut Pool, dealt: &mut Dealt)
    requires { IsResident pool.old }
    ensures keeps { KeepsPages pool.old pool.new }
    ensures emptied { dealt.new ≡ [] }
{
    while dealt.len() > 0 {
        release(pool, dealt.last().page);
        dealt.drop_last();
    }
}
