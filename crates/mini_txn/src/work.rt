//! What is under way: the pool and the log, the pages that are dealt with, and the records that stand.
//! `MiniTxn` alone calls this, and gives it the form of the trait.

ghost use Rattle.std.specs.Prelude.{◌≡◌, ℕ, ◌+◌, ◌<◌, ◌≤◌, ◌↔◌, [], ◌∷◌, ◌++◌, true, false, length, None, is_some, IsTrue, IsOk, IfOk, OnOk, OnErr, Err, Ok};
ghost use Rattle.stored_pages.specs.Words.{u32_at};
ghost use Rattle.log_format.specs.declared.group.Record.TheVariants.{Put, Fresh};
ghost use Rattle.redo_log.specs.View.{room_of};
ghost use Rattle.buffer_pool.specs.Frames.{HasOneMore, slot_of};
ghost use Rattle.store_api.specs.declared.visits.FreshBad.TheVariants.{Again as FreshAgain, NoMemory as NoFreshMemory};
ghost use Rattle.store_api.specs.declared.visits.Visit.TheVariants.{Again as VisitAgain};
ghost use Rattle.mtr.specs.declared.store.TheConstants.{MOST_VISITED};
ghost use Rattle.mtr.specs.Seen.{is_in, visit, IsShut, IsWithin, IsShown};
ghost use Rattle.mtr.specs.Calls.{Asks, Makes, Puts, Commits, GivesUp};
ghost use Rattle.mini_txn.specs.Dealt.{pages_of};
ghost use Rattle.mini_txn.specs.Edits.{edited};
ghost use Rattle.mini_txn.specs.Grouped.{IsGrouped};
ghost use Rattle.mini_txn.specs.View.{body_of, standing_in, seen_in, state_of, IsResident, IsReadable, IsRead, IsPut, Begins, Writes, Blanks};

use crate::dealt::Dealt;
use crate::edits::Edits;
use crate::placing::{keep_all, place_copies, release_all, take_frame};
use buffer_pool::Pool;
use redo_log::Log;
use std::alloc::Global;
use std::marker::Model;
use store_api::{FreshBad, NoMemory, PageRule, Visit};
use stored_pages::layout::{PAGE, PAGE_COUNT};
use stored_pages::read_u32;

/// A mini-transaction under way. Contracts see the pool and the log without its puts, its copies and its records.
#[derive(Drop)]
pub struct Work {
    pool: Pool,
    log: Log,
    dealt: Dealt,
    edits: Edits,
    told: bool,
}

impl Model for Work {
    ghost use Rattle.mini_txn.specs.View.{MiniView, IsMini};

    ghost Value = { MiniView };

    ghost view = { λ m. record { pool = m.pool; log = m.log; dealt = m.dealt; records = m.edits; told = m.told } };

    ghost invariant = { λ m. IsMini m.pool m.dealt m.edits m.told };
}

/// The page with the mini-transaction's own puts.
pub fn shown_in<'a>(pool: &'a Pool, dealt: &'a Dealt, page: u32) -> &'a [u8]
    requires { IsReadable pool.now dealt.now page }
    ensures body { body_of result.now ≡ seen_in pool.now dealt.now page }
    ensures size { length result.now ≡ PAGE }
{
    match dealt.copy(page) {
        Some(bytes) => bytes,
        None => pool.bytes(page),
    }
}

/// Whether page 0, if these bytes are its, counts no more pages than the pool may hold.
fn counts_few(pool: &Pool, bytes: &[u8]) -> bool
    requires { length bytes.now ≡ PAGE }
    ensures { IsTrue result ↔ (u32_at PAGE_COUNT (body_of bytes.now) ≤ length pool.now.slots) }
{
    read_u32(bytes, PAGE_COUNT) <= pool.pages()
}

/// Whether page 0 of a pool counts no more pages than the pool may hold.
fn pool_counts_few(pool: &Pool) -> bool
    ensures { IsTrue result ↔ (u32_at PAGE_COUNT (standing_in pool.now 0) ≤ length pool.now.slots) }
{
    if pool.is_standing(0) {
        counts_few(pool, pool.bytes(0))
    } else {
        true
    }
}

/// Whether pages are told still, once bytes were put in a page.
pub fn tells(told: bool, pool: &Pool, dealt: &Dealt, page: u32) -> bool
    requires { IsReadable pool.now dealt.now page }
    ensures was { IsTrue result → IsTrue told }
    ensures few { IsTrue result → page ≡ 0 → u32_at PAGE_COUNT (seen_in pool.now dealt.now page) ≤ length pool.now.slots }
    ensures stays { IsTrue told → (page ≡ 0 → u32_at PAGE_COUNT (seen_in pool.now dealt.now page) ≤ length pool.now.slots) → IsTrue result }
{
    if page == 0 && told {
        counts_few(pool, shown_in(pool, dealt, page))
    } else {
        told
    }
}

/// Puts bytes in a page's copy. The first put of a page copies it.
pub fn write_in(pool: &Pool, dealt: &mut Dealt, page: u32, at: u16, bytes: &[u8])
    requires dealt_with { IsTrue (is_in page (pages_of dealt.old)) }
    requires readable { IsReadable pool.now dealt.old page }
    requires begins { 20 ≤ at }
    requires ends { at + length bytes.now ≤ PAGE }
    ensures { Writes page at bytes.now pool.now dealt.old dealt.new }
{
    if dealt.copy(page).is_none() {
        dealt.set(page, pool.bytes(page));
    }
    dealt.write(page, at, bytes);
}

/// The page has a copy of zeros, and a frame if there is one for it.
fn blank_in(pool: &mut Pool, dealt: &mut Dealt, page: u32)
    requires resident { IsResident pool.old }
    requires few { length (visit page (pages_of dealt.old)) ≤ MOST_VISITED }
    ensures { Blanks page pool.old dealt.old pool.new dealt.new }
{
    take_frame(pool, page);
    dealt.visit(page);
    dealt.set(page, &[0; PAGE]);
}

impl Work {
    /// Nothing was put yet. It fixes all pages of the pool, so that none is given up.
    pub fn new(alloc: Global, pool: Pool, log: Log) -> Result<Work, NoMemory>
        ensures { IfOk result (λ m. Begins pool log m) }
    {
        let dealt = Dealt::new(alloc)?;
        let edits = Edits::new(alloc)?;
        let mut pool = pool;
        keep_all(&mut pool);
        let told = pool_counts_few(&pool);
        Ok(Work {
            pool,
            log,
            dealt,
            edits,
            told,
        })
    }

    pub fn pool(&self) -> &Pool
        ensures { result.now ≡ self.now.pool }
    {
        &self.pool
    }

    pub fn log(&self) -> &Log
        ensures { result.now ≡ self.now.log }
    {
        &self.log
    }

    /// The pool and the log, without what is under way.
    pub fn into_parts(self) -> (Pool, Log)
        ensures pool { result.0 ≡ self.pool }
        ensures log { result.1 ≡ self.log }
    {
        let Work {
            pool,
            log,
            dealt,
            edits,
            told: _,
        } = self;
        drop(dealt);
        drop(edits);
        (pool, log)
    }

    /// One frame more, without a page, in the slot of a page that has none.
    pub fn add_frame(&mut self, alloc: Global, page: u32) -> Result<(), NoMemory>
        requires within { page < length self.old.pool.slots }
        requires bare { is_some (slot_of self.old.pool page) ≡ false }
        ensures ok { OnOk result (HasOneMore page self.old.pool self.new.pool) }
        ensures rest { record self.new { pool = self.old.pool } ≡ self.old }
        ensures err { OnErr result (self.new ≡ self.old) }
    {
        self.pool.add_frame(alloc, page)
    }

    /// Deals with a page, if it can be read.
    pub fn reach(&mut self, page: u32) -> Result<(), Visit>
        requires { length (visit page (pages_of self.old.dealt)) ≤ MOST_VISITED }
        ensures asks { Asks page (state_of self.old) result (state_of self.new) }
        ensures seen { seen_in self.new.pool self.new.dealt page ≡ seen_in self.old.pool self.old.dealt page }
        ensures reached { OnOk result (IsTrue (is_in page (pages_of self.new.dealt))) }
        ensures dealt_with { IsTrue (is_in page (pages_of self.old.dealt)) → IsOk result }
        ensures shut { IsShut page (state_of self.old) → result ≡ Err VisitAgain }
        ensures read { IsRead self.old self.new }
    {
        if self.dealt.contains(page) || self.pool.is_standing(page) {
            self.dealt.visit(page);
            return Ok(());
        }
        if self.pool.is_pooled(page) || self.pool.has_idle() {
            return Err(Visit::Bad {
                page,
                rule: PageRule::Sum as u8,
            });
        }
        Err(Visit::Again)
    }

    /// A page that is dealt with, with the puts.
    pub fn shown(&self, page: u32) -> &[u8]
        requires { IsTrue (is_in page (pages_of self.now.dealt)) }
        ensures shown { IsShown (seen_in self.now.pool self.now.dealt page) result.now }
        ensures size { length result.now ≡ PAGE }
    {
        shown_in(&self.pool, &self.dealt, page)
    }

    /// Makes the page zeros.
    pub fn make(&mut self, page: u32) -> Result<(), FreshBad>
        requires few { length (visit page (pages_of self.old.dealt)) ≤ MOST_VISITED }
        requires within { IsWithin page (state_of self.old) }
        ensures made { OnOk result (Makes page (state_of self.old) (state_of self.new)) }
        ensures refused { OnErr result (state_of self.new ≡ state_of self.old) }
        ensures shut { IsShut page (state_of self.old) → result ≡ Err FreshAgain }
        ensures again { result ≡ Err FreshAgain → IsShut page (state_of self.old) }
        ensures memory { result ≡ Err NoFreshMemory → (state_of self.old).spare < 5 }
        ensures records { OnOk result (self.new.records ≡ self.old.records ++ Fresh page ∷ []) }
        ensures log { self.new.log ≡ self.old.log }
        ensures err { OnErr result (self.new ≡ self.old) }
    {
        if !self.dealt.contains(page) && !self.pool.is_pooled(page) && !self.pool.has_idle() {
            return Err(FreshBad::Again);
        }
        if self.edits.spare() < 5 {
            return Err(FreshBad::NoMemory);
        }
        blank_in(&mut self.pool, &mut self.dealt, page);
        self.edits.add_fresh(page);
        Ok(())
    }

    /// Puts bytes in a page that is dealt with.
    pub fn put(&mut self, page: u32, at: u16, bytes: &[u8]) -> Result<(), NoMemory>
        requires begins { 20 ≤ at }
        requires ends { at + length bytes.now ≤ PAGE }
        requires dealt_with { IsTrue (is_in page (pages_of self.old.dealt)) }
        ensures put { OnOk result (Puts page at bytes.now (state_of self.old) (state_of self.new)) }
        ensures refused { OnErr result (state_of self.new ≡ state_of self.old) }
        ensures memory { OnErr result ((state_of self.old).spare < length bytes.now + 9) }
        ensures records { OnOk result (self.new.records ≡ self.old.records ++ Put page at bytes.now ∷ []) }
        ensures pool { self.new.pool ≡ self.old.pool }
        ensures log { self.new.log ≡ self.old.log }
        ensures err { OnErr result (self.new ≡ self.old) }
    {
        if self.edits.spare() < bytes.len() + 9 {
            return Err(NoMemory);
        }
        write_in(&self.pool, &mut self.dealt, page, at, bytes);
        self.edits.add_put(page, at, bytes);
        self.told = tells(self.told, &self.pool, &self.dealt, page);
        Ok(())
    }

    /// Makes all the puts stand at once, with one group of the log.
    pub fn commit(&mut self) -> Result<(), NoMemory>
        ensures committed { OnOk result (Commits (state_of self.old) (state_of self.new)) }
        ensures grouped { OnOk result (IsGrouped self.old.records self.old.log self.new.log) }
        ensures edits { (page : ℕ) → seen_in self.old.pool self.old.dealt page ≡ edited page self.old.records (standing_in self.old.pool page) }
        ensures frames { OnOk result (IsTrue self.old.told → (lsn page : ℕ) → lsn + 1 ≡ self.new.log.next → IsPut self.old self.new lsn page) }
        ensures ends { OnOk result (self.new.records ≡ []) }
        ensures suffices { room_of self.old.records ≤ self.old.log.spare → IsOk result }
        ensures err { OnErr result (self.new ≡ self.old) }
    {
        let lsn = self.edits.append(&mut self.log)?;
        place_copies(&mut self.pool, &self.dealt, lsn);
        self.dealt.forget();
        self.edits.clear();
        Ok(())
    }

    /// Drops the puts.
    pub fn give_up(&mut self)
        ensures gives_up { GivesUp (state_of self.old) (state_of self.new) }
        ensures log { self.new.log ≡ self.old.log }
        ensures ends { self.new.records ≡ [] }
    {
        release_all(&mut self.pool, &mut self.dealt);
        self.edits.clear();
    }
}
