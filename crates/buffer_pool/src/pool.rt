//! The pool: a slot for each page of the file, and frames in some of them.
//! Mini-transactions fix and change pages; who writes pages out tells the pool that they are placed.

ghost use Rattle.std.specs.Prelude.{◌≡◌, ◌⊎◌, ◌-◌, ◌^◌, ◌<◌, ◌≤◌, length, replicate, is_some, true, false, IsTrue, IsOk, IfOk, IfErr, OnOk, OnErr, Err, Some, None, MatchOption};
ghost use Rattle.buffer_pool.specs.Frames.{HasOneMore, slot_of, is_pooled, is_dirty, is_standing, bytes_of, fixes_of, at_slot, fixed, unfixed, changed, placed, next_idle, with_used, moved};
ghost use Rattle.buffer_pool.specs.Fixing.{IsBrought, IsFixBad, Looks};
ghost use Rattle.buffer_pool.specs.declared.frame.Content.TheVariants.{New, Clean};
ghost use Rattle.buffer_pool.specs.declared.fixing.FixBad.TheVariants.{Again as FixAgain};

use crate::fixing::{FixBad, read_page};
use crate::frame::{Content, Frame};
use crate::order::{last_idle, order_of, use_page};
use crate::slots::{
    Slot, change_slot, empty_slots, fix_slot, frame_at, move_frame, place_slot, put_slot,
    unfix_slot,
};
use lru::LruCache;
use std::alloc::Global;
use std::marker::Model;
use store_api::{Disk, NoMemory};
use stored_pages::layout::PAGE;

/// The pages of a file in memory. Contracts see each page's slot, and the pages in the order of their last use.
#[derive(Drop)]
pub struct Pool {
    slots: Vec<Slot>,
    order: LruCache<u32, ()>,
}

impl Model for Pool {
    ghost use Rattle.std.specs.Map.{keys_of};
    ghost use Rattle.buffer_pool.specs.Frames.{PoolView, IsPool};

    ghost Value = { PoolView };

    ghost view = { λ p. record { slots = p.slots.items; order = keys_of p.order.entries } };

    ghost invariant = { λ p. IsPool p.slots.items (keys_of p.order.entries) };
}

impl Pool {
    /// A pool without frames, for a file of so many pages at most.
    pub fn new(alloc: Global, pages: u32) -> Result<Pool, NoMemory>
        ensures { IfOk result (λ pool. pool.slots ≡ replicate pages None) }
    {
        Ok(Pool {
            slots: empty_slots(alloc, pages)?,
            order: order_of(alloc, pages)?,
        })
    }

    /// Whether a frame stands in the page's slot.
    pub fn has_frame(&self, page: u32) -> bool
        ensures { result ≡ is_some (slot_of self.now page) }
    {
        frame_at(&self.slots, page).is_some()
    }

    /// One frame more, without a page, in a slot that has none. So there are no more frames than pages.
    pub fn add_frame(&mut self, alloc: Global, page: u32) -> Result<(), NoMemory>
        requires within { page < length self.old.slots }
        requires bare { is_some (slot_of self.old page) ≡ false }
        ensures ok { OnOk result (HasOneMore page self.old self.new) }
        ensures err { OnErr result (self.new ≡ self.old) }
    {
        let frame = Frame::new(alloc)?;
        put_slot(&mut self.slots, page, Some(frame));
        Ok(())
    }

    /// How many pages the file may have.
    pub fn pages(&self) -> u32
        ensures { result ≡ length self.now.slots }
    {
        self.slots.len() as u32
    }

    pub fn is_pooled(&self, page: u32) -> bool
        ensures { result ≡ is_pooled self.now page }
    {
        match frame_at(&self.slots, page) {
            Some(frame) => frame.holds_page(),
            None => false,
        }
    }

    pub fn is_dirty(&self, page: u32) -> bool
        ensures { result ≡ is_dirty self.now page }
    {
        match frame_at(&self.slots, page) {
            Some(frame) => frame.is_dirty(),
            None => false,
        }
    }

    /// Whether the page is in the pool, and isn't a new one that nobody has written yet.
    pub fn is_standing(&self, page: u32) -> bool
        ensures { result ≡ is_standing self.now page }
    {
        match frame_at(&self.slots, page) {
            Some(frame) => frame.is_written(),
            None => false,
        }
    }

    /// Whether there is a frame for a page that isn't in the pool.
    pub fn has_idle(&self) -> bool
        ensures { result ≡ is_some (next_idle self.now) }
    {
        last_idle(&self.order, &self.slots).is_some()
    }

    /// How often the page is fixed.
    pub fn fixes(&self, page: u32) -> u32
        ensures { result ≡ fixes_of self.now page }
    {
        match frame_at(&self.slots, page) {
            Some(frame) => frame.fixes(),
            None => 0,
        }
    }

    /// The page's bytes.
    pub fn bytes(&self, page: u32) -> &[u8]
        requires { IsTrue (is_pooled self.now page) }
        ensures value { result.now ≡ bytes_of self.now page }
        ensures size { length result.now ≡ PAGE }
    {
        match frame_at(&self.slots, page) {
            Some(frame) => frame.bytes(),
            None => unreachable!(),
        }
    }

    /// Fixes a page that is in the pool.
    pub fn hold(&mut self, page: u32)
        requires within { page < length self.old.slots }
        requires there { IsTrue (is_pooled self.old page) }
        requires few { fixes_of self.old page < 2 ^ 32 - 1 }
        ensures { self.new ≡ with_used page (at_slot page fixed self.old) }
    {
        fix_slot(&mut self.slots, page);
        use_page(&mut self.order, page);
    }

    /// Gives the frame that goes next to a page, which is fixed once.
    fn bring(&mut self, from: u32, page: u32, bytes: &[u8], content: Content)
        requires within { page < length self.old.slots }
        requires from { next_idle self.old ≡ Some from }
        requires size { length bytes.now ≡ PAGE }
        ensures { self.new ≡ moved from page (record { bytes = bytes.now; content = content; fixes = 1 }) self.old }
    {
        move_frame(&mut self.slots, from, page, bytes, content);
        use_page(&mut self.order, page);
    }

    /// Fixes a page, so that it stays. One that isn't in the pool is read into the frame that goes next.
    pub fn fix<D: Disk>(&mut self, disk: &mut D, page: u32) -> Result<(), FixBad>
        requires within { page < length self.old.slots }
        requires few { fixes_of self.old page < 2 ^ 32 - 1 }
        ensures there { IsTrue (is_pooled self.old page) → IsOk result × (self.new ≡ with_used page (at_slot page fixed self.old)) × (D.past disk.new ≡ D.past disk.old) }
        ensures brought { is_pooled self.old page ≡ false → OnOk result (IsBrought page (D.past disk.old) self.old self.new) }
        ensures refused { IfErr result (λ why. (is_pooled self.old page ≡ false) × (self.new ≡ self.old) × IsFixBad page self.old (D.past disk.old) (D.past disk.new) why) }
        ensures again { is_pooled self.old page ≡ false → next_idle self.old ≡ None → result ≡ Err FixAgain }
        ensures looks { (D.past disk.new ≡ D.past disk.old) ⊎ Looks (D.past disk.old) (D.past disk.new) }
        ensures faults { (D.past disk.old).faults ≤ (D.past disk.new).faults }
    {
        if self.is_pooled(page) {
            self.hold(page);
            return Ok(());
        }
        match last_idle(&self.order, &self.slots) {
            Some(from) => {
                let read = read_page(disk, page)?;
                self.bring(from, page, read.as_bytes(), Content::Clean);
                Ok(())
            }
            None => Err(FixBad::Again),
        }
    }

    /// Fixes zeros for a page that isn't in the pool, whatever stands on the disk. Until it is changed, the page goes
    /// with its last fix. It answers whether there was a frame.
    pub fn fix_new(&mut self, page: u32) -> bool
        requires within { page < length self.old.slots }
        requires absent { is_pooled self.old page ≡ false }
        ensures { MatchOption (next_idle self.old) ((result ≡ false) × (self.new ≡ self.old)) (λ from. (result ≡ true) × (self.new ≡ moved from page (record { bytes = replicate PAGE 0; content = New; fixes = 1 }) self.old)) }
    {
        match last_idle(&self.order, &self.slots) {
            Some(from) => {
                self.bring(from, page, &[0; PAGE], Content::New);
                true
            }
            None => false,
        }
    }

    /// Fixes a page that isn't in the pool, with these bytes, which stand on the disk. It answers whether there was a frame.
    pub fn let_in(&mut self, page: u32, bytes: &[u8]) -> bool
        requires within { page < length self.old.slots }
        requires absent { is_pooled self.old page ≡ false }
        requires size { length bytes.now ≡ PAGE }
        ensures { MatchOption (next_idle self.old) ((result ≡ false) × (self.new ≡ self.old)) (λ from. (result ≡ true) × (self.new ≡ moved from page (record { bytes = bytes.now; content = Clean; fixes = 1 }) self.old)) }
    {
        match last_idle(&self.order, &self.slots) {
            Some(from) => {
                self.bring(from, page, bytes, Content::Clean);
                true
            }
            None => false,
        }
    }

    /// Takes a fix back.
    pub fn unfix(&mut self, page: u32)
        requires { 0 < fixes_of self.old page }
        ensures { self.new ≡ at_slot page unfixed self.old }
    {
        unfix_slot(&mut self.slots, page);
    }

    /// Puts other bytes into a fixed page, which the disk doesn't have.
    pub fn change(&mut self, page: u32, bytes: &[u8])
        requires fixed { 0 < fixes_of self.old page }
        requires size { length bytes.now ≡ PAGE }
        ensures { self.new ≡ at_slot page (changed bytes.now) self.old }
    {
        change_slot(&mut self.slots, page, bytes);
    }

    /// The page is on the disk as it was with that LSN. It is clean, if it was not changed since.
    pub fn placed(&mut self, page: u32, lsn: u64)
        requires { IsTrue (is_pooled self.old page) }
        ensures { self.new ≡ at_slot page (placed lsn) self.old }
    {
        place_slot(&mut self.slots, page, lsn);
    }
}
