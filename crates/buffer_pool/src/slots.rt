//! The slots of a pool as a vector: what stands in one, and the edits of one.
//! The pool alone calls these.

ghost use Rattle.std.specs.Prelude.{◌≡◌, ◌-◌, ◌^◌, ◌<◌, length, replicate, slice_index_or, slice_set, true, option_map, option_copied, IfOk, IfSome, Some, None};
ghost use Rattle.std.specs.List.{swap};
ghost use Rattle.stored_pages.specs.declared.layout.TheConstants.{PAGE};
ghost use Rattle.buffer_pool.specs.Frames as frames;

use crate::frame::{Content, Frame};
use std::alloc::Global;
use std::mem;
use store_api::NoMemory;

pub type Slot = Option<Frame>;

pub fn empty_slots(alloc: Global, pages: u32) -> Result<Vec<Slot>, NoMemory>
    ensures { IfOk result (λ slots. slots.items ≡ replicate pages None) }
{
    let mut slots = Vec::with_capacity(alloc, pages as usize)?;
    for _slot in 0..pages {
        slots.push(None)?;
    }
    Ok(slots)
}

pub fn frame_at(slots: &[Slot], page: u32) -> Option<&Frame>
    ensures { option_copied result ≡ slice_index_or slots.now page None }
{
    match slots.get(page as usize) {
        Some(slot) => slot.as_ref(),
        None => None,
    }
}

/// Puts something else into a slot, and gives what stood there.
pub fn put_slot(slots: &mut Vec<Slot>, page: u32, slot: Slot) -> Slot
    requires { page < length slots.old.items }
    ensures value { result ≡ slice_index_or slots.old.items page None }
    ensures items { slots.new.items ≡ slice_set slots.old.items page slot }
{
    mem::replace(&mut slots[page as usize], slot)
}

fn fixed(slot: Slot) -> Slot
    requires { IfSome slot (λ frame. frame.fixes < 2 ^ 32 - 1) }
    ensures { result ≡ option_map frames.fixed slot }
{
    Some(slot?.fixed())
}

fn unfixed(slot: Slot) -> Slot
    ensures { result ≡ option_map frames.unfixed slot }
{
    Some(slot?.unfixed())
}

fn changed(slot: Slot, bytes: &[u8]) -> Slot
    requires { length bytes.now ≡ PAGE }
    ensures { result ≡ option_map (frames.changed bytes.now) slot }
{
    Some(slot?.changed(bytes))
}

fn placed(slot: Slot, lsn: u64) -> Slot
    ensures { result ≡ option_map (frames.placed lsn) slot }
{
    Some(slot?.placed(lsn))
}

fn brought(slot: Slot, bytes: &[u8], content: Content) -> Slot
    requires { length bytes.now ≡ PAGE }
    ensures { result ≡ option_map (λ _. record { bytes = bytes.now; content = content; fixes = 1 }) slot }
{
    Some(slot?.brought(bytes, content))
}

pub fn fix_slot(slots: &mut Vec<Slot>, page: u32)
    requires within { page < length slots.old.items }
    requires few { IfSome (slice_index_or slots.old.items page None) (λ frame. frame.fixes < 2 ^ 32 - 1) }
    ensures { slots.new.items ≡ slice_set slots.old.items page (option_map frames.fixed (slice_index_or slots.old.items page None)) }
{
    let slot = put_slot(slots, page, None);
    put_slot(slots, page, fixed(slot));
}

pub fn unfix_slot(slots: &mut Vec<Slot>, page: u32)
    requires { page < length slots.old.items }
    ensures { slots.new.items ≡ slice_set slots.old.items page (option_map frames.unfixed (slice_index_or slots.old.items page None)) }
{
    let slot = put_slot(slots, page, None);
    put_slot(slots, page, unfixed(slot));
}

pub fn change_slot(slots: &mut Vec<Slot>, page: u32, bytes: &[u8])
    requires within { page < length slots.old.items }
    requires size { length bytes.now ≡ PAGE }
    ensures { slots.new.items ≡ slice_set slots.old.items page (option_map (frames.changed bytes.now) (slice_index_or slots.old.items page None)) }
{
    let slot = put_slot(slots, page, None);
    put_slot(slots, page, changed(slot, bytes));
}

pub fn place_slot(slots: &mut Vec<Slot>, page: u32, lsn: u64)
    requires { page < length slots.old.items }
    ensures { slots.new.items ≡ slice_set slots.old.items page (option_map (frames.placed lsn) (slice_index_or slots.old.items page None)) }
{
    let slot = put_slot(slots, page, None);
    put_slot(slots, page, placed(slot, lsn));
}

/// Gives the frame of an idle slot to a page, with these bytes.
pub fn move_frame(slots: &mut Vec<Slot>, from: u32, page: u32, bytes: &[u8], content: Content)
    requires from { from < length slots.old.items }
    requires idle { frames.is_idle_at slots.old.items from ≡ true }
    requires within { page < length slots.old.items }
    requires size { length bytes.now ≡ PAGE }
    ensures { slots.new.items ≡ slice_set (swap slots.old.items from page) page (Some (record { bytes = bytes.now; content = content; fixes = 1 })) }
{
    slots.swap(from as usize, page as usize);
    let slot = put_slot(slots, page, None);
    put_slot(slots, page, brought(slot, bytes, content));
}
