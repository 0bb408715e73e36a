//! The slots of page 1: a log is opened in the first one that is free, within a mini-transaction that goes on.
//! Only this crate writes to page 1.

ghost use Rattle.std.specs.Prelude.{◌≡◌, ◌≢◌, ℕ, ◌+◌, ◌*◌, ◌<◌, ◌≤◌, length, IsTrue, IfOk, IfErr, OnOk, IfSome, IfNone};
ghost use Rattle.stored_pages.specs.declared.layout.TheConstants.{PAGE};
ghost use Rattle.stored_pages.specs.Words.{u64_at};
ghost use Rattle.mtr.specs.declared.store.TheConstants.{MOST_VISITED};
ghost use Rattle.mtr.specs.Seen.{is_in, visit, IsWithin};
ghost use Rattle.undo_log.specs.Slots.{place_of, slot_bytes, Opens, IsOpenReason, Closes, IsCloseReason};

use crate::layout::{FIRST_SLOT, ID, OPEN, SLOT, SLOT_PAGE, STATE};
use big_endian::{u32_bytes, u64_bytes};
use mtr::Mtr;
use store_api::{MOST_SESSIONS, SpaceBad};
use stored_pages::read_u64;

/// The first slot that no log has.
fn free_slot(page: &[u8]) -> Option<u16>
    requires { length page.now ≡ PAGE }
    ensures some { IfSome result (λ slot. (slot < MOST_SESSIONS) × (u64_at (place_of slot) page.now ≡ 0)) }
    ensures none { IfNone result ((slot : ℕ) → slot < MOST_SESSIONS → u64_at (place_of slot) page.now ≢ 0) }
{
    for slot in 0..MOST_SESSIONS {
        if read_u64(page, FIRST_SLOT + SLOT * slot) == 0 {
            return Some(slot as u16);
        }
    }
    None
}

/// What a slot of a log of one page holds.
fn bytes_of_slot(id: u64, page: u32) -> [u8; SLOT]
    ensures { result ≡ slot_bytes id page }
{
    let [a, b, c, d, e, f, g, h] = u64_bytes(id);
    let [i, j, k, l] = u32_bytes(page);
    [a, b, c, d, e, f, g, h, i, j, k, l, i, j, k, l]
}

/// Opens a log that begins on a page, in the first slot that is free, and answers the slot.
pub fn open_in<M: Mtr>(m: &mut M, id: u64, page: u32) -> Result<u16, SpaceBad>
    requires few { length (visit 1 (M.state m.old).visited) ≤ MOST_VISITED }
    requires some { (page ≢ 0) × (page ≢ 1) }
    requires dealt_with { IsTrue (is_in page (M.state m.old).visited) }
    requires within { IsWithin page (M.state m.old) }
    requires slots { IsWithin 1 (M.state m.old) }
    ensures opened { IfOk result (λ slot. Opens slot id page (M.state m.old) (M.state m.new)) }
    ensures reason { IfErr result (IsOpenReason (M.state m.old) (M.state m.new)) }
{
    let bytes = m.bytes(SLOT_PAGE)?;
    let Some(slot) = free_slot(bytes) else {
        return Err(SpaceBad::Full);
    };
    let at = FIRST_SLOT + SLOT * usize::from(slot);
    m.put(SLOT_PAGE, at as u16, &bytes_of_slot(id, page))?;
    m.put(page, ID as u16, &u64_bytes(id))?;
    m.put(page, STATE as u16, &[OPEN])?;
    Ok(slot)
}

/// Frees a slot: its log is open no more.
pub fn close_in<M: Mtr>(m: &mut M, slot: u16) -> Result<(), SpaceBad>
    requires few { length (visit 1 (M.state m.old).visited) ≤ MOST_VISITED }
    requires slot { slot < MOST_SESSIONS }
    requires within { IsWithin 1 (M.state m.old) }
    ensures closed { OnOk result (Closes slot (M.state m.old) (M.state m.new)) }
    ensures reason { IfErr result (IsCloseReason (M.state m.old) (M.state m.new)) }
{
    let at = FIRST_SLOT + SLOT * usize::from(slot);
    m.bytes(SLOT_PAGE)?;
    m.put(SLOT_PAGE, at as u16, &[0; SLOT])?;
    Ok(())
}
