//! A record is appended to an undo page within a mini-transaction that goes on: who calls it commits or gives up.
//! Where a page lacks room, another has to be taken for the log.

ghost use Rattle.std.specs.Prelude.{◌≡◌, ◌≢◌, ◌+◌, ◌<◌, ◌≤◌, length, IfOk, IfErr};
ghost use Rattle.mtr.specs.declared.store.TheConstants.{MOST_VISITED};
ghost use Rattle.mtr.specs.Seen.{visit, IsWithin};
ghost use Rattle.undo_log.specs.Appending.{Appends, IsAppendReason};

use crate::layout::{END, FIRST_RECORD};
use big_endian::u16_bytes;
use mtr::Mtr;
use store_api::{PageRule, SpaceBad, Visit};
use stored_pages::layout::PAGE;
use stored_pages::read_u16;

/// Appends a record that is spelled, and answers its place on the page.
pub fn append_in<M: Mtr>(m: &mut M, page: u32, record: &[u8]) -> Result<u16, SpaceBad>
    requires few { length (visit page (M.state m.old).visited) ≤ MOST_VISITED }
    requires some { page ≢ 0 }
    requires within { IsWithin page (M.state m.old) }
    requires long { length record.now < 65536 }
    ensures appended { IfOk result (λ at. Appends page at record.now (M.state m.old) (M.state m.new)) }
    ensures reason { IfErr result (IsAppendReason page record.now (M.state m.old) (M.state m.new)) }
{
    let bytes = m.bytes(page)?;
    let end = read_u16(bytes, END);
    if usize::from(end) < FIRST_RECORD {
        return Err(SpaceBad::Visit(Visit::Bad {
            page,
            rule: PageRule::Fields as u8,
        }));
    }
    let new_end = usize::from(end) + record.len();
    if new_end > PAGE {
        return Err(SpaceBad::Full);
    }
    m.put(page, end, record)?;
    m.put(page, END as u16, &u16_bytes(new_end as u16))?;
    Ok(end)
}
