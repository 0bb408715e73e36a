//! Page 0 of files that keep rows in pages: how many pages there may be, and of which run the log is.
//! Nothing here meets the disk.

ghost use Rattle.std.specs.Prelude.{◌≡◌, length, IfOk, IfErr};
ghost use Rattle.stored_pages.specs.declared.layout.TheConstants.{PAGE};
ghost use Rattle.page_recovery.specs.Reading.{IsFileHeader};
ghost use Rattle.page_recovery.specs.Refused.{IsOther};

use crate::bad::RecoverBad;
use store_api::MOST_PAGES;
use stored_pages::layout::{FIRST_LSN, FIXED_PAGES, MAGIC, MAGIC_NUMBER, PAGE_COUNT, RUN, VERSION};
use stored_pages::{read_u32, read_u64};

/// The version of files that keep rows in pages.
const WITH_PAGES: u32 = 1;

/// What page 0 says: how many pages the file may have, the run of the log, and the LSN of its first group.
#[derive(Clone, Copy)]
pub struct Header {
    pub capacity: u32,
    pub run: u64,
    pub first: u64,
}

/// What a good page 0 says.
pub fn header_of(page: &[u8]) -> Result<Header, RecoverBad>
    requires { length page.now ≡ PAGE }
    ensures ok { IfOk result (λ header. IsFileHeader header.capacity header.run header.first page.now) }
    ensures other { IfErr result (IsOther page.now) }
{
    if read_u64(page, MAGIC) != MAGIC_NUMBER {
        return Err(RecoverBad::NoDatabase);
    }
    let version = read_u32(page, VERSION);
    if version != WITH_PAGES {
        return Err(RecoverBad::Version { found: version });
    }
    let capacity = read_u32(page, PAGE_COUNT);
    if !(FIXED_PAGES..=MOST_PAGES).contains(&capacity) {
        return Err(RecoverBad::Capacity { found: capacity });
    }
    Ok(Header {
        capacity,
        run: read_u64(page, RUN),
        first: read_u64(page, FIRST_LSN),
    })
}
