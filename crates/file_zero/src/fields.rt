//! The fields of page 0, and what another page in its place is.
//! Nothing here meets the disk.

ghost use Rattle.std.specs.Prelude.{◌≡◌, length, IfOk, IfErr};
ghost use Rattle.stored_pages.specs.declared.layout.TheConstants.{PAGE};
ghost use Rattle.law_crashes.specs.Header.{IsHeader};
ghost use Rattle.file_zero.specs.Refused.{IsOther};

use store_api::MountBad;
use stored_pages::layout::{FIRST_LSN, MAGIC, MAGIC_NUMBER, RUN, VERSION};
use stored_pages::{read_u32, read_u64};

/// What page 0 says: the run of the log, and the LSN of its first group.
#[derive(Clone, Copy)]
pub struct Header {
    pub run: u64,
    pub first: u64,
}

/// What a good page 0 says.
pub fn header_of(page: &[u8]) -> Result<Header, MountBad>
    requires { length page.now ≡ PAGE }
    ensures ok { IfOk result (λ header. IsHeader header.run header.first page.now) }
    ensures other { IfErr result (IsOther page.now) }
{
    if read_u64(page, MAGIC) != MAGIC_NUMBER {
        return Err(MountBad::NotInitialised);
    }
    let version = read_u32(page, VERSION);
    if version != 0 {
        return Err(MountBad::Version { found: version });
    }
    Ok(Header {
        run: read_u64(page, RUN),
        first: read_u64(page, FIRST_LSN),
    })
}
