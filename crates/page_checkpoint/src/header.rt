//! Page 0 as it says the next run. All else of it stays.
//! Nothing here meets the disk.

ghost use Rattle.std.specs.Prelude.{◌≡◌, ◌+◌, ◌≤◌, ◌++◌, length, take, drop};
ghost use Rattle.stored_pages.specs.Reading.{IsGoodPage};
ghost use Rattle.law_logged_pages.specs.Stages.{AreBytes};
ghost use Rattle.page_checkpoint.specs.Header.{IsNextHeader};

use big_endian::u64_bytes;
use stored_pages::layout::{FIRST_LSN, LSN, NUMBER, PAGE, RUN, SUM};
use sum64::fnv;

/// The bytes with a piece in place of those that stood there.
fn with_piece(bytes: &[u8; PAGE], at: usize, piece: &[u8]) -> [u8; PAGE]
    requires { at + length piece.now ≤ PAGE }
    ensures { result ≡ take at bytes.now ++ (piece.now ++ drop (at + length piece.now) bytes.now) }
{
    let mut new = *bytes;
    new[at..at + piece.len()].copy_from_slice(piece);
    new
}

/// The page with the number 0, this LSN, this run and this first LSN, and a sum that is right.
pub fn next_header(page: &[u8; PAGE], lsn: u64, run: u64, first: u64) -> [u8; PAGE]
    ensures good { IsGoodPage 0 result }
    ensures front { AreBytes 8 result }
    ensures header { IsNextHeader lsn run first page.now result }
{
    let numbered = with_piece(page, NUMBER, &[0; 4]);
    let stamped = with_piece(&numbered, LSN, &u64_bytes(lsn));
    let of_run = with_piece(&stamped, RUN, &u64_bytes(run));
    let begun = with_piece(&of_run, FIRST_LSN, &u64_bytes(first));
    with_piece(&begun, SUM, &u64_bytes(fnv(&begun[NUMBER..])))
}
