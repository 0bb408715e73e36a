//! A log area that is read piece by piece: the payloads of the good blocks at a piece's front; and a single block's payload.
//! Who reads a log from a disk asks here; `scan` does the same for an area that stands in memory whole.

ghost use Rattle.std.specs.Prelude.{◌≡◌, ◌+◌, ◌^◌, ◌<◌, ◌≤◌, ◌++◌, ◌↔◌, ℕ, List, length, vec_len, vec_capacity, IsTrue, IfOk, OnErr};
ghost use Rattle.log_format.specs.Block.{payload_of, payloads};
ghost use Rattle.log_format.specs.Scan.{NoGroup, HasGoodFront, HasWhole};

use crate::block::{BLOCK, PAYLOAD};
use crate::scan::{is_good, payload};
use big_endian::u32_at;
use schema_codec::extend_reserved;
use std::alloc::AllocError;

/// Puts the payloads of the blocks in these bytes at the end, up to the first that isn't good, and answers how many are
/// good. The first block has this number.
pub fn put_payloads(
    bytes: &[u8],
    run: u64,
    number: u64,
    out: &mut Vec<u8>,
) -> Result<u64, AllocError>
    requires { number + length bytes.now < 2 ^ 64 }
    ensures good { IfOk result (λ n. HasGoodFront run number bytes.now n) }
    ensures payloads { IfOk result (λ n. out.new.items ≡ out.old.items ++ payloads n bytes.now) }
    ensures err { OnErr result (out.new.items ≡ out.old.items) }
{
    let blocks = bytes.len() / BLOCK;
    out.reserve(PAYLOAD * blocks)?;
    for at in 0..blocks {
        let block = &bytes[BLOCK * at..BLOCK * at + BLOCK];
        if !is_good(block, run, number + at as u64) {
            return Ok(at as u64);
        }
        extend_reserved(payload(block), out);
    }
    Ok(blocks as u64)
}

/// Puts the payload of a block at the end, where there is room for a block. Of no bytes it puts none. Whether the block is good
/// is not looked at.
pub fn put_payload(block: &[u8], out: &mut Vec<u8>)
    requires whole { 0 < length block.now → length block.now ≡ BLOCK }
    requires room { vec_len out.old + length block.now ≤ vec_capacity out.old }
    ensures items { out.new.items ≡ out.old.items ++ payload_of block.now }
    ensures grows { vec_capacity out.old ≤ vec_capacity out.new }
{
    if !block.is_empty() {
        extend_reserved(payload(block), out);
    }
}

/// Whether all bytes are there that the length at the front counts. If no group begins with these bytes then, none does
/// whatever stands behind them.
pub fn is_whole(bytes: &[u8]) -> bool
    ensures whole { IsTrue result ↔ HasWhole bytes.now }
    ensures settled { IsTrue result → (lsn : ℕ) (more : List ℕ) → NoGroup lsn bytes.now → NoGroup lsn (bytes.now ++ more) }
{
    bytes.len() >= 4 && bytes.len() - 4 >= u32_at(bytes, 0) as usize
}
