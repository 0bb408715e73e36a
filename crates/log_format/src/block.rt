//! Blocks of 512 bytes, put where there is room for them. The layout stands in specs/Block.antt.
//! The log asks for the room; nothing here may run out of memory.

ghost use Rattle.std.specs.Prelude.{◌≡◌, ◌+◌, ◌-◌, ◌*◌, ◌^◌, ◌<◌, ◌≤◌, ◌++◌, length, replicate, vec_len, vec_capacity};
ghost use Rattle.log_format.specs.Block.{block_rest, block_bytes, AreBlocks, blocks_for};

use big_endian::u64_bytes;
use schema_codec::{extend_reserved, put_u16_reserved, put_u64_reserved};
use std::alloc::AllocError;
use sum64::fnv;

pub const BLOCK: usize = 512;

pub const PAYLOAD: usize = 484;

/// Zeros where there is room for them; a vector asks for memory only past its capacity.
fn put_zeros(count: usize, out: &mut Vec<u8>)
    requires { vec_len out.old + count ≤ vec_capacity out.old }
    ensures items { out.new.items ≡ out.old.items ++ replicate count 0 }
    ensures len { vec_len out.new ≡ vec_len out.old + count }
    ensures grows { vec_capacity out.old ≤ vec_capacity out.new }
{
    match out.resize(out.len() + count, 0) {
        Ok(()) => {}
        Err(AllocError) => unreachable!(),
    }
}

/// What the sum is over, where the payload is two parts, one behind the other.
#[tactic(auto, unfolding(crate::specs::Block::block_rest))]
fn put_rest(run: u64, number: u64, front: &[u8], back: &[u8], out: &mut Vec<u8>)
    requires small { length front.now + length back.now ≤ PAYLOAD }
    requires room { vec_len out.old + 504 ≤ vec_capacity out.old }
    ensures items { out.new.items ≡ out.old.items ++ block_rest run number (front.now ++ back.now) }
    ensures len { vec_len out.new ≡ vec_len out.old + 504 }
    ensures grows { vec_capacity out.old ≤ vec_capacity out.new }
{
    let used = front.len() + back.len();
    put_u64_reserved(run, out);
    put_u64_reserved(number, out);
    put_u16_reserved(used as u16, out);
    extend_reserved(&[0, 0], out);
    extend_reserved(front, out);
    extend_reserved(back, out);
    put_zeros(PAYLOAD - used, out);
}

#[tactic(auto, unfolding(crate::specs::Block::block_bytes, schema_codec::specs::Numbers::u64_bytes))]
fn put_block(run: u64, number: u64, front: &[u8], back: &[u8], out: &mut Vec<u8>)
    requires small { length front.now + length back.now ≤ PAYLOAD }
    requires room { vec_len out.old + BLOCK ≤ vec_capacity out.old }
    ensures items { out.new.items ≡ out.old.items ++ block_bytes run number (front.now ++ back.now) }
    ensures len { vec_len out.new ≡ vec_len out.old + BLOCK }
    ensures grows { vec_capacity out.old ≤ vec_capacity out.new }
{
    let start = out.len();
    extend_reserved(&[0; 8], out);
    put_rest(run, number, front, back, out);
    let sum = fnv(&out[start + 8..]);
    out[start..start + 8].copy_from_slice(&u64_bytes(sum));
}

/// Puts bytes at the end as blocks, numbered from a number on, and answers how many.
pub fn put_blocks(run: u64, number: u64, bytes: &[u8], out: &mut Vec<u8>) -> u64
    requires numbers { number + length bytes.now < 2 ^ 64 }
    requires room { vec_len out.old + BLOCK * blocks_for (length bytes.now) ≤ vec_capacity out.old }
    ensures blocks { (blocks : _) × AreBlocks run number bytes.now result blocks × (out.new.items ≡ out.old.items ++ blocks) }
    ensures count { result ≡ blocks_for (length bytes.now) }
    ensures len { vec_len out.new ≡ vec_len out.old + BLOCK * result }
    ensures grows { vec_capacity out.old ≤ vec_capacity out.new }
{
    put_both_as_blocks(run, number, &[], bytes, out)
}

/// Puts two lists of bytes, one behind the other, as `put_blocks` does with one list: nobody has to join them before.
pub fn put_both_as_blocks(
    run: u64,
    number: u64,
    head: &[u8],
    bytes: &[u8],
    out: &mut Vec<u8>,
) -> u64
    requires numbers { number + length head.now + length bytes.now < 2 ^ 64 }
    requires room { vec_len out.old + BLOCK * blocks_for (length head.now + length bytes.now) ≤ vec_capacity out.old }
    ensures blocks { (blocks : _) × AreBlocks run number (head.now ++ bytes.now) result blocks × (out.new.items ≡ out.old.items ++ blocks) }
    ensures count { result ≡ blocks_for (length head.now + length bytes.now) }
    ensures len { vec_len out.new ≡ vec_len out.old + BLOCK * result }
    ensures grows { vec_capacity out.old ≤ vec_capacity out.new }
{
    let mut count = 0;
    let mut first = head;
    let mut rest = bytes;
    while first.len() + rest.len() > 0 {
        let (front, first_after) = first.split_at(first.len().min(PAYLOAD));
        let (back, after) = rest.split_at(rest.len().min(PAYLOAD - front.len()));
        put_block(run, number + count, front, back, out);
        count += 1;
        first = first_after;
        rest = after;
    }
    count
}
