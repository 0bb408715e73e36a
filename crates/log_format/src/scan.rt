//! What a log area stands for: the whole groups of the good blocks at its front.
//! A mount asks here. Blocks are only read, never mended.

ghost use Rattle.std.specs.Prelude.{◌≡◌, ◌+◌, ◌*◌, ◌≤◌, ◌++◌, ◌↔◌, ℕ, List, length, take, drop, IsTrue, IfOk, IfSome, IfNone};
ghost use Rattle.std.specs.Int.{w16, w64, from_be_bytes};
ghost use Rattle.store_api.specs.Areas.{PassesSum};
ghost use Rattle.log_format.specs.declared.block.TheConstants.{PAYLOAD};
ghost use Rattle.log_format.specs.Block.{payload_of, IsGood, payloads};
ghost use Rattle.log_format.specs.Group.{group_bytes, IsGroup, AreGroups};
ghost use Rattle.log_format.specs.declared.group.Group.{Group as GroupValue};
ghost use Rattle.log_format.specs.Scan.{HasPayloads, NoGroup, HoldsGroups, HoldsPayloads, IsScan, EndsAt, stream_of};

use crate::block::BLOCK;
use crate::group::{Group, Groups};
use crate::reading::group_of;
use big_endian::{u16_at, u64_at};
use inno_types::Listed;
use schema_codec::Stop;
use std::alloc::{AllocError, Global};
use store_api::NoMemory;
use sum64::fnv;

pub fn is_good(block: &[u8], run: u64, number: u64) -> bool
    requires { length block.now ≡ BLOCK }
    ensures { IsTrue result ↔ PassesSum block.now
        × (from_be_bytes w64 (take 8 (drop 8 block.now)) ≡ run)
        × (from_be_bytes w64 (take 8 (drop 16 block.now)) ≡ number) }
{
    u64_at(block, 0) == fnv(&block[8..]) && u64_at(block, 8) == run && u64_at(block, 16) == number
}

#[tactic(auto, unfolding(crate::specs::Block::payload_of))]
pub fn payload(block: &[u8]) -> &[u8]
    requires { length block.now ≡ BLOCK }
    ensures payload { result.now ≡ payload_of block.now }
    ensures small { length result.now ≤ PAYLOAD }
{
    let used = usize::from(u16_at(block, 24));
    let rest = &block[28..];
    if used < rest.len() {
        &rest[..used]
    } else {
        rest
    }
}

/// The payloads of the blocks up to the first that isn't good.
fn good_payloads(alloc: Global, bytes: &[u8], run: u64) -> Result<Vec<u8>, AllocError>
    ensures { IfOk result (λ stream. HoldsPayloads run bytes.now stream.items) }
{
    let mut stream = Vec::new(alloc);
    for number in 0..bytes.len() / BLOCK {
        let block = &bytes[BLOCK * number..BLOCK * number + BLOCK];
        if !is_good(block, run, number as u64) {
            return Ok(stream);
        }
        stream.extend_from_slice(payload(block))?;
    }
    Ok(stream)
}

/// The group of an LSN at the front of the bytes, and the bytes after it.
pub fn next_group(
    alloc: Global,
    bytes: &[u8],
    lsn: u64,
) -> Result<Option<(Group, &[u8])>, AllocError>
    ensures found { IfOk result (λ found. IfSome found (λ x. IsGroup x.0 × (x.0.lsn ≡ lsn) × (bytes.now ≡ group_bytes x.0 ++ x.1.now))) }
    ensures none { IfOk result (λ found. IfNone found (NoGroup lsn bytes.now)) }
{
    match group_of(alloc, bytes) {
        Ok((group, rest)) => {
            if group.lsn == lsn {
                Ok(Some((group, rest)))
            } else {
                Ok(None)
            }
        }
        Err(Stop::Malformed) => Ok(None),
        Err(Stop::Memory) => Err(AllocError),
    }
}

/// The groups at the front of the bytes, and how many bytes they take.
fn groups_in(alloc: Global, stream: &[u8], first: u64) -> Result<(Vec<Group>, usize), AllocError>
    ensures groups { IfOk result (λ found. HoldsGroups first stream.now found.0.items) }
    ensures len { IfOk result (λ found. found.1 ≡ length (stream_of found.0.items)) }
{
    let mut groups = Vec::new(alloc);
    let mut rest = stream;
    let mut next = first;
    while let Some((group, after)) = next_group(alloc, rest, next)? {
        groups.push(group)?;
        rest = after;
        let Some(later) = next.checked_add(1) else {
            return Ok((groups, stream.len() - rest.len()));
        };
        next = later;
    }
    Ok((groups, stream.len() - rest.len()))
}

/// The number of the first block before which good blocks have payloads of this length together.
fn block_behind(bytes: &[u8], run: u64, len: usize) -> Option<u64>
    ensures some { IfSome result (λ n. HasPayloads run n bytes.now len) }
    ensures none { IfNone result ((n : ℕ) → HasPayloads run n bytes.now len → ⊥) }
{
    let mut total = 0;
    for number in 0..bytes.len() / BLOCK {
        if total == len {
            return Some(number as u64);
        }
        let block = &bytes[BLOCK * number..BLOCK * number + BLOCK];
        if !is_good(block, run, number as u64) {
            return None;
        }
        total += payload(block).len();
    }
    if total == len {
        return Some((bytes.len() / BLOCK) as u64);
    }
    None
}

/// What a scan of a log area finds.
#[derive(Drop)]
pub struct Found {
    /// The whole groups of the blocks up to the first that isn't good, as far as their numbers rise by one.
    pub groups: Groups,
    /// The number of the block behind them, or None where more stands in a block of theirs.
    pub blocks: Option<u64>,
}

/// The groups that count, and the block behind them.
pub fn scan_log(alloc: Global, bytes: &[u8], run: u64, first: u64) -> Result<Found, NoMemory>
    ensures groups { IfOk result (λ found. IsScan run first bytes.now found.groups) }
    ensures ends { IfOk result (λ found. IfSome found.blocks (λ n. EndsAt run n bytes.now found.groups)) }
    ensures none { IfOk result (λ found. IfNone found.blocks ((n : ℕ) → EndsAt run n bytes.now found.groups → ⊥)) }
{
    let stream = good_payloads(alloc, bytes, run)?;
    let (groups, len) = groups_in(alloc, &stream, first)?;
    let blocks = block_behind(bytes, run, len);
    Ok(Found {
        groups: Listed::from_vec(groups),
        blocks,
    })
}

/// The whole groups of the blocks up to the first that isn't good, as far as their LSNs rise by one from the first.
pub fn get_groups(alloc: Global, bytes: &[u8], run: u64, first: u64) -> Result<Groups, NoMemory>
    ensures { IfOk result (λ groups. IsScan run first bytes.now groups) }
{
    let Found { groups, blocks: _ } = scan_log(alloc, bytes, run, first)?;
    Ok(groups)
}

/// An area is a scan of one list of groups and no other.
pub fn one_scan()
    ensures { (run first : ℕ) (area : List ℕ) (groups others : List GroupValue) → IsScan run first area groups → IsScan run first area others → groups ≡ others }
{}
