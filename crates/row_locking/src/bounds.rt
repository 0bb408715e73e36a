//! Where a key lies beside a range, and the bytes at which a walk goes on. As many first bytes of a key are compared as a
//! bound has.
//! Only the steps of a search ask (`walk` and `visit`); bytes are read here, and no world is met.

ghost use Rattle.std.specs.Prelude.{◌≡◌, [], ◌∷◌, ◌++◌, length, take, IfOk};
ghost use Rattle.std.specs.Ordering.{nat_cmp};
ghost use Rattle.std.specs.Cmp.Lexicographic.{slice_cmp};
ghost use Rattle.inno_types.specs.Ranges.{beside as beside_lem, is_from, is_up_to};
ghost use Rattle.key_codec.specs.Keys.{key_width};
ghost use Rattle.sql_plan.specs.Visits.{kind_at};
ghost use Rattle.row_search.specs.Ranges.{bound_bytes, primary_part};
ghost use Rattle.row_locking.specs.Comes.{IsOnSide, from_bytes};

use entries::Buffer;
use inno_types::{Bound, Bytes, Kind, Range, Schema};
use key_codec::key_len;
use std::alloc::{AllocError, Global};
use std::cmp::Ordering;

/// Before a range's low bound, within, or behind the high one.
#[derive(Clone, Copy)]
pub enum Side {
    Before,
    Within,
    Behind,
}

/// A key beside a bound.
fn beside(key: &[u8], bound: &Bytes) -> Ordering
    ensures { result ≡ beside_lem key.now bound.now }
{
    let front = &key[..bound.len().min(key.len())];
    front.cmp(bound.as_slice())
}

fn is_from_bound(low: &Bound, key: &[u8]) -> bool
    ensures { result ≡ is_from low.now key.now }
{
    match low {
        Bound::Open => true,
        Bound::With(bytes) => beside(key, bytes).is_ge(),
        Bound::Without(bytes) => beside(key, bytes).is_gt(),
    }
}

fn is_up_to_bound(high: &Bound, key: &[u8]) -> bool
    ensures { result ≡ is_up_to high.now key.now }
{
    match high {
        Bound::Open => true,
        Bound::With(bytes) => beside(key, bytes).is_le(),
        Bound::Without(bytes) => beside(key, bytes).is_lt(),
    }
}

/// Where a key lies beside a range.
pub fn side_of(range: &Range, key: &[u8]) -> Side
    ensures { IsOnSide range.now key.now result }
{
    if !is_up_to_bound(&range.high, key) {
        return Side::Behind;
    }
    if is_from_bound(&range.low, key) {
        Side::Within
    } else {
        Side::Before
    }
}

fn first_bytes(low: &Bound) -> &[u8]
    ensures { result.now ≡ bound_bytes low.now }
{
    match low {
        Bound::Open => &[],
        Bound::With(bytes) | Bound::Without(bytes) => bytes.as_slice(),
    }
}

/// The bytes at which the next pair is sought: the range's low bound, or the least ones above the key that was passed.
pub fn next_from(
    alloc: Global,
    low: &Bound,
    passed: &Option<Bytes>,
    memory: &mut Buffer,
) -> Result<Bytes, AllocError>
    ensures { IfOk result (λ from. from ≡ from_bytes low.now passed.now) }
{
    match passed {
        None => memory.filled(alloc, first_bytes(low)),
        Some(key) => {
            let mut bytes = memory.filled(alloc, key.as_slice())?.into_vec();
            bytes.push(0)?;
            Ok(Bytes::from_vec(bytes))
        }
    }
}

fn primary_kind(schema: &Schema) -> Kind
    ensures { result ≡ kind_at schema.now.columns schema.now.primary }
{
    match schema.columns.as_slice().get(usize::from(schema.primary)) {
        Some(column) => column.kind,
        None => Kind::BigInt,
    }
}

/// How many bytes a key of the clustered index has.
pub fn primary_len(schema: &Schema) -> usize
    ensures { result ≡ key_width (kind_at schema.now.columns schema.now.primary) }
{
    key_len(primary_kind(schema))
}

/// The primary key in which a key of an index ends.
pub fn primary_of<'a>(schema: &Schema, key: &'a [u8]) -> &'a [u8]
    ensures { result.now ≡ primary_part schema.now key.now }
{
    &key[key.len().saturating_sub(primary_len(schema))..]
}

/// The same bytes.
pub fn copy_of(alloc: Global, bytes: &[u8]) -> Result<Bytes, AllocError>
    ensures { IfOk result (λ copy. copy ≡ bytes.now) }
{
    Ok(Bytes::from_vec(Vec::from_slice(alloc, bytes)?))
}
