//! Bounds of ranges beside keys of an index. As many first bytes of a key are compared as a bound has.
//! Only the steps of a search ask (`scan` and `visit`); bytes are read here, and no world is met.

ghost use Rattle.std.specs.Prelude.{◌≡◌, [], length, take, IfOk};
ghost use Rattle.std.specs.Ordering.{nat_cmp};
ghost use Rattle.std.specs.Cmp.Lexicographic.{slice_cmp};
ghost use Rattle.inno_types.specs.Ranges.{beside as beside_lem, is_from, is_up_to};
ghost use Rattle.sql_plan.specs.Visits.{kind_at};
ghost use Rattle.row_search.specs.Ranges.{bound_bytes, IsOnSide, primary_part};

use crate::side::Side;
use inno_types::{Bound, Bytes, Kind, Range, Schema};
use key_codec::key_len;
use std::alloc::{AllocError, Global};
use std::cmp::Ordering;

/// A key beside a bound.
fn beside(key: &[u8], bound: &Bytes) -> Ordering
    ensures { result ≡ beside_lem key.now bound.now }
{
    let front = &key[..bound.len().min(key.len())];
    front.cmp(bound.as_slice())
}

fn is_from_bound(low: &Bound, key: &[u8]) -> bool
    ensures { result ≡ is_from low.now key.now }
{
    match low {
        Bound::Open => true,
        Bound::With(bytes) => beside(key, bytes).is_ge(),
        Bound::Without(bytes) => beside(key, bytes).is_gt(),
    }
}

fn is_up_to_bound(high: &Bound, key: &[u8]) -> bool
    ensures { result ≡ is_up_to high.now key.now }
{
    match high {
        Bound::Open => true,
        Bound::With(bytes) => beside(key, bytes).is_le(),
        Bound::Without(bytes) => beside(key, bytes).is_lt(),
    }
}

/// Where a key lies beside a range.
pub fn side_of(range: &Range, key: &[u8]) -> Side
    ensures { IsOnSide range.now key.now result }
{
    if !is_up_to_bound(&range.high, key) {
        return Side::Behind;
    }
    if is_from_bound(&range.low, key) {
        Side::Within
    } else {
        Side::Before
    }
}

/// The bytes at which a walk from a bound begins.
pub fn first_bytes<'a>(low: &'a Bound, none: &'a Bytes) -> &'a Bytes
    requires { none.now ≡ [] }
    ensures { result.now ≡ bound_bytes low.now }
{
    match low {
        Bound::Open => none,
        Bound::With(bytes) | Bound::Without(bytes) => bytes,
    }
}

fn primary_kind(schema: &Schema) -> Kind
    ensures { result ≡ kind_at schema.now.columns schema.now.primary }
{
    match schema.columns.as_slice().get(usize::from(schema.primary)) {
        Some(column) => column.kind,
        None => Kind::BigInt,
    }
}

/// The primary key in which a key of an index ends.
pub fn primary_of<'a>(schema: &Schema, key: &'a [u8]) -> &'a [u8]
    ensures { result.now ≡ primary_part schema.now key.now }
{
    let width = key_len(primary_kind(schema));
    &key[key.len().saturating_sub(width)..]
}

/// The same bytes.
pub fn copy_of(alloc: Global, bytes: &[u8]) -> Result<Bytes, AllocError>
    ensures { IfOk result (λ copy. copy ≡ bytes.now) }
{
    Ok(Bytes::from_vec(Vec::from_slice(alloc, bytes)?))
}
