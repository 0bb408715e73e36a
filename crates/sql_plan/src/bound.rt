//! The bytes of a range: its limits as keys of an index. `key_codec` says what a value's key is.
//! `choice` alone asks, once it knows the index and the values.

ghost use Rattle.std.specs.Prelude.{◌≡◌, ◌≤◌, ◌∷◌, [], ◌++◌, OnOk, IfOk, length, take};
ghost use Rattle.inno_types.specs.declared.value.Value.{Value};
ghost use Rattle.key_codec.specs.Keys.{Has64Bits};
ghost use Rattle.inno_db.specs.Seen.{seen};
ghost use Rattle.sql_plan.specs.Bounds.{value_bytes, front_of, bound_bytes, null_bytes, low_bound, high_bound, range_of, HasSize, HaveSize};
ghost use Rattle.sql_plan.specs.SeenIntervals.{seen_limit, seen_interval};

use crate::{Limit, Values, has_no_value};
use inno_db::{Datum, to_value};
use inno_types::{Bound, Bytes, Kind, Range, Value};
use key_codec::{put_entry, put_key};
use std::alloc::Global;
use store_api::NoMemory;

/// Appends what stands for a text that is longer than its column: its first bytes, and a length above all of the
/// column's texts. So it lies behind those that begin like it, and before all greater ones.
fn put_long_text(text: &Bytes, size: u8, out: &mut Bytes) -> Result<(), NoMemory>
    requires { size ≤ length text.now }
    ensures { OnOk result (out.new ≡ out.old ++ (take size text.now ++ 255 ∷ [])) }
{
    let mut bytes = out.copied()?.into_vec();
    bytes.extend_from_slice(&text.as_slice()[..usize::from(size)])?;
    bytes.push(u8::MAX)?;
    *out = Bytes::from_vec(bytes);
    Ok(())
}

/// Appends the bytes of a value of an indexed column.
fn put_value(datum: Datum<'_>, kind: Kind, out: &mut Bytes) -> Result<(), NoMemory>
    ensures ok { OnOk result (out.new ≡ out.old ++ value_bytes kind (seen datum.entry)) }
    ensures range { OnOk result (Has64Bits (seen datum.entry)) }
{
    match (datum, kind) {
        (Datum::Text(text), Kind::VarBinary(size)) if usize::from(size) < text.len() => {
            put_long_text(text, size, out)
        }
        (Datum::Int(_), Kind::BigInt) | (Datum::Text(_), Kind::VarBinary(_)) => {
            put_key(&to_value(datum)?, kind, out)
        }
        _ => Ok(()),
    }
}

/// What stands before the value in a key of the index of this number.
fn front(alloc: Global, which: u8) -> Result<Bytes, NoMemory>
    ensures { IfOk result (λ bytes. bytes ≡ front_of which) }
{
    let mut bytes = Bytes::new(alloc);
    if which != 0 {
        bytes.push(1)?;
    }
    Ok(bytes)
}

fn bytes_of(alloc: Global, which: u8, kind: Kind, datum: Datum<'_>) -> Result<Bytes, NoMemory>
    ensures ok { IfOk result (λ bytes. bytes ≡ bound_bytes which kind (seen datum.entry)) }
    ensures range { OnOk result (Has64Bits (seen datum.entry)) }
{
    let mut bytes = front(alloc, which)?;
    put_value(datum, kind, &mut bytes)?;
    Ok(bytes)
}

/// What all entries of NULL in a secondary index begin with.
fn bytes_of_null(alloc: Global, kind: Kind) -> Result<Bytes, NoMemory>
    ensures { IfOk result (λ bytes. bytes ≡ null_bytes kind) }
{
    let mut bytes = Bytes::new(alloc);
    put_entry(&Value::Null, kind, &Bytes::new(alloc), &mut bytes)?;
    Ok(bytes)
}

/// NULLs lie before all other values of a secondary index, and in no range. A bound at a value is the same on both sides.
fn low_of(alloc: Global, which: u8, kind: Kind, low: Limit<Datum<'_>>) -> Result<Bound, NoMemory>
    ensures ok { IfOk result (λ bound. bound ≡ low_bound which kind (seen_limit low.entry)) }
    ensures range { OnOk result (HasSize (seen_limit low.entry)) }
{
    match low {
        Limit::Open if which == 0 => Ok(Bound::Open),
        Limit::Open => Ok(Bound::Without(bytes_of_null(alloc, kind)?)),
        Limit::With(_) | Limit::Without(_) => high_of(alloc, which, kind, low),
    }
}

fn high_of(alloc: Global, which: u8, kind: Kind, high: Limit<Datum<'_>>) -> Result<Bound, NoMemory>
    ensures ok { IfOk result (λ bound. bound ≡ high_bound which kind (seen_limit high.entry)) }
    ensures range { OnOk result (HasSize (seen_limit high.entry)) }
{
    match high {
        Limit::Open => Ok(Bound::Open),
        Limit::With(datum) => Ok(Bound::With(bytes_of(alloc, which, kind, datum)?)),
        Limit::Without(datum) => Ok(Bound::Without(bytes_of(alloc, which, kind, datum)?)),
    }
}

/// The range of these values in the index of this number, which a column of this kind leads.
pub fn range_in(alloc: Global, which: u8, kind: Kind, values: Values<'_>) -> Result<Range, NoMemory>
    ensures ok { IfOk result (λ range. range ≡ range_of which kind (seen_interval values.entry)) }
    ensures range { OnOk result (HaveSize (seen_interval values.entry)) }
{
    Ok(Range {
        empty: has_no_value(values),
        low: low_of(alloc, which, kind, values.low)?,
        high: high_of(alloc, which, kind, values.high)?,
    })
}
