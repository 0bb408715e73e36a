//! Writes a value as a key, and a value with a primary key as an entry of a secondary index.
//! A call works on a copy of what stands in `out`, so that a refused one leaves that as it was.

ghost use Rattle.std.specs.Prelude.{◌≡◌, ◌++◌, OnOk, OnErr};
ghost use Rattle.key_codec.specs.Keys.{IsOfKind, IsOfKindOrNull, key_code, entry_front, entry_code};

use crate::parts::{key_len, put_padded, put_u64};
use inno_types::{Bytes, Kind, Value};
use std::alloc::AllocError;
use store_api::NoMemory;

/// Added to a number, it takes the least of them to 0.
pub const SIGN: u64 = 1 << 63;

fn put_value(value: &Value, kind: Kind, out: &mut Vec<u8>) -> Result<(), AllocError>
    requires { IsOfKind kind value.now }
    ensures ok { OnOk result (out.new.items ≡ out.old.items ++ key_code kind value.now) }
{
    match (value, kind) {
        (Value::Int(number), Kind::BigInt) => {
            put_u64(number.cast_unsigned().wrapping_add(SIGN), out)
        }
        (Value::Text(text), Kind::VarBinary(size)) => {
            put_padded(text.as_slice(), size, out)?;
            out.push(text.len() as u8)?;
            Ok(())
        }
        _ => unreachable!(),
    }
}

/// Appends the key of a value. An `Err` changes nothing.
pub fn put_key(value: &Value, kind: Kind, out: &mut Bytes) -> Result<(), NoMemory>
    requires { IsOfKind kind value.now }
    ensures ok { OnOk result (out.new ≡ out.old ++ key_code kind value.now) }
    ensures err { OnErr result (out.new ≡ out.old) }
{
    let mut bytes = out.copied()?.into_vec();
    put_value(value, kind, &mut bytes)?;
    *out = Bytes::from_vec(bytes);
    Ok(())
}

fn put_front(value: &Value, kind: Kind, out: &mut Vec<u8>) -> Result<(), AllocError>
    requires { IsOfKindOrNull kind value.now }
    ensures ok { OnOk result (out.new.items ≡ out.old.items ++ entry_front kind value.now) }
{
    match value {
        Value::Null => {
            let end = out.len();
            out.resize(end + 1 + key_len(kind), 0)
        }
        present => {
            out.push(1)?;
            put_value(present, kind, out)
        }
    }
}

/// Appends the entry of a value and of the primary key of its row. An `Err` changes nothing.
pub fn put_entry(
    value: &Value,
    kind: Kind,
    primary: &Bytes,
    out: &mut Bytes,
) -> Result<(), NoMemory>
    requires { IsOfKindOrNull kind value.now }
    ensures ok { OnOk result (out.new ≡ out.old ++ entry_code kind value.now primary.now) }
    ensures err { OnErr result (out.new ≡ out.old) }
{
    let mut bytes = out.copied()?.into_vec();
    put_front(value, kind, &mut bytes)?;
    bytes.extend_from_slice(primary.as_slice())?;
    *out = Bytes::from_vec(bytes);
    Ok(())
}
