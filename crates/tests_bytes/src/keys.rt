//! Bytes that are known from outside: the keys of numbers and texts, and the entries of a key on a nullable number.
//! Only `key_codec` is tried.

use inno_types::{Bytes, Kind, Value};
use key_codec::{KeyBad, get_key, put_entry, put_key};
use std::alloc::Global;
use std::test::Fail;

/// Whether the number has the key, and is read from it again.
fn has_key(alloc: Global, number: i64, key: &[u8]) -> Result<bool, Fail> {
    let mut out = Bytes::new(alloc);
    put_key(&Value::Int(number), Kind::BigInt, &mut out)?;
    let back = get_key(alloc, key, Kind::BigInt)?;
    Ok(out.as_slice() == key && matches!(back, Value::Int(n) if n == number))
}

fn is_refused(alloc: Global, key: &[u8], kind: Kind) -> bool {
    matches!(get_key(alloc, key, kind), Err(KeyBad::Bad))
}

#[test]
fn numbers(rt: HostRuntime) -> Result<(), Fail> {
    let rows = [
        (1, [0x80, 0, 0, 0, 0, 0, 0, 1]),
        (-1, [0x7f, 0xff, 0xff, 0xff, 0xff, 0xff, 0xff, 0xff]),
        (i64::MIN, [0; 8]),
        (i64::MAX, [0xff; 8]),
    ];
    for (number, key) in rows {
        assert!(rt; has_key(rt.alloc(), number, &key)?, "{number}");
    }
    assert!(rt; is_refused(rt.alloc(), &[0; 7], Kind::BigInt));
    Ok(())
}

fn is_text(value: &Value, want: &[u8]) -> bool {
    match value {
        Value::Text(text) => text.as_slice() == want,
        _ => false,
    }
}

/// What is put behind the byte 7 for the text `ab` in a column of three bytes.
fn text_behind_seven(alloc: Global) -> Result<Bytes, Fail> {
    let mut out = Bytes::from_vec([7].to_vec(alloc)?);
    let text = Bytes::from_vec(b"ab".to_vec(alloc)?);
    put_key(&Value::Text(text), Kind::VarBinary(3), &mut out)?;
    Ok(out)
}

/// Whether that is the key and the text is read from it again.
fn has_text(alloc: Global) -> Result<bool, Fail> {
    let out = text_behind_seven(alloc)?;
    let back = get_key(alloc, b"ab\x00\x02", Kind::VarBinary(3))?;
    Ok(out.as_slice() == [7, b'a', b'b', 0, 2].as_slice() && is_text(&back, b"ab"))
}

#[test]
fn texts(rt: HostRuntime) -> Result<(), Fail> {
    assert!(rt; has_text(rt.alloc())?);
    let refused: [&[u8]; 4] = [b"ab\x01\x02", b"abc\x04", b"ab\x02", b""];
    for key in refused {
        assert!(rt; is_refused(rt.alloc(), key, Kind::VarBinary(3)), "{key:?}");
    }
    Ok(())
}

/// The entry of NULL, or of ten, in a row whose primary key is 1.
fn entry(alloc: Global, is_ten: bool) -> Result<Bytes, Fail> {
    let mut primary = Bytes::new(alloc);
    put_key(&Value::Int(1), Kind::BigInt, &mut primary)?;
    let mut out = Bytes::new(alloc);
    let put = if is_ten {
        put_entry(&Value::Int(10), Kind::BigInt, &primary, &mut out)
    } else {
        put_entry(&Value::Null, Kind::BigInt, &primary, &mut out)
    };
    drop(primary);
    put?;
    Ok(out)
}

fn is_entry(alloc: Global, is_ten: bool, want: &[u8]) -> Result<bool, Fail> {
    let entry = entry(alloc, is_ten)?;
    Ok(entry.as_slice() == want)
}

/// With the byte of its mark behind it, an entry on a number of a table with a number as primary key has 18 bytes.
#[test]
fn entries(rt: HostRuntime) -> Result<(), Fail> {
    let null = [0, 0, 0, 0, 0, 0, 0, 0, 0, 0x80, 0, 0, 0, 0, 0, 0, 1];
    let ten = [1, 0x80, 0, 0, 0, 0, 0, 0, 10, 0x80, 0, 0, 0, 0, 0, 0, 1];
    assert!(rt; is_entry(rt.alloc(), false, &null)?);
    assert!(rt; is_entry(rt.alloc(), true, &ten)?);
    Ok(())
}
