//! The bytes of numbers, alone or put behind other bytes.
//! Only the `put_` calls take memory: the codecs and `log_format` append by them, pages take the arrays.

ghost use Rattle.std.specs.Prelude.{◌≡◌, ◌+◌, ◌<◌, ◌≤◌, ◌++◌, vec_len, vec_capacity, OnOk, OnErr};
ghost use Rattle.std.specs.Int.{w16, w32, w64, to_be_bytes};

use byteorder::{BigEndian, ByteOrder};
use std::alloc::AllocError;

pub fn u16_bytes(number: u16) -> [u8; 2]
    ensures { result ≡ to_be_bytes w16 number }
{
    let mut field = [0; 2];
    BigEndian::write_u16(&mut field, number);
    field
}

pub fn u32_bytes(number: u32) -> [u8; 4]
    ensures { result ≡ to_be_bytes w32 number }
{
    let mut field = [0; 4];
    BigEndian::write_u32(&mut field, number);
    field
}

pub fn u64_bytes(number: u64) -> [u8; 8]
    ensures { result ≡ to_be_bytes w64 number }
{
    let mut field = [0; 8];
    BigEndian::write_u64(&mut field, number);
    field
}

/// Appends the two bytes of a number. Memory may run out only past the vector's capacity.
pub fn put_u16(number: u16, out: &mut Vec<u8>) -> Result<(), AllocError>
    ensures ok { OnOk result (out.new.items ≡ out.old.items ++ to_be_bytes w16 number) }
    ensures err { OnErr result (out.new.items ≡ out.old.items) }
    ensures grows { vec_capacity out.old ≤ vec_capacity out.new }
    ensures full { OnErr result (vec_capacity out.old < vec_len out.old + 2) }
{
    out.extend_from_slice(&u16_bytes(number))
}

/// Appends the four bytes of a number. Memory may run out only past the vector's capacity.
pub fn put_u32(number: u32, out: &mut Vec<u8>) -> Result<(), AllocError>
    ensures ok { OnOk result (out.new.items ≡ out.old.items ++ to_be_bytes w32 number) }
    ensures err { OnErr result (out.new.items ≡ out.old.items) }
    ensures grows { vec_capacity out.old ≤ vec_capacity out.new }
    ensures full { OnErr result (vec_capacity out.old < vec_len out.old + 4) }
{
    out.extend_from_slice(&u32_bytes(number))
}

/// Appends the eight bytes of a number. Memory may run out only past the vector's capacity.
pub fn put_u64(number: u64, out: &mut Vec<u8>) -> Result<(), AllocError>
    ensures ok { OnOk result (out.new.items ≡ out.old.items ++ to_be_bytes w64 number) }
    ensures err { OnErr result (out.new.items ≡ out.old.items) }
    ensures grows { vec_capacity out.old ≤ vec_capacity out.new }
    ensures full { OnErr result (vec_capacity out.old < vec_len out.old + 8) }
{
    out.extend_from_slice(&u64_bytes(number))
}
