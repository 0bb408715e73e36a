//! Numbers and bytes at the end of a vector. Memory may run out only past the vector's capacity; the calls named
//! `_reserved` want room there and never fail.

ghost use Rattle.std.specs.Prelude.{◌≡◌, ◌+◌, ◌<◌, ◌≤◌, ◌++◌, length, vec_len, vec_capacity, OnOk, OnErr};
ghost use Rattle.schema_codec.specs.Numbers.{u16_bytes, u32_bytes, u64_bytes};

use std::alloc::AllocError;

#[tactic(auto, unfolding(crate::specs::Numbers::u16_bytes))]
pub fn put_u16(number: u16, out: &mut Vec<u8>) -> Result<(), AllocError>
    ensures ok { OnOk result (out.new.items ≡ out.old.items ++ u16_bytes number) }
    ensures len { OnOk result (vec_len out.new ≡ vec_len out.old + 2) }
    ensures grows { vec_capacity out.old ≤ vec_capacity out.new }
    ensures full { OnErr result (vec_capacity out.old < vec_len out.old + 2) }
{
    big_endian::put_u16(number, out)
}

#[tactic(auto, unfolding(crate::specs::Numbers::u32_bytes))]
pub fn put_u32(number: u32, out: &mut Vec<u8>) -> Result<(), AllocError>
    ensures ok { OnOk result (out.new.items ≡ out.old.items ++ u32_bytes number) }
    ensures len { OnOk result (vec_len out.new ≡ vec_len out.old + 4) }
    ensures grows { vec_capacity out.old ≤ vec_capacity out.new }
    ensures full { OnErr result (vec_capacity out.old < vec_len out.old + 4) }
{
    big_endian::put_u32(number, out)
}

#[tactic(auto, unfolding(crate::specs::Numbers::u64_bytes))]
pub fn put_u64(number: u64, out: &mut Vec<u8>) -> Result<(), AllocError>
    ensures ok { OnOk result (out.new.items ≡ out.old.items ++ u64_bytes number) }
    ensures len { OnOk result (vec_len out.new ≡ vec_len out.old + 8) }
    ensures grows { vec_capacity out.old ≤ vec_capacity out.new }
    ensures full { OnErr result (vec_capacity out.old < vec_len out.old + 8) }
{
    big_endian::put_u64(number, out)
}

/// Puts bytes at the end of a vector that has room for them. A vector asks for memory only past its capacity, so the
/// arm that gives up is proved never to be reached.
pub fn extend_reserved(bytes: &[u8], out: &mut Vec<u8>)
    requires { vec_len out.old + length bytes.now ≤ vec_capacity out.old }
    ensures items { out.new.items ≡ out.old.items ++ bytes.now }
    ensures len { vec_len out.new ≡ vec_len out.old + length bytes.now }
    ensures grows { vec_capacity out.old ≤ vec_capacity out.new }
{
    match out.extend_from_slice(bytes) {
        Ok(()) => {}
        Err(AllocError) => unreachable!(),
    }
}

#[tactic(auto, unfolding(crate::specs::Numbers::u16_bytes))]
pub fn put_u16_reserved(number: u16, out: &mut Vec<u8>)
    requires { vec_len out.old + 2 ≤ vec_capacity out.old }
    ensures items { out.new.items ≡ out.old.items ++ u16_bytes number }
    ensures len { vec_len out.new ≡ vec_len out.old + 2 }
    ensures grows { vec_capacity out.old ≤ vec_capacity out.new }
{
    extend_reserved(&big_endian::u16_bytes(number), out);
}

#[tactic(auto, unfolding(crate::specs::Numbers::u64_bytes))]
pub fn put_u64_reserved(number: u64, out: &mut Vec<u8>)
    requires { vec_len out.old + 8 ≤ vec_capacity out.old }
    ensures items { out.new.items ≡ out.old.items ++ u64_bytes number }
    ensures len { vec_len out.new ≡ vec_len out.old + 8 }
    ensures grows { vec_capacity out.old ≤ vec_capacity out.new }
{
    extend_reserved(&big_endian::u64_bytes(number), out);
}
