//! Numbers at places of bytes.
//! Who calls makes sure that the bytes are there; nothing here fails or takes memory.

ghost use Rattle.std.specs.Prelude.{◌≡◌, ◌+◌, ◌≤◌, length, take, drop};
ghost use Rattle.std.specs.Int.{w16, w32, w64, from_be_bytes, to_be_bytes};

use byteorder::{BigEndian, ByteOrder};

/// The number of two bytes at a place.
#[tactic(auto, using(crate::proofs::Spelled::two))]
pub fn u16_at(bytes: &[u8], at: usize) -> u16
    requires { at + 2 ≤ length bytes.now }
    ensures number { result ≡ from_be_bytes w16 (take 2 (drop at bytes.now)) }
    ensures spelled { to_be_bytes w16 result ≡ take 2 (drop at bytes.now) }
{
    BigEndian::read_u16(&bytes[at..])
}

/// The number of four bytes at a place.
#[tactic(auto, using(crate::proofs::Spelled::four))]
pub fn u32_at(bytes: &[u8], at: usize) -> u32
    requires { at + 4 ≤ length bytes.now }
    ensures number { result ≡ from_be_bytes w32 (take 4 (drop at bytes.now)) }
    ensures spelled { to_be_bytes w32 result ≡ take 4 (drop at bytes.now) }
{
    BigEndian::read_u32(&bytes[at..])
}

/// The number of eight bytes at a place.
#[tactic(auto, using(crate::proofs::Spelled::eight))]
pub fn u64_at(bytes: &[u8], at: usize) -> u64
    requires { at + 8 ≤ length bytes.now }
    ensures number { result ≡ from_be_bytes w64 (take 8 (drop at bytes.now)) }
    ensures spelled { to_be_bytes w64 result ≡ take 8 (drop at bytes.now) }
{
    BigEndian::read_u64(&bytes[at..])
}
