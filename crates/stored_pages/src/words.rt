//! Numbers at places of a page's bytes.
//! Nothing here knows what a page is.

ghost use Rattle.std.specs.Prelude.{◌≡◌, ◌+◌, ◌≤◌, length};
ghost use Rattle.stored_pages.specs.Words as words;

use big_endian::{u16_at, u32_at, u64_at};

/// The number of two bytes at a place.
#[tactic(auto, unfolding(crate::specs::Words::u16_at))]
pub fn read_u16(bytes: &[u8], at: usize) -> u16
    requires { at + 2 ≤ length bytes.now }
    ensures { result ≡ words.u16_at at bytes.now }
{
    u16_at(bytes, at)
}

/// The number of four bytes at a place.
#[tactic(auto, unfolding(crate::specs::Words::u32_at))]
pub fn read_u32(bytes: &[u8], at: usize) -> u32
    requires { at + 4 ≤ length bytes.now }
    ensures { result ≡ words.u32_at at bytes.now }
{
    u32_at(bytes, at)
}

/// The number of eight bytes at a place.
#[tactic(auto, unfolding(crate::specs::Words::u64_at))]
pub fn read_u64(bytes: &[u8], at: usize) -> u64
    requires { at + 8 ≤ length bytes.now }
    ensures { result ≡ words.u64_at at bytes.now }
{
    u64_at(bytes, at)
}
