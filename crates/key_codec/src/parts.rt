//! Numbers and padded texts, the parts of which keys and rows are made.
//! Each writer appends to a vector; on an `Err` a part of its bytes may stand there.

ghost use Rattle.std.specs.Prelude.{◌≡◌, ℕ, List, ◌<◌, ◌≤◌, ◌^◌, ◌++◌, length, OnOk, IfSome, IfNone};
ghost use Rattle.key_codec.specs.Keys.{padded, key_width};
ghost use Rattle.key_codec.specs.Numbers.{u64_bytes};

use inno_types::Kind;
use std::alloc::AllocError;

/// How many bytes a key of this kind has.
pub fn key_len(kind: Kind) -> usize
    ensures width { result ≡ key_width kind }
    ensures small { result ≤ 256 }
{
    match kind {
        Kind::BigInt => 8,
        Kind::VarBinary(size) => usize::from(size) + 1,
    }
}

/// Appends the eight bytes of a number.
#[tactic(auto, unfolding(crate::specs::Numbers::u64_bytes))]
pub fn put_u64(number: u64, out: &mut Vec<u8>) -> Result<(), AllocError>
    ensures ok { OnOk result (out.new.items ≡ out.old.items ++ u64_bytes number) }
{
    big_endian::put_u64(number, out)
}

/// The number that these bytes are, if they are eight.
#[tactic(auto, unfolding(crate::specs::Numbers::u64_bytes))]
pub fn u64_of(bytes: &[u8]) -> Option<u64>
    ensures found { IfSome result (λ n. bytes.now ≡ u64_bytes n) }
    ensures none { IfNone result ((n : ℕ) → bytes.now ≡ u64_bytes n → ⊥) }
{
    if bytes.len() == 8 {
        Some(big_endian::u64_at(bytes, 0))
    } else {
        None
    }
}

/// Appends a text and zeros up to a size.
pub fn put_padded(text: &[u8], size: u8, out: &mut Vec<u8>) -> Result<(), AllocError>
    requires { length text.now ≤ size }
    ensures ok { OnOk result (out.new.items ≡ out.old.items ++ padded size text.now) }
{
    out.extend_from_slice(text)?;
    let end = out.len();
    out.resize(end + (usize::from(size) - text.len()), 0)
}

/// The text of that length that these bytes are the padding of, if they are.
pub fn padded_text(bytes: &[u8], len: u8) -> Option<&[u8]>
    ensures found { IfSome result (λ text. (length text.now ≡ len)
        × (bytes.now ≡ padded (length bytes.now) text.now) × (len ≤ length bytes.now)) }
    ensures none { IfNone result ((text : List ℕ) → length text ≡ len → len ≤ length bytes.now
        → bytes.now ≡ padded (length bytes.now) text → ⊥) }
{
    if usize::from(len) > bytes.len() {
        return None;
    }
    let (text, zeros) = bytes.split_at(usize::from(len));
    if zeros.iter().all(|byte| *byte == 0) {
        Some(text)
    } else {
        None
    }
}
