//! Reads a key back as its value. Nothing is handed out where bytes are refused.
//! A number is read by `big_endian`, which accepts all eight bytes.

ghost use Rattle.std.specs.Prelude.{◌≡◌, ℕ, ℤ, List, ◌<◌, ◌≤◌, ◌∷◌, [], ◌++◌, length, IfOk, Err, IfSome, IfNone};
ghost use Rattle.key_codec.specs.Keys.{IsOfKind, Has64Bits, HasKey, key_code, padded, raised};
ghost use Rattle.key_codec.specs.Numbers.{u64_bytes};
ghost use Rattle.key_codec.specs.Refused.{IsOrNoMemory};

use crate::parts::{padded_text, u64_of};
use crate::write::SIGN;
use inno_types::{Bytes, Kind, Value};
use std::alloc::{AllocError, AllocFailed, Global};

/// Why bytes are not read as a key: they are none, or memory ran out.
#[derive(Clone, Copy, Debug)]
pub enum KeyBad {
    Bad,
    NoMemory,
}

impl From<AllocError> for KeyBad {
    ghost use Rattle.key_codec.specs.declared.read.KeyBad.TheVariants.{NoMemory};

    ghost from_gives = { λ _ e. e ≡ NoMemory };

    fn from(_: AllocError) -> KeyBad {
        KeyBad::NoMemory
    }
}

impl<T: Drop> From<AllocFailed<T>> for KeyBad {
    ghost use Rattle.key_codec.specs.declared.read.KeyBad.TheVariants.{NoMemory};

    ghost from_gives = { λ _ e. e ≡ NoMemory };

    fn from(_: AllocFailed<T>) -> KeyBad {
        KeyBad::NoMemory
    }
}

/// The number whose key these bytes are.
fn number_of(bytes: &[u8]) -> Option<i64>
    ensures found { IfSome result (λ n. bytes.now ≡ u64_bytes (raised n)) }
    ensures none { IfNone result ((n : ℕ) → bytes.now ≡ u64_bytes n → ⊥) }
{
    let raised = u64_of(bytes)?;
    Some(raised.wrapping_add(SIGN).cast_signed())
}

/// The text whose key these bytes are, in a column of that size.
fn text_of(bytes: &[u8], size: u8) -> Option<&[u8]>
    ensures found { IfSome result (λ text. (length text.now ≤ size)
        × (bytes.now ≡ padded size text.now ++ length text.now ∷ [])) }
    ensures none { IfNone result ((text : List ℕ) → length text ≤ size
        → bytes.now ≡ padded size text ++ length text ∷ [] → ⊥) }
{
    let (last, front) = bytes.split_last()?;
    if front.len() == usize::from(size) {
        padded_text(front, *last)
    } else {
        None
    }
}

/// The value of that kind whose key these bytes are, all of them.
pub fn get_key(alloc: Global, bytes: &[u8], kind: Kind) -> Result<Value, KeyBad>
    // What is read is a value of the kind, and these bytes are its key.
    ensures found { IfOk result (λ value. IsOfKind kind value × (bytes.now ≡ key_code kind value)) }
    ensures range { IfOk result Has64Bits }
    // What was written as a key is read again, unless memory runs out.
    ensures back { (value : Value) → HasKey kind value → bytes.now ≡ key_code kind value
        → IsOrNoMemory result value }
    // Bytes are refused only where no value has that key.
    ensures bad { result ≡ Err KeyBad.Bad → (value : Value) → IsOfKind kind value
        → bytes.now ≡ key_code kind value → ⊥ }
{
    match kind {
        Kind::BigInt => {
            let number = number_of(bytes).ok_or(KeyBad::Bad)?;
            Ok(Value::Int(number))
        }
        Kind::VarBinary(size) => {
            let text = text_of(bytes, size).ok_or(KeyBad::Bad)?;
            Ok(Value::Text(Bytes::from_vec(Vec::from_slice(alloc, text)?)))
        }
    }
}
