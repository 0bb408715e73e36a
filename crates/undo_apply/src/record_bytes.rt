//! What is read off the bytes of a clustered record's value, without decoding its row: the mark and the roll pointer.
//! `key_steps` alone asks.

ghost use Rattle.std.specs.Prelude.{◌≡◌, ◌<◌, ◌^◌, ℕ, List, ◌++◌, Bool};
ghost use Rattle.row_codec.specs.Rows.{head_code};

use key_codec::u64_of;

/// Whether the record is of a row that was deleted.
#[tactic(auto, unfolding(row_codec::specs::Rows::head_code))]
pub(crate) fn is_marked(value: &[u8]) -> bool
    ensures { (marked : Bool) (writer pointer : ℕ) (fields : List ℕ) → value.now ≡ head_code marked writer pointer ++ fields
        → result ≡ marked }
{
    matches!(value.first(), Some(1))
}

/// The roll pointer.
pub(crate) fn pointer_of(value: &[u8]) -> u64
    ensures { (marked : Bool) (writer pointer : ℕ) (fields : List ℕ) → pointer < 2 ^ 64
        → value.now ≡ head_code marked writer pointer ++ fields → result ≡ pointer }
{
    if value.len() < 17 {
        return 0;
    }
    match u64_of(&value[9..17]) {
        Some(pointer) => pointer,
        None => 0,
    }
}
