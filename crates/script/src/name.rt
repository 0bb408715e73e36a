//! The names of sessions and signals, and the digits of numbers.
//! Only bytes are looked at.

ghost use Rattle.std.specs.Prelude.{◌≡◌, ◌≤◌, length};
ghost use Rattle.std.specs.List.{prefix_len};
ghost use Rattle.script.specs.Names as spelled;

/// A letter, a digit or `_`.
pub(crate) fn is_name_byte(byte: u8) -> bool
    ensures { result ≡ spelled.is_name_byte byte }
{
    is_digit(byte)
        || (b'A' <= byte && byte <= b'Z')
        || (b'a' <= byte && byte <= b'z')
        || byte == b'_'
}

fn is_digit(byte: u8) -> bool
    ensures { result ≡ spelled.is_digit byte }
{
    b'0' <= byte && byte <= b'9'
}

#[tactic(auto, using(crate::proofs::Fronts::runs))]
pub(crate) fn name_len(bytes: &[u8]) -> usize
    ensures value { result ≡ prefix_len spelled.is_name_byte bytes.now }
    ensures within { result ≤ length bytes.now }
{
    bytes.iter().take_while(|b| is_name_byte(**b)).count()
}

#[tactic(auto, using(crate::proofs::Fronts::runs))]
pub(crate) fn digits_len(bytes: &[u8]) -> usize
    ensures value { result ≡ prefix_len spelled.is_digit bytes.now }
    ensures within { result ≤ length bytes.now }
{
    bytes.iter().take_while(|b| is_digit(**b)).count()
}
