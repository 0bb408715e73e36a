//! Which bytes are white space, digits or parts of words, and how far a run of them goes.
//! Only bytes are looked at: what a run means is said by `token` and `word`.

ghost use Rattle.std.specs.Prelude.{◌≡◌, IsTrue, ◌↔◌};
ghost use Rattle.std.specs.List.{prefix_len};
ghost use Rattle.sql_grammar.specs.Tokens as spelled;

pub(crate) fn is_space(byte: u8) -> bool
    ensures { result ≡ spelled.is_space byte }
{
    byte == b' ' || (9 <= byte && byte <= 13)
}

pub(crate) fn is_digit(byte: u8) -> bool
    ensures { result ≡ spelled.is_digit byte }
{
    b'0' <= byte && byte <= b'9'
}

/// A letter, `_` or `$`.
pub(crate) fn starts_word(byte: u8) -> bool
    ensures { result ≡ spelled.starts_word byte }
{
    (b'A' <= byte && byte <= b'Z') || (b'a' <= byte && byte <= b'z') || byte == b'_' || byte == b'$'
}

fn is_in_word(byte: u8) -> bool
    ensures { result ≡ spelled.is_in_word byte }
{
    starts_word(byte) || is_digit(byte)
}

pub(crate) fn word_len(bytes: &[u8]) -> usize
    ensures { result ≡ prefix_len spelled.is_in_word bytes.now }
{
    bytes.iter().take_while(|b| is_in_word(**b)).count()
}

pub(crate) fn number_len(bytes: &[u8]) -> usize
    ensures { result ≡ prefix_len spelled.is_digit bytes.now }
{
    bytes.iter().take_while(|b| is_digit(**b)).count()
}
