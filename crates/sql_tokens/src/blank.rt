//! White space and comments: what stands between tokens and is passed over.
//! A `/*` that nothing closes is no blank.

ghost use Rattle.std.specs.Prelude.{◌≡◌, IsTrue, ◌↔◌};
ghost use Rattle.std.specs.Option.{option_map};
ghost use Rattle.sql_grammar.specs.Tokens as spelled;

use crate::class::is_space;

/// Another `-`, and then white space or the end.
fn opens_line(bytes: &[u8]) -> bool
    ensures { result ≡ spelled.opens_line bytes.now }
{
    match bytes {
        [] => false,
        [b] => *b == b'-',
        [b, c, ..] => *b == b'-' && is_space(*c),
    }
}

#[tactic(auto, unfolding(sql_grammar::specs::Tokens::after_line))]
fn after_line(bytes: &[u8]) -> &[u8]
    ensures { result.now ≡ spelled.after_line bytes.now }
{
    let mut rest = bytes;
    while let [b, after @ ..] = rest {
        if *b == b'\n' {
            return after;
        }
        rest = after;
    }
    rest
}

#[tactic(auto, unfolding(sql_grammar::specs::Tokens::after_comment))]
fn after_comment(bytes: &[u8]) -> Option<&[u8]>
    ensures { option_map (λ r. r.now) result ≡ spelled.after_comment bytes.now }
{
    let mut rest = bytes;
    while let [b, after @ ..] = rest {
        if *b == b'*' && after.starts_with(b"/") {
            return Some(&after[1..]);
        }
        rest = after;
    }
    None
}

/// What follows a byte of white space or a comment at the front.
#[tactic(auto, unfolding(sql_grammar::specs::Tokens::after_blank))]
pub fn after_blank(bytes: &[u8]) -> Option<&[u8]>
    ensures { option_map (λ r. r.now) result ≡ spelled.after_blank bytes.now }
{
    match bytes {
        [b, rest @ ..] if is_space(*b) => Some(rest),
        [b'#', rest @ ..] => Some(after_line(rest)),
        [b'-', rest @ ..] if opens_line(rest) => Some(after_line(rest)),
        [b'/', b'*', rest @ ..] => after_comment(rest),
        _ => None,
    }
}
