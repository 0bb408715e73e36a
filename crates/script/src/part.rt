//! The part of a script at a place. Blanks are those of SQL, and texts, quoted names and comments its tokens:
//! a `;` in one of them ends nothing.

ghost use Rattle.std.specs.Prelude.{◌≡◌, ◌<◌, length, IfSome};
ghost use Rattle.std.specs.Option.{option_map};
ghost use Rattle.script.specs.Parts as spelled;

use crate::line::begins_line;
use crate::name::{is_name_byte, name_len};
use crate::quote::{after_quoted, after_text};
use sql_tokens::after_blank;

/// What stands at a place, and where that ends.
#[derive(Clone, Copy)]
pub enum Part {
    Directive,
    /// White space or a comment.
    Blank { end: usize },
    Semicolon,
    /// Some bytes of a statement.
    Token { end: usize },
    /// A text, a quoted name or a comment that doesn't end.
    Unended,
}

/// The part at a place, where a statement is under way or isn't.
#[tactic(auto, using(crate::proofs::Blanks::blank_shorter))]
pub fn part_at(bytes: &[u8], at: usize, inside: bool) -> Part
    requires { at < length bytes.now }
    ensures value { result ≡ spelled.part_at bytes.now at inside }
    ensures within { spelled.IsWithin at (length bytes.now) result }
{
    let rest = &bytes[at..];
    if !inside && rest.starts_with(b"@") && begins_line(bytes, at) {
        return Part::Directive;
    }
    if let Some(after) = after_blank(rest) {
        return Part::Blank {
            end: bytes.len() - after.len(),
        };
    }
    if rest.starts_with(b";") {
        return Part::Semicolon;
    }
    match after_token(rest) {
        Some(after) => Part::Token {
            end: bytes.len() - after.len(),
        },
        None => Part::Unended,
    }
}

/// What follows a text, a quoted name, some letters, or any other byte; None where a text, a quoted name or a
/// comment doesn't end.
#[tactic(auto, unfolding(crate::specs::Parts::after_token))]
fn after_token(bytes: &[u8]) -> Option<&[u8]>
    ensures value { option_map (λ r. r.now) result ≡ spelled.after_token bytes.now }
    ensures shorter { IfSome result (λ r. length r.now < length bytes.now) }
{
    match bytes {
        [] => None,
        [b, rest @ ..] if *b == b'\'' || *b == b'"' => after_text(*b, rest),
        [b'`', rest @ ..] => after_quoted(b'`', rest),
        [b'/', b'*', ..] => None,
        [b, rest @ ..] if is_name_byte(*b) => Some(&rest[name_len(rest)..]),
        [_, rest @ ..] => Some(rest),
    }
}
