//! Lines: where they begin, which one a place is in, and what may stand at a directive's end.
//! Nothing here knows of statements.

ghost use Rattle.std.specs.Prelude.{◌≡◌, ◌≤◌, ◌<◌, length, take, IfSome};
ghost use Rattle.std.specs.Option.{option_map};
ghost use Rattle.script.specs.Lines as spelled;

/// Whether a line begins at the place.
pub(crate) fn begins_line(bytes: &[u8], at: usize) -> bool
    requires { at ≤ length bytes.now }
    ensures { result ≡ spelled.begins_line bytes.now at }
{
    at == 0 || bytes[at - 1] == b'\n'
}

/// The number of the line that the place is in. Lines count from 1.
pub fn line_at(bytes: &[u8], at: usize) -> u32
    requires within { at ≤ length bytes.now }
    requires small { at < u32.MAX }
    ensures { result ≡ spelled.line_at bytes.now at }
{
    line_after(&bytes[..at])
}

fn line_after(before: &[u8]) -> u32
    requires { length before.now < u32.MAX }
    ensures { result ≡ spelled.line_after before.now }
{
    let mut line = 1;
    for b in before {
        if *b == b'\n' {
            line += 1;
        }
    }
    line
}

/// What follows the end of a directive's line: spaces, and then a line feed, perhaps behind a CR, or nothing.
#[tactic(auto, unfolding(crate::specs::Lines::after_end))]
pub(crate) fn after_end(bytes: &[u8]) -> Option<&[u8]>
    ensures value { option_map (λ r. r.now) result ≡ spelled.after_end bytes.now }
    ensures shorter { IfSome result (λ r. length r.now ≤ length bytes.now) }
{
    let mut rest = bytes;
    while let [b' ', after @ ..] = rest {
        rest = after;
    }
    match rest {
        [] => Some(rest),
        [b'\n', after @ ..] => Some(after),
        [b'\r', b'\n', after @ ..] => Some(after),
        _ => None,
    }
}
