//! What stands between quotes: names, whose backquotes may be doubled, and texts with their escapes.
//! Only `token` calls these, behind the opening quote.

ghost use Rattle.std.specs.Prelude.{◌≡◌, ◌++◌, IfOk, OnOk};
ghost use Rattle.std.specs.Option.{option_map};
ghost use Rattle.sql_grammar.specs.Tokens as spelled;

use std::alloc::{AllocError, Global};

/// The bytes up to the closing quote, and what follows it.
#[tactic(auto, using(crate::proofs::Fronts::fronts), unfolding(sql_grammar::specs::Tokens::quoted))]
pub(crate) fn quoted(
    alloc: Global,
    quote: u8,
    bytes: &[u8],
) -> Result<Option<(Vec<u8>, &[u8])>, AllocError>
    ensures { IfOk result (λ found. option_map (λ x. (x.0.items, x.1.now)) found ≡ spelled.quoted quote bytes.now) }
{
    let mut name = Vec::new(alloc);
    let mut rest = bytes;
    while let [b, after @ ..] = rest {
        if *b != quote {
            name.push(*b)?;
            rest = after;
            continue;
        }
        match after {
            [c, after @ ..] if *c == quote => {
                name.push(quote)?;
                rest = after;
            }
            _ => return Ok(Some((name, after))),
        }
    }
    Ok(None)
}

/// The bytes that a text stands for up to its closing quote, and what follows it.
#[tactic(auto, using(crate::proofs::Fronts::fronts), unfolding(sql_grammar::specs::Tokens::text_in))]
pub(crate) fn text_in(
    alloc: Global,
    quote: u8,
    bytes: &[u8],
) -> Result<Option<(Vec<u8>, &[u8])>, AllocError>
    ensures { IfOk result (λ found. option_map (λ x. (x.0.items, x.1.now)) found ≡ spelled.text_in quote bytes.now) }
{
    let mut text = Vec::new(alloc);
    let mut rest = bytes;
    loop {
        match rest {
            [] => return Ok(None),
            [b, c, after @ ..] if *b == quote && *c == quote => {
                text.push(quote)?;
                rest = after;
            }
            [b, after @ ..] if *b == quote => return Ok(Some((text, after))),
            [b'\\'] => return Ok(None),
            [b'\\', c, after @ ..] => {
                push_escaped(&mut text, *c)?;
                rest = after;
            }
            [b, after @ ..] => {
                text.push(*b)?;
                rest = after;
            }
        }
    }
}

/// Adds what the byte behind a backslash stands for.
fn push_escaped(text: &mut Vec<u8>, byte: u8) -> Result<(), AllocError>
    ensures { OnOk result (text.new.items ≡ text.old.items ++ spelled.escaped byte) }
{
    if byte == b'%' || byte == b'_' {
        text.push(b'\\')?;
        text.push(byte)?;
        return Ok(());
    }
    text.push(unescaped(byte))?;
    Ok(())
}

fn unescaped(byte: u8) -> u8
    ensures { result ≡ spelled.unescaped byte }
{
    match byte {
        b'0' => 0,
        b'b' => 8,
        b'n' => b'\n',
        b'r' => b'\r',
        b't' => b'\t',
        b'Z' => 26,
        other => other,
    }
}
