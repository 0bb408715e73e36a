//! One token at the front of the bytes. Blanks before it are not passed over here;
//! `lexed` does that.

ghost use Rattle.std.specs.Prelude.{◌≡◌, IfOk, true};
ghost use Rattle.std.specs.Option.{option_map};
ghost use Rattle.sql_grammar.specs.Tokens as spelled;
ghost use Rattle.sql_grammar.specs.declared.token.Token.TheVariants as tokens;

use crate::class::{is_digit, number_len, starts_word, word_len};
use crate::quote::{quoted, text_in};
use crate::word::word_token;
use inno_types::{Bytes, Comparison};
use sql_grammar::Token;
use std::alloc::{AllocError, Global};

const MOST_NAME_BYTES: usize = 64;

/// The token at the front of the bytes, and what follows it; None where none stands there.
#[tactic(auto, unfolding(sql_grammar::specs::Tokens::token_at))]
pub fn token_at(alloc: Global, bytes: &[u8]) -> Result<Option<(Token, &[u8])>, AllocError>
    ensures { IfOk result (λ found. option_map (λ x. (x.0, x.1.now)) found ≡ spelled.token_at bytes.now) }
{
    match bytes {
        [] => Ok(None),
        [b, ..] if starts_word(*b) => word_at(alloc, bytes),
        [b, ..] if is_digit(*b) => number_at(alloc, bytes),
        [b'`', rest @ ..] => name_at(alloc, rest),
        [b, rest @ ..] if *b == b'\'' || *b == b'"' => text_at(alloc, *b, rest),
        _ => Ok(sign_at(bytes)),
    }
}

#[tactic(auto, using(crate::proofs::Fronts::runs))]
fn word_at(alloc: Global, bytes: &[u8]) -> Result<Option<(Token, &[u8])>, AllocError>
    ensures { IfOk result (λ found. option_map (λ x. (x.0, x.1.now)) found ≡ spelled.as_token spelled.fits_name spelled.word_token (spelled.front_while spelled.is_in_word bytes.now)) }
{
    let (word, rest) = bytes.split_at(word_len(bytes));
    if word.is_empty() || word.len() > MOST_NAME_BYTES {
        return Ok(None);
    }
    Ok(Some((word_token(alloc, word)?, rest)))
}

#[tactic(auto, using(crate::proofs::Fronts::runs))]
fn number_at(alloc: Global, bytes: &[u8]) -> Result<Option<(Token, &[u8])>, AllocError>
    ensures { IfOk result (λ found. option_map (λ x. (x.0, x.1.now)) found ≡ spelled.as_token (λ _. true) tokens.Number (spelled.front_while spelled.is_digit bytes.now)) }
{
    let (digits, rest) = bytes.split_at(number_len(bytes));
    let digits = Vec::from_slice(alloc, digits)?;
    Ok(Some((Token::Number(Bytes::from_vec(digits)), rest)))
}

fn name_at(alloc: Global, bytes: &[u8]) -> Result<Option<(Token, &[u8])>, AllocError>
    ensures { IfOk result (λ found. option_map (λ x. (x.0, x.1.now)) found ≡ spelled.as_token_if spelled.fits_name tokens.Quoted (spelled.quoted 96 bytes.now)) }
{
    match quoted(alloc, b'`', bytes)? {
        Some((name, rest)) if !name.is_empty() && name.len() <= MOST_NAME_BYTES => {
            Ok(Some((Token::Quoted(Bytes::from_vec(name)), rest)))
        }
        _ => Ok(None),
    }
}

fn text_at(alloc: Global, quote: u8, bytes: &[u8]) -> Result<Option<(Token, &[u8])>, AllocError>
    ensures { IfOk result (λ found. option_map (λ x. (x.0, x.1.now)) found ≡ spelled.as_token_if (λ _. true) tokens.Text (spelled.text_in quote bytes.now)) }
{
    match text_in(alloc, quote, bytes)? {
        Some((text, rest)) => Ok(Some((Token::Text(Bytes::from_vec(text)), rest))),
        None => Ok(None),
    }
}

/// An operator or a sign.
#[tactic(auto, unfolding(sql_grammar::specs::Tokens::sign_at))]
fn sign_at(bytes: &[u8]) -> Option<(Token, &[u8])>
    ensures { option_map (λ x. (x.0, x.1.now)) result ≡ spelled.sign_at bytes.now }
{
    match bytes {
        [b'(', rest @ ..] => Some((Token::Open, rest)),
        [b')', rest @ ..] => Some((Token::Close, rest)),
        [b',', rest @ ..] => Some((Token::Comma, rest)),
        [b'*', rest @ ..] => Some((Token::Star, rest)),
        [b'+', rest @ ..] => Some((Token::Plus, rest)),
        [b'-', rest @ ..] => Some((Token::Minus, rest)),
        [b'=', rest @ ..] => Some((Token::Compare(Comparison::Equal), rest)),
        [b'!', b'=', rest @ ..] => Some((Token::Compare(Comparison::NotEqual), rest)),
        [b'<', b'=', rest @ ..] => Some((Token::Compare(Comparison::LessOrEqual), rest)),
        [b'<', b'>', rest @ ..] => Some((Token::Compare(Comparison::NotEqual), rest)),
        [b'<', rest @ ..] => Some((Token::Compare(Comparison::Less), rest)),
        [b'>', b'=', rest @ ..] => Some((Token::Compare(Comparison::GreaterOrEqual), rest)),
        [b'>', rest @ ..] => Some((Token::Compare(Comparison::Greater), rest)),
        _ => None,
    }
}
