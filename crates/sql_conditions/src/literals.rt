//! Names and literals, one at a time. Numbers beyond 64 bits are read too, as such.
//! Whoever reads a part of a statement takes them from the front of its tokens; nothing here looks a name up.

ghost use Rattle.std.specs.Prelude.{◌≡◌, ◌≤◌, ◌^◌, MatchOption};
ghost use Rattle.sql_grammar.specs.Grammar as grammar;
ghost use Rattle.sql_conditions.specs.Parts.{Gives, name_at, lit_at};

use crate::refusal::{Refusal, unexpected};
use inno_types::{Bytes, Literal};
use sql_grammar::{Token, Word};

#[tactic(auto, unfolding(crate::specs::Parts::name_at))]
pub fn name(tokens: &[Token]) -> Result<(Bytes, &[Token]), Refusal>
    ensures { Gives (λ x. (x.0, x.1.now)) result (name_at tokens.now) }
{
    match tokens {
        [Token::Bare(_, name), rest @ ..] => Ok((name.copied()?, rest)),
        [Token::Quoted(name), rest @ ..] => Ok((name.copied()?, rest)),
        _ => Err(unexpected(tokens)),
    }
}

#[tactic(auto, unfolding(crate::specs::Parts::lit_at))]
pub fn literal(tokens: &[Token]) -> Result<(Literal, &[Token]), Refusal>
    ensures { Gives (λ x. (x.0, x.1.now)) result (lit_at tokens.now) }
{
    match tokens {
        [Token::Number(digits), rest @ ..] => Ok((plain_number(digits.as_slice()), rest)),
        [Token::Minus, Token::Number(digits), rest @ ..] => {
            Ok((negative_number(digits.as_slice()), rest))
        }
        [Token::Minus, rest @ ..] => Err(unexpected(rest)),
        [Token::Text(bytes), rest @ ..] => Ok((Literal::Text(bytes.copied()?), rest)),
        [Token::Key(Word::Null), rest @ ..] => Ok((Literal::Null, rest)),
        _ => Err(unexpected(tokens)),
    }
}

#[tactic(auto, unfolding(sql_grammar::specs::Grammar::plain_number))]
fn plain_number(digits: &[u8]) -> Literal
    ensures { result ≡ grammar.plain_number digits.now }
{
    match number(digits) {
        Some(n) if n < 1 << 63 => Literal::Int(n as i64),
        _ => Literal::TooBig,
    }
}

#[tactic(auto, unfolding(sql_grammar::specs::Grammar::negative_number))]
fn negative_number(digits: &[u8]) -> Literal
    ensures { result ≡ grammar.negative_number digits.now }
{
    match number(digits) {
        Some(n) if n < 1 << 63 => Literal::Int(-(n as i64)),
        Some(n) if n == 1 << 63 => Literal::Int(i64::MIN),
        _ => Literal::TooBig,
    }
}

/// The number that the digits stand for, where 64 bits have it.
#[tactic(auto, using(crate::proofs::Numbers::numbers))]
pub fn number(digits: &[u8]) -> Option<u64>
    ensures { MatchOption result (2 ^ 64 ≤ grammar.number_of digits.now) (λ n. n ≡ grammar.number_of digits.now) }
{
    let mut number: u64 = 0;
    for digit in digits {
        let value = u64::from(digit.saturating_sub(b'0'));
        number = number.checked_mul(10)?.checked_add(value)?;
    }
    Some(number)
}
