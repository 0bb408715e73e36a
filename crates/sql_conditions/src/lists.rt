//! Lists with commas between their items: names, literals and tuples; and the end behind the last part.
//! Each item is read by `literals`, and nothing here looks into one.

ghost use Rattle.std.specs.Prelude.{◌≡◌};
ghost use Rattle.std.specs.Option.{option_map};
ghost use Rattle.sql_conditions.specs.Parts as parts;
ghost use Rattle.sql_conditions.specs.Parts.{Gives, name_at, lit_at, commas_at, tuple_at, end_of};

use crate::literals::{literal, name};
use crate::refusal::{Refusal, unexpected};
use inno_types::{Literals, Names, Tuples};
use sql_grammar::Token;
use std::alloc::Global;

/// What follows a comma, if one stands there.
pub fn after_comma(tokens: &[Token]) -> Option<&[Token]>
    ensures { option_map (λ r. r.now) result ≡ parts.after_comma tokens.now }
{
    match tokens {
        [Token::Comma, rest @ ..] => Some(rest),
        _ => None,
    }
}

/// What follows an opening bracket.
pub fn after_open(tokens: &[Token]) -> Result<&[Token], Refusal>
    ensures { Gives (λ r. r.now) result (parts.after_open tokens.now) }
{
    match tokens {
        [Token::Open, rest @ ..] => Ok(rest),
        _ => Err(unexpected(tokens)),
    }
}

/// What follows a closing bracket.
pub fn after_close(tokens: &[Token]) -> Result<&[Token], Refusal>
    ensures { Gives (λ r. r.now) result (parts.after_close tokens.now) }
{
    match tokens {
        [Token::Close, rest @ ..] => Ok(rest),
        _ => Err(unexpected(tokens)),
    }
}

/// Nothing may follow.
pub fn end(tokens: &[Token]) -> Result<(), Refusal>
    ensures { Gives (λ x. x) result (end_of tokens.now) }
{
    match tokens {
        [] => Ok(()),
        _ => Err(unexpected(tokens)),
    }
}

pub fn names(alloc: Global, tokens: &[Token]) -> Result<(Names, &[Token]), Refusal>
    ensures { Gives (λ x. (x.0, x.1.now)) result (commas_at name_at tokens.now) }
{
    let mut names = Vec::new(alloc);
    let mut rest = tokens;
    let count = tokens.len();
    for _ in 0..count {
        let (name, after) = name(rest)?;
        names.push(name)?;
        match after_comma(after) {
            Some(more) => rest = more,
            None => return Ok((Names::from_vec(names), after)),
        }
    }
    Err(unexpected(rest))
}

fn literals(alloc: Global, tokens: &[Token]) -> Result<(Literals, &[Token]), Refusal>
    ensures { Gives (λ x. (x.0, x.1.now)) result (commas_at lit_at tokens.now) }
{
    let mut literals = Vec::new(alloc);
    let mut rest = tokens;
    let count = tokens.len();
    for _ in 0..count {
        let (literal, after) = literal(rest)?;
        literals.push(literal)?;
        match after_comma(after) {
            Some(more) => rest = more,
            None => return Ok((Literals::from_vec(literals), after)),
        }
    }
    Err(unexpected(rest))
}

/// Literals in brackets.
#[tactic(auto, using(crate::proofs::InParts::in_parts))]
pub fn tuple(alloc: Global, tokens: &[Token]) -> Result<(Literals, &[Token]), Refusal>
    ensures { Gives (λ x. (x.0, x.1.now)) result (tuple_at tokens.now) }
{
    let rest = after_open(tokens)?;
    let (literals, rest) = literals(alloc, rest)?;
    let rest = after_close(rest)?;
    Ok((literals, rest))
}

pub fn tuples(alloc: Global, tokens: &[Token]) -> Result<(Tuples, &[Token]), Refusal>
    ensures { Gives (λ x. (x.0, x.1.now)) result (commas_at tuple_at tokens.now) }
{
    let mut tuples = Vec::new(alloc);
    let mut rest = tokens;
    let count = tokens.len();
    for _ in 0..count {
        let (tuple, after) = tuple(alloc, rest)?;
        tuples.push(tuple)?;
        match after_comma(after) {
            Some(more) => rest = more,
            None => return Ok((Tuples::from_vec(tuples), after)),
        }
    }
    Err(unexpected(rest))
}
