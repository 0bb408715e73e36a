//! One comparison or test of a condition. Conditions are joined from these.
//! `conditions` alone joins them; `expressions` reads its operands here too.

ghost use Rattle.std.specs.Prelude.{◌≡◌};
ghost use Rattle.sql_conditions.specs.Parts.{Gives};
ghost use Rattle.sql_conditions.specs.Atoms as read;

use crate::{Refusal, literal, tuple, unexpected};
use inno_types::{Bytes, Filter, Operand};
use sql_grammar::{Token, Word};
use std::alloc::Global;

#[tactic(auto, unfolding(crate::specs::Atoms::atom_at))]
pub(crate) fn atom(alloc: Global, tokens: &[Token]) -> Result<(Filter, &[Token]), Refusal>
    ensures { Gives (λ x. (x.0, x.1.now)) result (read.atom_at tokens.now) }
{
    let (left, rest) = operand(tokens)?;
    test(alloc, left, rest)
}

#[tactic(auto, unfolding(crate::specs::Atoms::oper_at))]
pub(crate) fn operand(tokens: &[Token]) -> Result<(Operand, &[Token]), Refusal>
    ensures { Gives (λ x. (x.0, x.1.now)) result (read.oper_at tokens.now) }
{
    match tokens {
        [Token::Bare(_, name), rest @ ..] => Ok((Operand::Column(name.copied()?), rest)),
        [Token::Quoted(name), rest @ ..] => Ok((Operand::Column(name.copied()?), rest)),
        _ => {
            let (value, rest) = literal(tokens)?;
            Ok((Operand::Literal(value), rest))
        }
    }
}

#[tactic(auto, unfolding(crate::specs::Atoms::test_at))]
fn test(alloc: Global, left: Operand, tokens: &[Token]) -> Result<(Filter, &[Token]), Refusal>
    ensures { Gives (λ x. (x.0, x.1.now)) result (read.test_at left tokens.now) }
{
    match tokens {
        [Token::Compare(comparison), rest @ ..] => {
            let (right, rest) = operand(rest)?;
            let filter = Filter::Compare {
                left,
                comparison: *comparison,
                right,
            };
            Ok((filter, rest))
        }
        _ => match left {
            Operand::Column(column) => column_test(alloc, column, tokens),
            Operand::Literal(_) => Err(unexpected(tokens)),
        },
    }
}

#[tactic(auto, unfolding(crate::specs::Atoms::column_test_at))]
fn column_test(
    alloc: Global,
    column: Bytes,
    tokens: &[Token],
) -> Result<(Filter, &[Token]), Refusal>
    ensures { Gives (λ x. (x.0, x.1.now)) result (read.column_test_at column tokens.now) }
{
    match tokens {
        [Token::Key(Word::Not), rest @ ..] => range_test(alloc, column, true, rest),
        [Token::Key(Word::Is), rest @ ..] => null_test(column, rest),
        _ => range_test(alloc, column, false, tokens),
    }
}

#[tactic(auto, using(crate::proofs::InParts::in_parts))]
fn null_test(column: Bytes, tokens: &[Token]) -> Result<(Filter, &[Token]), Refusal>
    ensures { Gives (λ x. (x.0, x.1.now)) result (read.null_test_at column tokens.now) }
{
    let (negated, rest) = null_word(tokens)?;
    Ok((Filter::IsNull { column, negated }, rest))
}

/// NULL, and whether NOT stands before it.
#[tactic(auto, unfolding(crate::specs::Atoms::null_word_at))]
fn null_word(tokens: &[Token]) -> Result<(bool, &[Token]), Refusal>
    ensures { Gives (λ x. (x.0, x.1.now)) result (read.null_word_at tokens.now) }
{
    match tokens {
        [Token::Key(Word::Not), rest @ ..] => null_behind(true, rest),
        _ => null_behind(false, tokens),
    }
}

fn null_behind(negated: bool, tokens: &[Token]) -> Result<(bool, &[Token]), Refusal>
    ensures { Gives (λ x. (x.0, x.1.now)) result (read.null_behind negated tokens.now) }
{
    match tokens {
        [Token::Key(Word::Null), rest @ ..] => Ok((negated, rest)),
        _ => Err(unexpected(tokens)),
    }
}

#[tactic(auto, unfolding(crate::specs::Atoms::range_test_at))]
fn range_test(
    alloc: Global,
    column: Bytes,
    negated: bool,
    tokens: &[Token],
) -> Result<(Filter, &[Token]), Refusal>
    ensures { Gives (λ x. (x.0, x.1.now)) result (read.range_test_at column negated tokens.now) }
{
    match tokens {
        [Token::Key(Word::Between), rest @ ..] => between(column, negated, rest),
        [Token::Key(Word::In), rest @ ..] => among(alloc, column, negated, rest),
        _ => {
            drop(column);
            Err(unexpected(tokens))
        }
    }
}

fn among(
    alloc: Global,
    column: Bytes,
    negated: bool,
    tokens: &[Token],
) -> Result<(Filter, &[Token]), Refusal>
    ensures { Gives (λ x. (x.0, x.1.now)) result (read.among_at column negated tokens.now) }
{
    let (literals, rest) = tuple(alloc, tokens)?;
    let filter = Filter::In {
        column,
        negated,
        literals,
    };
    Ok((filter, rest))
}

#[tactic(auto, unfolding(crate::specs::Atoms::between_at))]
fn between(column: Bytes, negated: bool, tokens: &[Token]) -> Result<(Filter, &[Token]), Refusal>
    ensures { Gives (λ x. (x.0, x.1.now)) result (read.between_at column negated tokens.now) }
{
    let (low, rest) = literal(tokens)?;
    let rest = after_and(rest)?;
    let (high, rest) = literal(rest)?;
    let filter = Filter::Between {
        column,
        negated,
        low,
        high,
    };
    Ok((filter, rest))
}

fn after_and(tokens: &[Token]) -> Result<&[Token], Refusal>
    ensures { Gives (λ r. r.now) result (read.after_and tokens.now) }
{
    match tokens {
        [Token::Key(Word::And), rest @ ..] => Ok(rest),
        _ => Err(unexpected(tokens)),
    }
}
