//! INSERT: the table, its columns if they are listed, and the rows. It has no condition.
//! How many values a row has is not looked at.

ghost use Rattle.std.specs.Prelude.{◌≡◌};
ghost use Rattle.sql_conditions.specs.Parts.{Gives};
ghost use Rattle.sql_simple_statements.specs.Statements as read;

use inno_types::{Names, Stmt};
use sql_conditions::{Refusal, after_close, end, name, names, tuples, unexpected};
use sql_grammar::{Token, Word};
use std::alloc::Global;

/// What stands behind INSERT.
#[tactic(auto, unfolding(crate::specs::Statements::insert_of))]
pub fn insert(alloc: Global, tokens: &[Token]) -> Result<Stmt, Refusal>
    ensures { Gives (λ s. s) result (read.insert_of tokens.now) }
{
    let rest = after_into(tokens);
    let (table, rest) = name(rest)?;
    let (columns, rest) = columns(alloc, rest)?;
    let rest = after_values(rest)?;
    let (tuples, rest) = tuples(alloc, rest)?;
    end(rest)?;
    Ok(Stmt::Insert {
        table,
        columns,
        tuples,
    })
}

fn after_into(tokens: &[Token]) -> &[Token]
    ensures { result.now ≡ read.after_into tokens.now }
{
    match tokens {
        [Token::Key(Word::Into), rest @ ..] => rest,
        _ => tokens,
    }
}

#[tactic(auto, unfolding(crate::specs::Statements::columns_at))]
fn columns(alloc: Global, tokens: &[Token]) -> Result<(Option<Names>, &[Token]), Refusal>
    ensures { Gives (λ x. (x.0, x.1.now)) result (read.columns_at tokens.now) }
{
    match tokens {
        [Token::Open, rest @ ..] => listed(alloc, rest),
        _ => Ok((None, tokens)),
    }
}

/// What stands behind the opening bracket.
fn listed(alloc: Global, tokens: &[Token]) -> Result<(Option<Names>, &[Token]), Refusal>
    ensures { Gives (λ x. (x.0, x.1.now)) result (read.listed_at tokens.now) }
{
    let (names, rest) = names(alloc, tokens)?;
    let rest = after_close(rest)?;
    Ok((Some(names), rest))
}

#[tactic(auto, unfolding(crate::specs::Statements::after_values))]
fn after_values(tokens: &[Token]) -> Result<&[Token], Refusal>
    ensures { Gives (λ r. r.now) result (read.after_values tokens.now) }
{
    match tokens {
        [Token::Key(Word::Values), rest @ ..] => Ok(rest),
        [Token::Bare(Some(Word::Value), _), rest @ ..] => Ok(rest),
        _ => Err(unexpected(tokens)),
    }
}
