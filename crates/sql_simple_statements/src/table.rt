//! CREATE TABLE: its name, its columns and keys, and its engine.
//! Sizes and names are read as they stand; whether a table may have them is not looked at.

ghost use Rattle.std.specs.Prelude.{◌≡◌};
ghost use Rattle.sql_grammar.specs.Grammar as grammar;
ghost use Rattle.sql_conditions.specs.Parts.{Gives, commas_at};
ghost use Rattle.sql_simple_statements.specs.Statements as read;

use inno_types::{Bytes, Comparison, DeclaredKind, Definition, Definitions, Stmt};
use sql_conditions::{
    Refusal, after_close, after_comma, after_open, end, name, number, unexpected,
};
use sql_grammar::{Token, Word};
use std::alloc::Global;

/// What stands behind CREATE.
#[tactic(auto, unfolding(crate::specs::Statements::create_statement_of))]
pub fn create_table(alloc: Global, tokens: &[Token]) -> Result<Stmt, Refusal>
    ensures { Gives (λ s. s) result (read.create_statement_of tokens.now) }
{
    let rest = after_table(tokens)?;
    create(alloc, rest)
}

fn after_table(tokens: &[Token]) -> Result<&[Token], Refusal>
    ensures { Gives (λ r. r.now) result (read.after_table tokens.now) }
{
    match tokens {
        [Token::Key(Word::Table), rest @ ..] => Ok(rest),
        _ => Err(unexpected(tokens)),
    }
}

/// What stands behind CREATE TABLE.
#[tactic(auto, unfolding(crate::specs::Statements::create_of))]
fn create(alloc: Global, tokens: &[Token]) -> Result<Stmt, Refusal>
    ensures { Gives (λ s. s) result (read.create_of tokens.now) }
{
    let (if_not_exists, rest) = if_not_exists(tokens)?;
    let (table, rest) = name(rest)?;
    let inside = after_open(rest)?;
    let (definitions, rest) = definitions(alloc, inside)?;
    let rest = after_close(rest)?;
    engine(rest)?;
    Ok(Stmt::CreateTable {
        table,
        if_not_exists,
        definitions,
    })
}

#[tactic(auto, unfolding(crate::specs::Statements::if_not_exists_at))]
fn if_not_exists(tokens: &[Token]) -> Result<(bool, &[Token]), Refusal>
    ensures { Gives (λ x. (x.0, x.1.now)) result (read.if_not_exists_at tokens.now) }
{
    match tokens {
        [Token::Key(Word::If), rest @ ..] => not_exists(rest),
        _ => Ok((false, tokens)),
    }
}

/// What stands behind IF.
fn not_exists(tokens: &[Token]) -> Result<(bool, &[Token]), Refusal>
    ensures { Gives (λ x. (x.0, x.1.now)) result (read.not_exists_at tokens.now) }
{
    match tokens {
        [Token::Key(Word::Not), rest @ ..] => exists(rest),
        _ => Err(unexpected(tokens)),
    }
}

/// What stands behind IF NOT.
fn exists(tokens: &[Token]) -> Result<(bool, &[Token]), Refusal>
    ensures { Gives (λ x. (x.0, x.1.now)) result (read.exists_at tokens.now) }
{
    match tokens {
        [Token::Key(Word::Exists), rest @ ..] => Ok((true, rest)),
        _ => Err(unexpected(tokens)),
    }
}

fn definitions(alloc: Global, tokens: &[Token]) -> Result<(Definitions, &[Token]), Refusal>
    ensures { Gives (λ x. (x.0, x.1.now)) result (commas_at read.define_at tokens.now) }
{
    let mut definitions = Vec::new(alloc);
    let mut rest = tokens;
    let count = tokens.len();
    for _ in 0..count {
        let (definition, after) = definition(rest)?;
        definitions.push(definition)?;
        match after_comma(after) {
            Some(more) => rest = more,
            None => return Ok((Definitions::from_vec(definitions), after)),
        }
    }
    Err(unexpected(rest))
}

#[tactic(auto, unfolding(crate::specs::Statements::define_at))]
fn definition(tokens: &[Token]) -> Result<(Definition, &[Token]), Refusal>
    ensures { Gives (λ x. (x.0, x.1.now)) result (read.define_at tokens.now) }
{
    match tokens {
        [Token::Key(Word::Primary), rest @ ..] => primary_column(rest),
        [Token::Key(Word::Key), rest @ ..] => key(rest),
        [Token::Key(Word::Index), rest @ ..] => key(rest),
        _ => column(tokens),
    }
}

/// What stands behind PRIMARY, where it is a definition of its own.
fn primary_column(tokens: &[Token]) -> Result<(Definition, &[Token]), Refusal>
    ensures { Gives (λ x. (x.0, x.1.now)) result (read.primary_column_at tokens.now) }
{
    let (_, rest) = primary_key(tokens)?;
    let (column, rest) = bracketed(rest)?;
    Ok((Definition::Primary { column }, rest))
}

#[tactic(auto, unfolding(crate::specs::Statements::key_at))]
fn key(tokens: &[Token]) -> Result<(Definition, &[Token]), Refusal>
    ensures { Gives (λ x. (x.0, x.1.now)) result (read.key_at tokens.now) }
{
    match tokens {
        [Token::Open, ..] => {
            let (column, rest) = bracketed(tokens)?;
            Ok((Definition::Key { name: None, column }, rest))
        }
        _ => {
            let (name, rest) = name(tokens)?;
            let (column, rest) = bracketed(rest)?;
            let name = Some(name);
            Ok((Definition::Key { name, column }, rest))
        }
    }
}

/// A name in brackets.
#[tactic(auto, unfolding(crate::specs::Statements::bracketed_at))]
fn bracketed(tokens: &[Token]) -> Result<(Bytes, &[Token]), Refusal>
    ensures { Gives (λ x. (x.0, x.1.now)) result (read.bracketed_at tokens.now) }
{
    let inside = after_open(tokens)?;
    let (name, rest) = name(inside)?;
    let rest = after_close(rest)?;
    Ok((name, rest))
}

#[tactic(auto, unfolding(crate::specs::Statements::column_at))]
fn column(tokens: &[Token]) -> Result<(Definition, &[Token]), Refusal>
    ensures { Gives (λ x. (x.0, x.1.now)) result (read.column_at tokens.now) }
{
    let (name, rest) = name(tokens)?;
    let (kind, rest) = kind(rest)?;
    let (nullable, rest) = nullable(rest)?;
    let (primary, rest) = primary(rest)?;
    let column = Definition::Column {
        name,
        kind,
        nullable,
        primary,
    };
    Ok((column, rest))
}

#[tactic(auto, unfolding(crate::specs::Statements::kind_at))]
fn kind(tokens: &[Token]) -> Result<(DeclaredKind, &[Token]), Refusal>
    ensures { Gives (λ x. (x.0, x.1.now)) result (read.kind_at tokens.now) }
{
    match tokens {
        [Token::Key(Word::BigInt), rest @ ..] => Ok((DeclaredKind::BigInt, rest)),
        [Token::Key(Word::VarBinary), rest @ ..] => var_binary(rest),
        _ => Err(unexpected(tokens)),
    }
}

/// What stands behind VARBINARY.
fn var_binary(tokens: &[Token]) -> Result<(DeclaredKind, &[Token]), Refusal>
    ensures { Gives (λ x. (x.0, x.1.now)) result (read.var_binary_at tokens.now) }
{
    match tokens {
        [Token::Open, rest @ ..] => sized(rest),
        _ => Err(unexpected(tokens)),
    }
}

/// What stands behind VARBINARY and an opening bracket.
fn sized(tokens: &[Token]) -> Result<(DeclaredKind, &[Token]), Refusal>
    ensures { Gives (λ x. (x.0, x.1.now)) result (read.sized_at tokens.now) }
{
    match tokens {
        [Token::Number(digits), rest @ ..] => {
            let rest = after_close(rest)?;
            Ok((DeclaredKind::VarBinary(size(digits.as_slice())), rest))
        }
        _ => Err(unexpected(tokens)),
    }
}

/// The number of bytes, where one byte has it.
#[tactic(auto, unfolding(sql_grammar::specs::Grammar::size_of))]
fn size(digits: &[u8]) -> Option<u8>
    ensures { result ≡ grammar.size_of digits.now }
{
    match number(digits) {
        Some(n) if n <= 255 => Some(n as u8),
        _ => None,
    }
}

#[tactic(auto, unfolding(crate::specs::Statements::nullable_at))]
fn nullable(tokens: &[Token]) -> Result<(Option<bool>, &[Token]), Refusal>
    ensures { Gives (λ x. (x.0, x.1.now)) result (read.nullable_at tokens.now) }
{
    match tokens {
        [Token::Key(Word::Not), rest @ ..] => not_null(rest),
        [Token::Key(Word::Null), rest @ ..] => Ok((Some(true), rest)),
        _ => Ok((None, tokens)),
    }
}

/// What stands behind NOT.
fn not_null(tokens: &[Token]) -> Result<(Option<bool>, &[Token]), Refusal>
    ensures { Gives (λ x. (x.0, x.1.now)) result (read.not_null_at tokens.now) }
{
    match tokens {
        [Token::Key(Word::Null), rest @ ..] => Ok((Some(false), rest)),
        _ => Err(unexpected(tokens)),
    }
}

#[tactic(auto, unfolding(crate::specs::Statements::primary_at))]
fn primary(tokens: &[Token]) -> Result<(bool, &[Token]), Refusal>
    ensures { Gives (λ x. (x.0, x.1.now)) result (read.primary_at tokens.now) }
{
    match tokens {
        [Token::Key(Word::Primary), rest @ ..] => primary_key(rest),
        _ => Ok((false, tokens)),
    }
}

/// What stands behind PRIMARY.
fn primary_key(tokens: &[Token]) -> Result<(bool, &[Token]), Refusal>
    ensures { Gives (λ x. (x.0, x.1.now)) result (read.primary_key_at tokens.now) }
{
    match tokens {
        [Token::Key(Word::Key), rest @ ..] => Ok((true, rest)),
        _ => Err(unexpected(tokens)),
    }
}

#[tactic(auto, unfolding(crate::specs::Statements::engine_of))]
fn engine(tokens: &[Token]) -> Result<(), Refusal>
    ensures { Gives (λ x. x) result (read.engine_of tokens.now) }
{
    match tokens {
        [] => Ok(()),
        [
            Token::Bare(Some(Word::Engine), _),
            Token::Compare(Comparison::Equal),
            rest @ ..,
        ] => inno_db(rest),
        [Token::Bare(Some(Word::Engine), _), rest @ ..] => inno_db(rest),
        _ => Err(unexpected(tokens)),
    }
}

#[tactic(auto, unfolding(crate::specs::Statements::inno_db_of))]
fn inno_db(tokens: &[Token]) -> Result<(), Refusal>
    ensures { Gives (λ x. x) result (read.inno_db_of tokens.now) }
{
    match tokens {
        [Token::Bare(Some(Word::InnoDb), _), rest @ ..] => end(rest),
        _ => Err(unexpected(tokens)),
    }
}
