//! SELECT, UPDATE and DELETE: the statements with conditions, each from behind its first word.
//! Conditions and right sides are read below; here they are joined to statements.

ghost use Rattle.std.specs.Prelude.{◌≡◌, [], ◌∷◌, List, IfOk};
ghost use Rattle.std.specs.Option.{option_map};
ghost use Rattle.sql_grammar.specs.declared.token.Token.{Token};
ghost use Rattle.sql_grammar.specs.declared.token.Token.TheVariants.{Key};
ghost use Rattle.sql_grammar.specs.declared.token.Word.TheVariants as words;
ghost use Rattle.sql_grammar.specs.Grammar.{Where, Locking, Assignment, Commas, Statement};
ghost use Rattle.sql_conditions.specs.Parts.{Gives, commas_at};
ghost use Rattle.sql_text.specs.Whole as read;

use crate::selected::{choice, locking};
use inno_types::{Bytes, Comparison, Filter, Mode, Set, Sets, Stmt};
use sql_conditions::{Refusal, after_comma, condition, end, expression, name, unexpected};
use sql_grammar::{Token, Word};
use std::alloc::Global;

/// What stands behind SELECT.
#[tactic(auto, unfolding(crate::specs::Whole::select_of))]
pub(crate) fn select(alloc: Global, tokens: &[Token]) -> Result<Stmt, Refusal>
    ensures exact { Gives (λ _. tt) result (read.select_of tokens.now) }
    ensures spelled { IfOk result (λ s. Statement (Key words.Select ∷ tokens.now) s) }
{
    let (selected, rest) = choice(alloc, tokens)?;
    let (table, rest) = from_table(rest)?;
    let (filter, lock) = where_lock(alloc, rest)?;
    Ok(Stmt::Select {
        selected,
        table,
        filter,
        lock,
    })
}

/// What stands behind UPDATE.
#[tactic(auto, unfolding(crate::specs::Whole::update_of))]
pub(crate) fn update(alloc: Global, tokens: &[Token]) -> Result<Stmt, Refusal>
    ensures exact { Gives (λ _. tt) result (read.update_of tokens.now) }
    ensures spelled { IfOk result (λ s. Statement (Key words.Update ∷ tokens.now) s) }
{
    let (table, rest) = set_table(tokens)?;
    let (sets, rest) = assignments(alloc, rest)?;
    let filter = last_where(alloc, rest)?;
    Ok(Stmt::Update {
        table,
        sets,
        filter,
    })
}

/// What stands behind DELETE.
#[tactic(auto, unfolding(crate::specs::Whole::delete_of))]
pub(crate) fn delete(alloc: Global, tokens: &[Token]) -> Result<Stmt, Refusal>
    ensures exact { Gives (λ _. tt) result (read.delete_of tokens.now) }
    ensures spelled { IfOk result (λ s. Statement (Key words.Delete ∷ tokens.now) s) }
{
    let (table, rest) = from_table(tokens)?;
    let filter = last_where(alloc, rest)?;
    Ok(Stmt::Delete { table, filter })
}

/// The table behind FROM.
#[tactic(auto, unfolding(crate::specs::Whole::from_table_at))]
fn from_table(tokens: &[Token]) -> Result<(Bytes, &[Token]), Refusal>
    ensures { Gives (λ x. (x.0, x.1.now)) result (read.from_table_at tokens.now) }
{
    let from = after_from(tokens)?;
    name(from)
}

/// The table behind UPDATE, with its SET.
#[tactic(auto, unfolding(crate::specs::Whole::set_table_at))]
fn set_table(tokens: &[Token]) -> Result<(Bytes, &[Token]), Refusal>
    ensures { Gives (λ x. (x.0, x.1.now)) result (read.set_table_at tokens.now) }
{
    let (table, rest) = name(tokens)?;
    let rest = after_set(rest)?;
    Ok((table, rest))
}

/// A condition, and the lock behind it.
#[tactic(auto, unfolding(crate::specs::Whole::where_lock_of))]
fn where_lock(alloc: Global, tokens: &[Token]) -> Result<(Option<Filter>, Option<Mode>), Refusal>
    ensures exact { Gives (λ _. tt) result (read.where_lock_of tokens.now) }
    ensures spelled { IfOk result (λ x. (rest : List Token) × Where tokens.now x.0 rest × Locking rest x.1) }
{
    let (filter, rest) = where_clause(alloc, tokens)?;
    match locking(rest) {
        Ok(lock) => Ok((filter, lock)),
        Err(refusal) => {
            drop(filter);
            Err(refusal)
        }
    }
}

/// A condition, and nothing behind it.
#[tactic(auto, unfolding(crate::specs::Whole::last_where_of))]
fn last_where(alloc: Global, tokens: &[Token]) -> Result<Option<Filter>, Refusal>
    ensures exact { Gives (λ _. tt) result (read.last_where_of tokens.now) }
    ensures spelled { IfOk result (λ filter. Where tokens.now filter []) }
{
    let (filter, rest) = where_clause(alloc, tokens)?;
    match end(rest) {
        Ok(()) => Ok(filter),
        Err(refusal) => {
            drop(filter);
            Err(refusal)
        }
    }
}

#[tactic(auto, unfolding(crate::specs::Whole::after_where))]
fn where_clause(alloc: Global, tokens: &[Token]) -> Result<(Option<Filter>, &[Token]), Refusal>
    ensures exact { Gives (λ x. x.1.now) result (read.after_where tokens.now) }
    ensures spelled { IfOk result (λ x. Where tokens.now x.0 x.1.now) }
{
    match behind_where(tokens) {
        Some(behind) => {
            let (filter, rest) = condition(alloc, behind)?;
            Ok((Some(filter), rest))
        }
        None => Ok((None, tokens)),
    }
}

fn after_from(tokens: &[Token]) -> Result<&[Token], Refusal>
    ensures { Gives (λ r. r.now) result (read.after_from tokens.now) }
{
    match tokens {
        [Token::Key(Word::From), rest @ ..] => Ok(rest),
        _ => Err(unexpected(tokens)),
    }
}

fn after_set(tokens: &[Token]) -> Result<&[Token], Refusal>
    ensures { Gives (λ r. r.now) result (read.after_set tokens.now) }
{
    match tokens {
        [Token::Key(Word::Set), rest @ ..] => Ok(rest),
        _ => Err(unexpected(tokens)),
    }
}

fn after_equal(tokens: &[Token]) -> Result<&[Token], Refusal>
    ensures { Gives (λ r. r.now) result (read.after_equal tokens.now) }
{
    match tokens {
        [Token::Compare(Comparison::Equal), rest @ ..] => Ok(rest),
        _ => Err(unexpected(tokens)),
    }
}

fn behind_where(tokens: &[Token]) -> Option<&[Token]>
    ensures { option_map (λ r. r.now) result ≡ read.behind_where tokens.now }
{
    match tokens {
        [Token::Key(Word::Where), rest @ ..] => Some(rest),
        _ => None,
    }
}

fn assignments(alloc: Global, tokens: &[Token]) -> Result<(Sets, &[Token]), Refusal>
    ensures exact { Gives (λ x. (read.columns_of x.0, x.1.now)) result (commas_at read.assignment_at tokens.now) }
    ensures spelled { IfOk result (λ x. Commas Assignment tokens.now x.0 x.1.now) }
{
    let mut sets = Vec::new(alloc);
    let mut rest = tokens;
    let count = tokens.len();
    for _ in 0..count {
        let (set, after) = assignment(alloc, rest)?;
        sets.push(set)?;
        match after_comma(after) {
            Some(more) => rest = more,
            None => return Ok((Sets::from_vec(sets), after)),
        }
    }
    Err(unexpected(rest))
}

#[tactic(auto, unfolding(crate::specs::Whole::assignment_at))]
fn assignment(alloc: Global, tokens: &[Token]) -> Result<(Set, &[Token]), Refusal>
    ensures exact { Gives (λ x. (x.0.column, x.1.now)) result (read.assignment_at tokens.now) }
    ensures spelled { IfOk result (λ x. Assignment tokens.now x.0 x.1.now) }
{
    let (column, rest) = name(tokens)?;
    let right = after_equal(rest)?;
    let (value, rest) = expression(alloc, right)?;
    Ok((Set { column, value }, rest))
}
