//! Statements that begin and end transactions, and those on savepoints.
//! Nothing is begun or ended here; who runs the statement does that.

ghost use Rattle.std.specs.Prelude.{◌≡◌, true};
ghost use Rattle.inno_types.specs.declared.stmt.Stmt.TheVariants as stmt;
ghost use Rattle.sql_conditions.specs.Parts.{Gives, ends_as};
ghost use Rattle.sql_simple_statements.specs.Statements as read;

use inno_types::{Bytes, Stmt};
use sql_conditions::{Refusal, end, name, unexpected};
use sql_grammar::{Token, Word};

/// What stands behind BEGIN.
#[tactic(auto, unfolding(crate::specs::Statements::begin_of))]
pub fn begin(tokens: &[Token]) -> Result<Stmt, Refusal>
    ensures { Gives (λ s. s) result (read.begin_of tokens.now) }
{
    end(after_work(tokens))?;
    Ok(Stmt::Begin { snapshot: false })
}

/// What stands behind COMMIT.
#[tactic(auto, unfolding(crate::specs::Statements::commit_of))]
pub fn commit(tokens: &[Token]) -> Result<Stmt, Refusal>
    ensures { Gives (λ s. s) result (read.commit_of tokens.now) }
{
    end(after_work(tokens))?;
    Ok(Stmt::Commit)
}

/// What stands behind SAVEPOINT.
#[tactic(auto, unfolding(crate::specs::Statements::savepoint_statement_of))]
pub fn savepoint(tokens: &[Token]) -> Result<Stmt, Refusal>
    ensures { Gives (λ s. s) result (read.savepoint_statement_of tokens.now) }
{
    let name = last_name(tokens)?;
    Ok(Stmt::Savepoint { name })
}

fn after_work(tokens: &[Token]) -> &[Token]
    ensures { result.now ≡ read.after_work tokens.now }
{
    match tokens {
        [Token::Bare(Some(Word::Work), _), rest @ ..] => rest,
        _ => tokens,
    }
}

/// What stands behind START.
#[tactic(auto, unfolding(crate::specs::Statements::start_of))]
pub fn start(tokens: &[Token]) -> Result<Stmt, Refusal>
    ensures { Gives (λ s. s) result (read.start_of tokens.now) }
{
    match tokens {
        [Token::Bare(Some(Word::Transaction), _), rest @ ..] => snapshot(rest),
        _ => Err(unexpected(tokens)),
    }
}

#[tactic(auto, unfolding(crate::specs::Statements::snapshot_of))]
fn snapshot(tokens: &[Token]) -> Result<Stmt, Refusal>
    ensures { Gives (λ s. s) result (read.snapshot_of tokens.now) }
{
    match tokens {
        [] => Ok(Stmt::Begin { snapshot: false }),
        [Token::Key(Word::With), rest @ ..] => with_snapshot(rest),
        _ => Err(unexpected(tokens)),
    }
}

/// What stands behind WITH.
#[tactic(auto, unfolding(crate::specs::Statements::with_snapshot_of))]
fn with_snapshot(tokens: &[Token]) -> Result<Stmt, Refusal>
    ensures { Gives (λ s. s) result (read.with_snapshot_of tokens.now) }
{
    match tokens {
        [Token::Bare(Some(Word::Consistent), _), rest @ ..] => consistent(rest),
        _ => Err(unexpected(tokens)),
    }
}

/// What stands behind WITH CONSISTENT.
fn consistent(tokens: &[Token]) -> Result<Stmt, Refusal>
    ensures { Gives (λ s. s) result (read.consistent_of tokens.now) }
{
    match tokens {
        [Token::Bare(Some(Word::Snapshot), _), rest @ ..] => begin_with_snapshot(rest),
        _ => Err(unexpected(tokens)),
    }
}

fn begin_with_snapshot(tokens: &[Token]) -> Result<Stmt, Refusal>
    ensures { Gives (λ s. s) result (ends_as (stmt.Begin true) tokens.now) }
{
    end(tokens)?;
    Ok(Stmt::Begin { snapshot: true })
}

/// A name, and nothing behind it.
fn last_name(tokens: &[Token]) -> Result<Bytes, Refusal>
    ensures { Gives (λ x. x) result (read.name_of tokens.now) }
{
    let (name, rest) = name(tokens)?;
    end(rest)?;
    Ok(name)
}

/// What stands behind ROLLBACK.
pub fn rollback(tokens: &[Token]) -> Result<Stmt, Refusal>
    ensures { Gives (λ s. s) result (read.rollback_of (read.after_work tokens.now)) }
{
    rollback_behind_work(after_work(tokens))
}

/// What stands behind ROLLBACK and WORK.
#[tactic(auto, unfolding(crate::specs::Statements::rollback_of))]
fn rollback_behind_work(tokens: &[Token]) -> Result<Stmt, Refusal>
    ensures { Gives (λ s. s) result (read.rollback_of tokens.now) }
{
    match tokens {
        [] => Ok(Stmt::Rollback),
        [Token::Key(Word::To), rest @ ..] => rollback_to(rest),
        _ => Err(unexpected(tokens)),
    }
}

/// What stands behind TO.
fn rollback_to(tokens: &[Token]) -> Result<Stmt, Refusal>
    ensures { Gives (λ s. s) result (read.rollback_to_of tokens.now) }
{
    let savepoint = savepoint_behind_to(tokens)?;
    Ok(Stmt::RollbackTo { savepoint })
}

/// A savepoint behind TO. A lone SAVEPOINT is its name.
#[tactic(auto, unfolding(crate::specs::Statements::savepoint_of))]
fn savepoint_behind_to(tokens: &[Token]) -> Result<Bytes, Refusal>
    ensures { Gives (λ x. x) result (read.savepoint_of tokens.now) }
{
    match tokens {
        [Token::Bare(Some(Word::Savepoint), name)] => Ok(name.copied()?),
        [Token::Bare(Some(Word::Savepoint), _), rest @ ..] => last_name(rest),
        _ => last_name(tokens),
    }
}
