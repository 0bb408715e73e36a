//! SET: autocommit, and the isolation level of the session or of the next transaction.
//! Nothing is set here; who runs the statement does that.

ghost use Rattle.std.specs.Prelude.{◌≡◌};
ghost use Rattle.sql_conditions.specs.Parts.{Gives, ends_as};
ghost use Rattle.sql_simple_statements.specs.Statements as read;

use inno_types::{Comparison, Level, LevelScope, Stmt};
use sql_conditions::{Refusal, end, unexpected};
use sql_grammar::{Token, Word};

/// What stands behind SET.
#[tactic(auto, unfolding(crate::specs::Statements::set_of))]
pub fn set(tokens: &[Token]) -> Result<Stmt, Refusal>
    ensures { Gives (λ s. s) result (read.set_of tokens.now) }
{
    match tokens {
        [Token::Bare(Some(Word::Autocommit), _), rest @ ..] => autocommit(rest),
        [Token::Bare(Some(Word::Session), _), rest @ ..] => level(LevelScope::Session, rest),
        _ => level(LevelScope::NextTransaction, tokens),
    }
}

#[tactic(auto, unfolding(crate::specs::Statements::autocommit_of))]
fn autocommit(tokens: &[Token]) -> Result<Stmt, Refusal>
    ensures { Gives (λ s. s) result (read.autocommit_of tokens.now) }
{
    match tokens {
        [Token::Compare(Comparison::Equal), rest @ ..] => set_autocommit(rest),
        _ => Err(unexpected(tokens)),
    }
}

fn set_autocommit(tokens: &[Token]) -> Result<Stmt, Refusal>
    ensures { Gives (λ s. s) result (read.set_autocommit_of tokens.now) }
{
    let on = switch(tokens)?;
    Ok(Stmt::SetAutocommit(on))
}

#[tactic(auto, unfolding(crate::specs::Statements::switch_of))]
fn switch(tokens: &[Token]) -> Result<bool, Refusal>
    ensures { Gives (λ x. x) result (read.switch_of tokens.now) }
{
    match tokens {
        [Token::Number(digits), rest @ ..] => {
            if digits.as_slice() == b"0".as_slice() {
                return last_switch(false, rest);
            }
            if digits.as_slice() == b"1".as_slice() {
                return last_switch(true, rest);
            }
            Err(unexpected(tokens))
        }
        [Token::Bare(Some(Word::On), _), rest @ ..] => last_switch(true, rest),
        [Token::Bare(Some(Word::Off), _), rest @ ..] => last_switch(false, rest),
        _ => Err(unexpected(tokens)),
    }
}

/// The switch, where nothing stands behind it.
fn last_switch(on: bool, tokens: &[Token]) -> Result<bool, Refusal>
    ensures { Gives (λ x. x) result (ends_as on tokens.now) }
{
    end(tokens)?;
    Ok(on)
}

#[tactic(auto, unfolding(crate::specs::Statements::level_of))]
fn level(scope: LevelScope, tokens: &[Token]) -> Result<Stmt, Refusal>
    ensures { Gives (λ s. s) result (read.level_of scope tokens.now) }
{
    match tokens {
        [Token::Bare(Some(Word::Transaction), _), rest @ ..] => isolation(scope, rest),
        _ => Err(unexpected(tokens)),
    }
}

#[tactic(auto, unfolding(crate::specs::Statements::isolation_of))]
fn isolation(scope: LevelScope, tokens: &[Token]) -> Result<Stmt, Refusal>
    ensures { Gives (λ s. s) result (read.isolation_of scope tokens.now) }
{
    match tokens {
        [Token::Bare(Some(Word::Isolation), _), rest @ ..] => level_word(scope, rest),
        _ => Err(unexpected(tokens)),
    }
}

#[tactic(auto, unfolding(crate::specs::Statements::level_word_of))]
fn level_word(scope: LevelScope, tokens: &[Token]) -> Result<Stmt, Refusal>
    ensures { Gives (λ s. s) result (read.level_word_of scope tokens.now) }
{
    match tokens {
        [Token::Bare(Some(Word::Level), _), rest @ ..] => set_level(scope, rest),
        _ => Err(unexpected(tokens)),
    }
}

fn set_level(scope: LevelScope, tokens: &[Token]) -> Result<Stmt, Refusal>
    ensures { Gives (λ s. s) result (read.set_level_of scope tokens.now) }
{
    let level = level_name(tokens)?;
    Ok(Stmt::SetLevel { scope, level })
}

#[tactic(auto, unfolding(crate::specs::Statements::level_name_of))]
fn level_name(tokens: &[Token]) -> Result<Level, Refusal>
    ensures { Gives (λ x. x) result (read.level_name_of tokens.now) }
{
    match tokens {
        [Token::Bare(Some(Word::Read), _), rest @ ..] => read_level(rest),
        [Token::Bare(Some(Word::Repeatable), _), rest @ ..] => repeatable(rest),
        [Token::Bare(Some(Word::Serializable), _), rest @ ..] => {
            last_level(Level::Serializable, rest)
        }
        _ => Err(unexpected(tokens)),
    }
}

/// What stands behind REPEATABLE.
fn repeatable(tokens: &[Token]) -> Result<Level, Refusal>
    ensures { Gives (λ x. x) result (read.repeatable_of tokens.now) }
{
    match tokens {
        [Token::Bare(Some(Word::Read), _), rest @ ..] => last_level(Level::RepeatableRead, rest),
        _ => Err(unexpected(tokens)),
    }
}

/// The level, where nothing stands behind it.
fn last_level(level: Level, tokens: &[Token]) -> Result<Level, Refusal>
    ensures { Gives (λ x. x) result (ends_as level tokens.now) }
{
    end(tokens)?;
    Ok(level)
}

/// What stands behind READ.
#[tactic(auto, unfolding(crate::specs::Statements::read_level_of))]
fn read_level(tokens: &[Token]) -> Result<Level, Refusal>
    ensures { Gives (λ x. x) result (read.read_level_of tokens.now) }
{
    match tokens {
        [Token::Bare(Some(Word::Uncommitted), _), rest @ ..] => {
            last_level(Level::ReadUncommitted, rest)
        }
        [Token::Bare(Some(Word::Committed), _), rest @ ..] => {
            last_level(Level::ReadCommitted, rest)
        }
        _ => Err(unexpected(tokens)),
    }
}
