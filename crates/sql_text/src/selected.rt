//! The parts of a SELECT around its condition: what it gives of each row, and the lock that ends it.
//! `select` joins them to a statement.

ghost use Rattle.std.specs.Prelude.{◌≡◌};
ghost use Rattle.sql_conditions.specs.Parts.{Gives};
ghost use Rattle.sql_text.specs.Whole as read;

use inno_types::{Mode, Selected};
use sql_conditions::{Refusal, end, names, unexpected};
use sql_grammar::{Token, Word};
use std::alloc::Global;

/// What a SELECT gives of each row.
#[tactic(auto, unfolding(crate::specs::Whole::choice_at))]
pub(crate) fn choice(alloc: Global, tokens: &[Token]) -> Result<(Selected, &[Token]), Refusal>
    ensures { Gives (λ x. (x.0, x.1.now)) result (read.choice_at tokens.now) }
{
    match tokens {
        [Token::Star, rest @ ..] => Ok((Selected::AllColumns, rest)),
        _ => {
            let (names, rest) = names(alloc, tokens)?;
            Ok((Selected::Columns(names), rest))
        }
    }
}

/// The lock that ends a SELECT.
#[tactic(auto, unfolding(crate::specs::Whole::locking_of))]
pub(crate) fn locking(tokens: &[Token]) -> Result<Option<Mode>, Refusal>
    ensures { Gives (λ x. x) result (read.locking_of tokens.now) }
{
    match tokens {
        [] => Ok(None),
        [Token::Key(Word::For), rest @ ..] => for_lock(rest),
        [Token::Key(Word::Lock), rest @ ..] => in_share_mode(rest),
        _ => Err(unexpected(tokens)),
    }
}

#[tactic(auto, unfolding(crate::specs::Whole::for_lock_of))]
fn for_lock(tokens: &[Token]) -> Result<Option<Mode>, Refusal>
    ensures { Gives (λ x. x) result (read.for_lock_of tokens.now) }
{
    match tokens {
        [Token::Bare(Some(Word::Share), _), rest @ ..] => {
            end(rest)?;
            Ok(Some(Mode::S))
        }
        [Token::Key(Word::Update), rest @ ..] => {
            end(rest)?;
            Ok(Some(Mode::X))
        }
        _ => Err(unexpected(tokens)),
    }
}

#[tactic(auto, unfolding(crate::specs::Whole::in_share_mode_of))]
fn in_share_mode(tokens: &[Token]) -> Result<Option<Mode>, Refusal>
    ensures { Gives (λ x. x) result (read.in_share_mode_of tokens.now) }
{
    match tokens {
        [Token::Key(Word::In), rest @ ..] => share_mode(rest),
        _ => Err(unexpected(tokens)),
    }
}

#[tactic(auto, unfolding(crate::specs::Whole::share_mode_of))]
fn share_mode(tokens: &[Token]) -> Result<Option<Mode>, Refusal>
    ensures { Gives (λ x. x) result (read.share_mode_of tokens.now) }
{
    match tokens {
        [Token::Bare(Some(Word::Share), _), rest @ ..] => mode(rest),
        _ => Err(unexpected(tokens)),
    }
}

#[tactic(auto, unfolding(crate::specs::Whole::mode_of))]
fn mode(tokens: &[Token]) -> Result<Option<Mode>, Refusal>
    ensures { Gives (λ x. x) result (read.mode_of tokens.now) }
{
    match tokens {
        [Token::Bare(Some(Word::Mode), _), rest @ ..] => {
            end(rest)?;
            Ok(Some(Mode::S))
        }
        _ => Err(unexpected(tokens)),
    }
}
