//! The tree that the bytes of a statement spell, and whether a statement begins with some tokens.
//! What callers of this crate call. Where a refused text goes wrong is not said here; `sql_prefix` finds the byte.

ghost use Rattle.std.specs.Prelude.{◌≡◌, ◌==◌, IfOk, IfErr};
ghost use Rattle.sql_grammar.specs.Grammar.{Spells};
ghost use Rattle.std.specs.Bool.{Decides};
ghost use Rattle.sql_text.specs.Parsed.{IsRefused, IsFront};
ghost use Rattle.sql_text.specs.declared.parser.NotParsed.TheVariants.{NoMemory};

use crate::statement::statement;
use inno_types::Stmt;
use sql_conditions::Refusal;
use sql_grammar::Token;
use sql_tokens::lex;
use std::alloc::{AllocError, Global};
use thiserror::Error;

/// Why bytes were not parsed.
#[derive(Debug, Drop, Error)]
pub enum NotParsed {
    #[error("the bytes spell no statement")]
    NoStatement,
    #[error("out of memory")]
    NoMemory,
}

impl From<AllocError> for NotParsed {
    ghost from_gives = { λ _ e. e ≡ NoMemory };

    fn from(_e: AllocError) -> NotParsed {
        NotParsed::NoMemory
    }
}

/// The statement that the bytes spell.
pub fn parse(alloc: Global, bytes: &[u8]) -> Result<Stmt, NotParsed>
    ensures spelled { IfOk result (λ s. Spells bytes.now s) }
    // NoStatement comes only where they spell none.
    ensures refused { IfErr result (λ e. IsRefused bytes.now e) }
{
    let lexed = lex(alloc, bytes)?;
    match statement(alloc, lexed.tokens.as_slice()) {
        Ok(stmt) => {
            if lexed.unread == 0 {
                return Ok(stmt);
            }
            drop(stmt);
            Err(NotParsed::NoStatement)
        }
        Err(Refusal::Unexpected { .. }) => Err(NotParsed::NoStatement),
        Err(Refusal::NoMemory) => Err(NotParsed::NoMemory),
    }
}

/// How many tokens stand from the first on that no statement has there: none where one begins with all of them.
pub fn tokens_left(alloc: Global, tokens: &[Token]) -> Result<usize, AllocError>
    ensures { IfOk result (λ left. Decides (left == 0) (IsFront tokens.now)) }
{
    match statement(alloc, tokens) {
        Ok(stmt) => {
            drop(stmt);
            Ok(0)
        }
        Err(Refusal::Unexpected { left }) => Ok(left),
        Err(Refusal::NoMemory) => Err(AllocError),
    }
}
