//! The tree that the bytes of a statement spell, or the place up to which they begin one.
//! What callers call to read a statement.

ghost use Rattle.std.specs.Prelude.{◌≡◌, ℕ, ◌≤◌, List, length, IfOk, IfErr, min};
ghost use Rattle.sql_grammar.specs.Grammar.{Spells};
ghost use Rattle.sql_prefix.specs.declared.parser.ParseBad.TheVariants.{Syntax, NoMemory};
ghost use Rattle.sql_prefix.specs.Refused.{IsFirstBad, IsRefusedAt};
ghost use Rattle.sql_prefix.specs.Prefix.{IsLongestPrefix};

use crate::place::longest_prefix;
use inno_types::Stmt;
use sql_text::NotParsed;
use std::alloc::{AllocError, Global};
use thiserror::Error;

/// Why bytes were not parsed.
#[derive(Debug, Drop, Error)]
pub enum ParseBad {
    /// No statement begins with more of the bytes than stand before this one.
    #[error("no statement goes on as it does at byte {at}")]
    Syntax { at: u32 },
    #[error("out of memory")]
    NoMemory,
}

impl From<AllocError> for ParseBad {
    ghost from_gives = { λ _ e. e ≡ NoMemory };

    fn from(_e: AllocError) -> ParseBad {
        ParseBad::NoMemory
    }
}

/// The statement that the bytes spell.
pub fn parse(alloc: Global, bytes: &[u8]) -> Result<Stmt, ParseBad>
    ensures spelled { IfOk result (λ s. Spells bytes.now s) }
    // A refusal for its syntax comes only where they spell no statement, and names the end of the longest prefix.
    ensures refused { IfErr result (λ e. IsRefusedAt bytes.now e) }
{
    match sql_text::parse(alloc, bytes) {
        Ok(stmt) => Ok(stmt),
        Err(NotParsed::NoStatement) => {
            let at = longest_prefix(alloc, bytes)?;
            Err(syntax(at))
        }
        Err(NotParsed::NoMemory) => Err(ParseBad::NoMemory),
    }
}

fn syntax(at: usize) -> ParseBad
    ensures { result ≡ Syntax (min at u32.MAX) }
{
    if at < u32::MAX as usize {
        return ParseBad::Syntax { at: at as u32 };
    }
    ParseBad::Syntax { at: u32::MAX }
}

/// A refusal for its syntax names the first bad byte of a text, and exactly so where 32 bits have its length.
/// The body is empty: the contract is the law.
pub fn refusals_name_the_first_bad_byte()
    ensures named { (bytes : List ℕ) (at : ℕ) → IsRefusedAt bytes (Syntax at) → IsFirstBad bytes at }
    ensures exact { (bytes : List ℕ) (at : ℕ) → IsFirstBad bytes at → length bytes ≤ u32.MAX → IsLongestPrefix bytes at }
{}
