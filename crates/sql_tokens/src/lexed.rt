//! All tokens of some bytes, and how many bytes stand from each of them on.
//! Parsers take their tokens from here.

ghost use Rattle.std.specs.Prelude.{◌≡◌, ℕ, List, length, IfOk};
ghost use Rattle.sql_grammar.specs.declared.token.Token.{Token};
ghost use Rattle.sql_grammar.specs.Tokens.{AreTokens};
ghost use Rattle.sql_tokens.specs.Reading.{IsLexed};

use crate::blank::after_blank;
use crate::token::token_at;
use sql_grammar::Token;
use std::alloc::{AllocError, Global};

/// The tokens at the front of some bytes, as far as they go.
#[derive(Drop)]
pub struct Lexed {
    pub tokens: Vec<Token>,
    /// How many bytes stand from each token on.
    pub lefts: Vec<usize>,
    /// How many bytes stand behind the last token that no token begins: none where all were read.
    pub unread: usize,
}

/// The tokens of the bytes, up to where neither a blank nor a token stands.
pub fn lex(alloc: Global, bytes: &[u8]) -> Result<Lexed, AllocError>
    ensures lexed { IfOk result (λ l. IsLexed bytes.now l.tokens.items l.lefts.items l.unread) }
    // Where nothing is left, the bytes are these tokens.
    ensures whole { IfOk result (λ l. l.unread ≡ 0 → AreTokens bytes.now l.tokens.items) }
    // They are no others, and none at all where something is left.
    ensures only { IfOk result (λ l. (others : List Token) → AreTokens bytes.now others → (l.unread ≡ 0) × (others ≡ l.tokens.items)) }
{
    read_all(alloc, bytes)
}

fn read_all(alloc: Global, bytes: &[u8]) -> Result<Lexed, AllocError>
    ensures { IfOk result (λ l. IsLexed bytes.now l.tokens.items l.lefts.items l.unread) }
{
    let mut tokens = Vec::new(alloc);
    let mut lefts = Vec::new(alloc);
    let mut rest = bytes;
    'reading: while !rest.is_empty() {
        match after_blank(rest) {
            Some(after) => rest = after,
            None => match token_at(alloc, rest)? {
                Some((token, after)) => {
                    tokens.push(token)?;
                    lefts.push(rest.len())?;
                    rest = after;
                }
                None => break,
            },
        }
    }
    Ok(Lexed {
        tokens,
        lefts,
        unread: rest.len(),
    })
}
