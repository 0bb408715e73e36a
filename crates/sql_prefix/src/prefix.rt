//! Whether bytes begin some statement: each end of the last token is tried, and each rest of a key word.
//! The key words are those of `sql_tokens`.

ghost use Rattle.std.specs.Prelude.{◌≡◌, ◌≤◌, ◌++◌, [], ◌∷◌, length, IfOk, Any};
ghost use Rattle.std.specs.Bool.{Decides};
ghost use Rattle.sql_grammar.specs.Words as key_words;
ghost use Rattle.sql_prefix.specs.Endings as spelled;
ghost use Rattle.sql_prefix.specs.Prefix.{ends_in as ends_so, Begins, GoesOn, GoesOnAt, GoesOnByToken, GoesOnByWord, IsCutOff};

use sql_grammar::Word;
use sql_text::tokens_left;
use sql_tokens::{capitals, lex, other_words, reserved_words, spelling};
use std::alloc::{AllocError, Global};

/// What may finish the last token or comment of a text, apart from the rest of a key word.
#[derive(Clone, Copy)]
pub enum TokenEnd {
    Nothing,
    Underscore,
    Equal,
    Minus,
    EndOfComment,
    Comment,
    Backquote,
    Name,
    Backquotes,
    Quote,
    Text,
    DoubleQuote,
    DoubleText,
}

const TOKEN_ENDS: [TokenEnd; 13] = [
    TokenEnd::Nothing,
    TokenEnd::Underscore,
    TokenEnd::Equal,
    TokenEnd::Minus,
    TokenEnd::EndOfComment,
    TokenEnd::Comment,
    TokenEnd::Backquote,
    TokenEnd::Name,
    TokenEnd::Backquotes,
    TokenEnd::Quote,
    TokenEnd::Text,
    TokenEnd::DoubleQuote,
    TokenEnd::DoubleText,
];

fn token_end(end: TokenEnd) -> &'static [u8]
    ensures { result.now ≡ spelled.token_end end }
{
    match end {
        TokenEnd::Nothing => b"",
        TokenEnd::Underscore => b"_",
        TokenEnd::Equal => b"=",
        TokenEnd::Minus => b"-",
        TokenEnd::EndOfComment => b"*/",
        TokenEnd::Comment => b"**/",
        TokenEnd::Backquote => b"`",
        TokenEnd::Name => b"x`",
        TokenEnd::Backquotes => b"``",
        TokenEnd::Quote => b"'",
        TokenEnd::Text => b"x'",
        TokenEnd::DoubleQuote => b"\"",
        TokenEnd::DoubleText => b"x\"",
    }
}

/// The bytes, such an end of their last token, and a new line.
fn with_end(alloc: Global, bytes: &[u8], end: &[u8]) -> Result<Vec<u8>, AllocError>
    ensures { IfOk result (λ v. v.items ≡ bytes.now ++ (end.now ++ (10 ∷ []))) }
{
    let mut text = Vec::from_slice(alloc, bytes)?;
    text.extend_from_slice(end)?;
    text.push(b'\n')?;
    Ok(text)
}

/// Whether the bytes with such an end are the first tokens of a statement.
fn is_cut_off(alloc: Global, bytes: &[u8], end: &[u8]) -> Result<bool, AllocError>
    ensures { IfOk result (λ b. Decides b (IsCutOff bytes.now end.now)) }
{
    let text = with_end(alloc, bytes, end)?;
    let lexed = lex(alloc, text.as_slice())?;
    if lexed.unread > 0 {
        return Ok(false);
    }
    let left = tokens_left(alloc, lexed.tokens.as_slice())?;
    Ok(left == 0)
}

fn goes_on_by_one(alloc: Global, ends: &[TokenEnd], bytes: &[u8]) -> Result<bool, AllocError>
    ensures { IfOk result (λ b. Decides b (Any (λ e. IsCutOff bytes.now (spelled.token_end e)) ends.now)) }
{
    for end in ends {
        if is_cut_off(alloc, bytes, token_end(*end))? {
            return Ok(true);
        }
    }
    Ok(false)
}

fn goes_on_by_token(alloc: Global, bytes: &[u8]) -> Result<bool, AllocError>
    ensures { IfOk result (λ b. Decides b (GoesOnByToken bytes.now)) }
{
    goes_on_by_one(alloc, &TOKEN_ENDS, bytes)
}

/// Whether the last bytes are these, in any case of letters.
fn ends_in(alloc: Global, bytes: &[u8], head: &[u8]) -> Result<bool, AllocError>
    ensures { IfOk result (λ b. b ≡ ends_so bytes.now head.now) }
{
    let (_, last) = bytes.split_at(bytes.len().saturating_sub(head.len()));
    let last = capitals(alloc, last)?;
    Ok(last.as_slice() == head)
}

/// Whether the bytes end in so many bytes of the word, and its rest goes on.
fn goes_on_at(alloc: Global, bytes: &[u8], word: &[u8], len: usize) -> Result<bool, AllocError>
    requires { len ≤ length word.now }
    ensures { IfOk result (λ b. Decides b (GoesOnAt bytes.now word.now len)) }
{
    let (head, tail) = word.split_at(len);
    if ends_in(alloc, bytes, head)? {
        return is_cut_off(alloc, bytes, tail);
    }
    Ok(false)
}

/// Whether the bytes end in a front of the word, and its rest goes on.
fn goes_on_by(alloc: Global, bytes: &[u8], word: &[u8]) -> Result<bool, AllocError>
    ensures { IfOk result (λ b. Decides b (GoesOn bytes.now word.now)) }
{
    for len in 0..word.len() {
        if goes_on_at(alloc, bytes, word, len + 1)? {
            return Ok(true);
        }
    }
    Ok(false)
}

fn goes_on_by_one_word(alloc: Global, words: &[Word], bytes: &[u8]) -> Result<bool, AllocError>
    ensures { IfOk result (λ b. Decides b (Any (λ w. GoesOn bytes.now (key_words.spelling w)) words.now)) }
{
    for word in words {
        if goes_on_by(alloc, bytes, spelling(*word))? {
            return Ok(true);
        }
    }
    Ok(false)
}

fn goes_on_by_word(alloc: Global, bytes: &[u8]) -> Result<bool, AllocError>
    ensures { IfOk result (λ b. Decides b (GoesOnByWord bytes.now)) }
{
    if goes_on_by_one_word(alloc, reserved_words(), bytes)? {
        return Ok(true);
    }
    goes_on_by_one_word(alloc, other_words(), bytes)
}

/// Whether some statement of the grammar begins with the bytes.
pub fn begins(alloc: Global, bytes: &[u8]) -> Result<bool, AllocError>
    ensures { IfOk result (λ b. Decides b (Begins bytes.now)) }
{
    if goes_on_by_token(alloc, bytes)? {
        return Ok(true);
    }
    goes_on_by_word(alloc, bytes)
}
