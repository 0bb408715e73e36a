//! A whole statement, by its first word. What stands behind the word is read by its own function;
//! only the parser takes statements from here.

ghost use Rattle.std.specs.Prelude.{◌≡◌, ◌∷◌, IfOk};
ghost use Rattle.sql_grammar.specs.declared.token.Token.TheVariants.{Key};
ghost use Rattle.sql_grammar.specs.declared.token.Word.TheVariants as words;
ghost use Rattle.sql_grammar.specs.Grammar.{Statement};
ghost use Rattle.sql_conditions.specs.Parts.{Gives, read_it};
ghost use Rattle.sql_simple_statements.specs.Statements as simple;
ghost use Rattle.sql_text.specs.Whole as read;

use crate::select::{delete, select, update};
use inno_types::Stmt;
use sql_conditions::{Refusal, unexpected};
use sql_grammar::{Token, Word};
use sql_simple_statements::{begin, commit, create_table, insert, rollback, savepoint, set, start};
use std::alloc::Global;

/// The statement that all of the tokens spell.
pub fn statement(alloc: Global, tokens: &[Token]) -> Result<Stmt, Refusal>
    ensures exact { Gives (λ _. tt) result (read.statement_of tokens.now) }
    ensures spelled { IfOk result (λ s. Statement tokens.now s) }
{
    match first_of(tokens) {
        First::Key(word, rest) => behind_key(alloc, word, tokens, rest),
        First::Bare(word, rest) => behind_word(word, tokens, rest),
        First::Other => Err(unexpected(tokens)),
    }
}

/// The first word of a statement, and what stands behind it.
#[derive(Clone, Copy)]
pub enum First<'a> {
    Key(Word, &'a [Token]),
    Bare(Word, &'a [Token]),
    Other,
}

#[tactic(auto, unfolding(crate::specs::Whole::first_of))]
fn first_of(tokens: &[Token]) -> First<'_>
    ensures { read.first_by result ≡ read.first_of tokens.now }
{
    match tokens {
        [Token::Key(word), rest @ ..] => First::Key(*word, rest),
        [Token::Bare(Some(word), _), rest @ ..] => First::Bare(*word, rest),
        _ => First::Other,
    }
}

#[tactic(auto, unfolding(crate::specs::Whole::behind_key))]
fn behind_key(alloc: Global, word: Word, tokens: &[Token], rest: &[Token]) -> Result<Stmt, Refusal>
    ensures exact { Gives (λ _. tt) result (read.behind_key word tokens.now rest.now) }
    ensures spelled { IfOk result (λ s. Statement (Key word ∷ rest.now) s) }
{
    match word {
        Word::Create => create_statement(alloc, rest),
        Word::Select => select(alloc, rest),
        Word::Insert => insert_statement(alloc, rest),
        Word::Update => update(alloc, rest),
        Word::Delete => delete(alloc, rest),
        Word::Set => set_statement(rest),
        _ => Err(unexpected(tokens)),
    }
}

fn create_statement(alloc: Global, tokens: &[Token]) -> Result<Stmt, Refusal>
    ensures exact { Gives (λ _. tt) result (read.create_table_of tokens.now) }
    ensures spelled { IfOk result (λ s. Statement (Key words.Create ∷ tokens.now) s) }
{
    create_table(alloc, tokens)
}

fn insert_statement(alloc: Global, tokens: &[Token]) -> Result<Stmt, Refusal>
    ensures exact { Gives (λ _. tt) result (read_it (simple.insert_of tokens.now)) }
    ensures spelled { IfOk result (λ s. Statement (Key words.Insert ∷ tokens.now) s) }
{
    insert(alloc, tokens)
}

fn set_statement(tokens: &[Token]) -> Result<Stmt, Refusal>
    ensures exact { Gives (λ _. tt) result (read_it (simple.set_of tokens.now)) }
    ensures spelled { IfOk result (λ s. Statement (Key words.Set ∷ tokens.now) s) }
{
    set(tokens)
}

#[tactic(auto, unfolding(crate::specs::Whole::behind_word))]
fn behind_word(word: Word, tokens: &[Token], rest: &[Token]) -> Result<Stmt, Refusal>
    ensures { Gives (λ s. s) result (read.behind_word word tokens.now rest.now) }
{
    match word {
        Word::Begin => begin(rest),
        Word::Start => start(rest),
        Word::Commit => commit(rest),
        Word::Rollback => rollback(rest),
        Word::Savepoint => savepoint(rest),
        _ => Err(unexpected(tokens)),
    }
}
