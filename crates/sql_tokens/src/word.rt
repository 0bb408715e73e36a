//! Bare words: which key word they spell, in any case of letters; and the one table of key words.
//! Who tries or writes key words takes them from here.

ghost use Rattle.std.specs.Prelude.{◌≡◌, map, IfOk};
ghost use Rattle.sql_grammar.specs.Tokens as spelled;
ghost use Rattle.sql_grammar.specs.Words as spelled_words;

use inno_types::Bytes;
use sql_grammar::{Token, Word};
use std::alloc::{AllocError, Global};

const RESERVED: [Word; 29] = [
    Word::And,
    Word::Between,
    Word::BigInt,
    Word::Create,
    Word::Delete,
    Word::Exists,
    Word::For,
    Word::From,
    Word::If,
    Word::In,
    Word::Index,
    Word::Insert,
    Word::Into,
    Word::Is,
    Word::Key,
    Word::Lock,
    Word::Not,
    Word::Null,
    Word::Or,
    Word::Primary,
    Word::Select,
    Word::Set,
    Word::Table,
    Word::To,
    Word::Update,
    Word::Values,
    Word::VarBinary,
    Word::Where,
    Word::With,
];

const OTHERS: [Word; 25] = [
    Word::Autocommit,
    Word::Begin,
    Word::Commit,
    Word::Committed,
    Word::Consistent,
    Word::Engine,
    Word::InnoDb,
    Word::Isolation,
    Word::Level,
    Word::Mode,
    Word::Off,
    Word::On,
    Word::Read,
    Word::Repeatable,
    Word::Rollback,
    Word::Savepoint,
    Word::Serializable,
    Word::Session,
    Word::Share,
    Word::Snapshot,
    Word::Start,
    Word::Transaction,
    Word::Uncommitted,
    Word::Value,
    Word::Work,
];

/// The words that must be quoted to be names.
pub fn reserved_words() -> &'static [Word]
    ensures { result.now ≡ spelled_words.reserved }
{
    &RESERVED
}

/// The words that have a meaning in their place, and may be names elsewhere.
pub fn other_words() -> &'static [Word]
    ensures { result.now ≡ spelled_words.others }
{
    &OTHERS
}

/// The token of a bare word.
#[tactic(auto, unfolding(sql_grammar::specs::Tokens::word_token))]
pub(crate) fn word_token(alloc: Global, bytes: &[u8]) -> Result<Token, AllocError>
    ensures { IfOk result (λ token. token ≡ spelled.word_token bytes.now) }
{
    let capitals = capitals(alloc, bytes)?;
    match word_among(reserved_words(), &capitals) {
        Some(word) => Ok(Token::Key(word)),
        None => {
            let meaning = word_among(other_words(), &capitals);
            let written = Vec::from_slice(alloc, bytes)?;
            Ok(Token::Bare(meaning, Bytes::from_vec(written)))
        }
    }
}

/// The bytes with each small letter as a capital.
pub fn capitals(alloc: Global, bytes: &[u8]) -> Result<Vec<u8>, AllocError>
    ensures { IfOk result (λ v. v.items ≡ spelled_words.capitals bytes.now) }
{
    bytes.iter().map(|b| b.to_ascii_uppercase()).collect(alloc)
}

fn word_among(words: &[Word], capitals: &[u8]) -> Option<Word>
    ensures { result ≡ spelled_words.word_among words.now capitals.now }
{
    for word in words {
        if capitals == spelling(*word) {
            return Some(*word);
        }
    }
    None
}

/// The word in capital letters.
pub fn spelling(word: Word) -> &'static [u8]
    ensures { result.now ≡ spelled_words.spelling word }
{
    match word {
        Word::And => b"AND",
        Word::Between => b"BETWEEN",
        Word::BigInt => b"BIGINT",
        Word::Create => b"CREATE",
        Word::Delete => b"DELETE",
        Word::Exists => b"EXISTS",
        Word::For => b"FOR",
        Word::From => b"FROM",
        Word::If => b"IF",
        Word::In => b"IN",
        Word::Index => b"INDEX",
        Word::Insert => b"INSERT",
        Word::Into => b"INTO",
        Word::Is => b"IS",
        Word::Key => b"KEY",
        Word::Lock => b"LOCK",
        Word::Not => b"NOT",
        Word::Null => b"NULL",
        Word::Or => b"OR",
        Word::Primary => b"PRIMARY",
        Word::Select => b"SELECT",
        Word::Set => b"SET",
        Word::Table => b"TABLE",
        Word::To => b"TO",
        Word::Update => b"UPDATE",
        Word::Values => b"VALUES",
        Word::VarBinary => b"VARBINARY",
        Word::Where => b"WHERE",
        Word::With => b"WITH",
        Word::Autocommit => b"AUTOCOMMIT",
        Word::Begin => b"BEGIN",
        Word::Commit => b"COMMIT",
        Word::Committed => b"COMMITTED",
        Word::Consistent => b"CONSISTENT",
        Word::Engine => b"ENGINE",
        Word::InnoDb => b"INNODB",
        Word::Isolation => b"ISOLATION",
        Word::Level => b"LEVEL",
        Word::Mode => b"MODE",
        Word::Off => b"OFF",
        Word::On => b"ON",
        Word::Read => b"READ",
        Word::Repeatable => b"REPEATABLE",
        Word::Rollback => b"ROLLBACK",
        Word::Savepoint => b"SAVEPOINT",
        Word::Serializable => b"SERIALIZABLE",
        Word::Session => b"SESSION",
        Word::Share => b"SHARE",
        Word::Snapshot => b"SNAPSHOT",
        Word::Start => b"START",
        Word::Transaction => b"TRANSACTION",
        Word::Uncommitted => b"UNCOMMITTED",
        Word::Value => b"VALUE",
        Word::Work => b"WORK",
    }
}
