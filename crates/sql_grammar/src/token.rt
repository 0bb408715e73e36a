//! Tokens of SQL, and its key words.
//! `sql_tokens` makes them of bytes; the readers of statements take them, and the grammar speaks of them alone.

use inno_types::{Bytes, Comparison};

/// A token of a statement.
#[derive(Drop)]
pub enum Token {
    /// A reserved word, which must be quoted to be a name.
    Key(Word),
    /// Any other bare word as it was written, with the key word that it may be in its place.
    Bare(Option<Word>, Bytes),
    /// What stands between backquotes: always a name.
    Quoted(Bytes),
    /// The digits of a number.
    Number(Bytes),
    /// The bytes that a text between quotes stands for.
    Text(Bytes),
    Compare(Comparison),
    Open,
    Close,
    Comma,
    Star,
    Plus,
    Minus,
}

/// A word that has a meaning in its place: the reserved ones first, then those that may be names too.
#[derive(Clone, Copy)]
pub enum Word {
    And,
    Between,
    BigInt,
    Create,
    Delete,
    Exists,
    For,
    From,
    If,
    In,
    Index,
    Insert,
    Into,
    Is,
    Key,
    Lock,
    Not,
    Null,
    Or,
    Primary,
    Select,
    Set,
    Table,
    To,
    Update,
    Values,
    VarBinary,
    Where,
    With,
    Autocommit,
    Begin,
    Commit,
    Committed,
    Consistent,
    Engine,
    InnoDb,
    Isolation,
    Level,
    Mode,
    Off,
    On,
    Read,
    Repeatable,
    Rollback,
    Savepoint,
    Serializable,
    Session,
    Share,
    Snapshot,
    Start,
    Transaction,
    Uncommitted,
    Value,
    Work,
}
