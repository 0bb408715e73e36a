//! The trees of SQL statements, as the grammar spells them. Names and sizes are not looked at here:
//! the parser makes these trees, and whoever plans or runs a statement reads them.

use crate::listed::{Bytes, Listed};
use crate::lock::{Level, Mode};

/// A literal of a statement.
#[derive(Drop)]
pub enum Literal {
    Null,
    Int(i64),
    /// A number outside 64 bits, which is refused only where its row is taken.
    TooBig,
    Text(Bytes),
}

pub type Literals = Listed<Literal>;

pub type Names = Listed<Bytes>;

pub type Tuples = Listed<Literals>;

#[derive(Clone, Copy)]
pub enum Comparison {
    Equal,
    NotEqual,
    Less,
    LessOrEqual,
    Greater,
    GreaterOrEqual,
}

/// One side of a comparison.
#[derive(Drop)]
pub enum Operand {
    Literal(Literal),
    Column(Bytes),
}

/// The condition of a WHERE. Brackets leave no trace.
#[derive(Drop)]
pub enum Filter {
    Compare {
        left: Operand,
        comparison: Comparison,
        right: Operand,
    },
    Between {
        column: Bytes,
        negated: bool,
        low: Literal,
        high: Literal,
    },
    In {
        column: Bytes,
        negated: bool,
        literals: Literals,
    },
    IsNull {
        column: Bytes,
        negated: bool,
    },
    Not(Box<Filter>),
    And(Box<Filter>, Box<Filter>),
    Or(Box<Filter>, Box<Filter>),
}

/// The right side of an assignment. Brackets leave no trace.
#[derive(Drop)]
pub enum Expr {
    Literal(Literal),
    Column(Bytes),
    Negate(Box<Expr>),
    Add(Box<Expr>, Box<Expr>),
    Subtract(Box<Expr>, Box<Expr>),
    Multiply(Box<Expr>, Box<Expr>),
}

/// One assignment of an UPDATE.
#[derive(Drop)]
pub struct Set {
    pub column: Bytes,
    pub value: Expr,
}

pub type Sets = Listed<Set>;

/// The type of a column as CREATE TABLE declares it.
#[derive(Clone, Copy)]
pub enum DeclaredKind {
    BigInt,
    /// None where the number is above 255.
    VarBinary(Option<u8>),
}

/// One entry between the brackets of CREATE TABLE.
#[derive(Drop)]
pub enum Definition {
    Column {
        name: Bytes,
        kind: DeclaredKind,
        /// Some(true) at NULL, Some(false) at NOT NULL.
        nullable: Option<bool>,
        primary: bool,
    },
    Primary {
        column: Bytes,
    },
    Key {
        name: Option<Bytes>,
        column: Bytes,
    },
}

pub type Definitions = Listed<Definition>;

/// What a SELECT gives of each row.
#[derive(Drop)]
pub enum Selected {
    AllColumns,
    Columns(Names),
}

/// For which transactions SET TRANSACTION ISOLATION LEVEL sets the level.
#[derive(Clone, Copy)]
pub enum LevelScope {
    Session,
    NextTransaction,
}

/// A statement.
#[derive(Drop)]
pub enum Stmt {
    CreateTable {
        table: Bytes,
        if_not_exists: bool,
        definitions: Definitions,
    },
    /// A lock of mode S for FOR SHARE and LOCK IN SHARE MODE, of mode X for FOR UPDATE.
    Select {
        selected: Selected,
        table: Bytes,
        filter: Option<Filter>,
        lock: Option<Mode>,
    },
    Insert {
        table: Bytes,
        columns: Option<Names>,
        tuples: Tuples,
    },
    Update {
        table: Bytes,
        sets: Sets,
        filter: Option<Filter>,
    },
    Delete {
        table: Bytes,
        filter: Option<Filter>,
    },
    /// BEGIN, BEGIN WORK and START TRANSACTION.
    Begin {
        snapshot: bool,
    },
    Commit,
    Rollback,
    RollbackTo {
        savepoint: Bytes,
    },
    Savepoint {
        name: Bytes,
    },
    SetAutocommit(bool),
    SetLevel {
        scope: LevelScope,
        level: Level,
    },
}

/// One end of a range: the encoded key of a value of the searched column.
#[derive(Drop)]
pub enum Bound {
    Open,
    With(Bytes),
    Without(Bytes),
}

/// The keys that a search visits.
#[derive(Drop)]
pub struct Range {
    pub empty: bool,
    pub low: Bound,
    pub high: Bound,
}
