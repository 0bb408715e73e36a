//! What a session is asked and what it is answered, with the numbers that MySQL gives its errors.
//! Whoever drives a session makes items; statements, and an engine that has stopped, make the replies.

ghost use Rattle.std.specs.Prelude.{◌≡◌, IfOk};

use crate::listed::{Bytes, Edges, Rows};
use crate::lock::Lock;
use crate::value::Value;
use std::alloc::AllocError;

/// What a session is asked to do.
#[derive(Clone, Drop)]
pub enum Item {
    Sql(Bytes),
    Signal(Bytes),
    Await(Bytes),
}

/// Why a statement is refused.
#[derive(Drop)]
pub enum SqlError {
    Deadlock { cycle: Edges },
    Timeout { held: Lock, waited: u64 },
    Duplicate { key: Value },
    NoSavepoint,
    Syntax { at: u32 },
    NoTable,
    NoColumn,
    TwiceNamed,
    WrongCount,
    NoDefault,
    IsNull,
    TooBig,
    OutOfRange,
    TooLong,
    TableThere,
    Full { need: u32, free: u32 },
    TooDeep,
    CatalogFull { tables: u32 },
    InTransaction,
}

/// The answer to an item.
#[derive(Drop)]
pub enum Reply {
    Done,
    Count(u64),
    Rows(Rows),
    Fail(SqlError),
    RunLimit { rows: u64 },
    NotSignalled { waited: u64 },
    Stopped,
    NoMemory,
}

/// Why an engine stopped.
#[derive(Clone, Copy)]
pub enum Cause {
    Disk,
    Reread { page: u32, rule: u8 },
}

impl SqlError {
    ghost use Rattle.inno_types.specs.Codes.{code_of, state_of};

    /// The number by which MySQL names the error.
    pub fn code(&self) -> u16
        ensures { result ≡ code_of self.now }
    {
        match self {
            SqlError::Deadlock { .. } => 1213,
            SqlError::Timeout { .. } => 1205,
            SqlError::Duplicate { .. } => 1062,
            SqlError::NoSavepoint => 1305,
            SqlError::Syntax { .. } => 1064,
            SqlError::NoTable => 1146,
            SqlError::NoColumn => 1054,
            SqlError::TwiceNamed => 1110,
            SqlError::WrongCount => 1136,
            SqlError::NoDefault => 1364,
            SqlError::IsNull => 1048,
            SqlError::TooBig => 1264,
            SqlError::OutOfRange => 1690,
            SqlError::TooLong => 1406,
            SqlError::TableThere => 1050,
            SqlError::Full { .. } | SqlError::TooDeep | SqlError::CatalogFull { .. } => 1114,
            SqlError::InTransaction => 1568,
        }
    }

    pub fn state(&self) -> &'static str
        ensures { result.now ≡ state_of self.now }
    {
        match self {
            SqlError::Deadlock { .. } => "40001",
            SqlError::Timeout { .. } => "HY000",
            SqlError::Duplicate { .. } => "23000",
            SqlError::NoSavepoint => "42000",
            SqlError::Syntax { .. } => "42000",
            SqlError::NoTable => "42S02",
            SqlError::NoColumn => "42S22",
            SqlError::TwiceNamed => "42000",
            SqlError::WrongCount => "21S01",
            SqlError::NoDefault => "HY000",
            SqlError::IsNull => "23000",
            SqlError::TooBig | SqlError::OutOfRange => "22003",
            SqlError::TooLong => "22001",
            SqlError::TableThere => "42S01",
            SqlError::Full { .. } | SqlError::TooDeep | SqlError::CatalogFull { .. } => "HY000",
            SqlError::InTransaction => "25001",
        }
    }

    /// The same error.
    pub fn copied(&self) -> Result<Self, AllocError>
        ensures { IfOk result (λ error. error ≡ self.now) }
    {
        match self {
            SqlError::Deadlock { cycle } => Ok(SqlError::Deadlock {
                cycle: cycle.copied()?,
            }),
            SqlError::Timeout { held, waited } => Ok(SqlError::Timeout {
                held: held.copied()?,
                waited: *waited,
            }),
            SqlError::Duplicate { key } => Ok(SqlError::Duplicate { key: key.clone()? }),
            SqlError::Syntax { at } => Ok(SqlError::Syntax { at: *at }),
            SqlError::Full { need, free } => Ok(SqlError::Full {
                need: *need,
                free: *free,
            }),
            SqlError::CatalogFull { tables } => Ok(SqlError::CatalogFull { tables: *tables }),
            SqlError::NoSavepoint => Ok(SqlError::NoSavepoint),
            SqlError::NoTable => Ok(SqlError::NoTable),
            SqlError::NoColumn => Ok(SqlError::NoColumn),
            SqlError::TwiceNamed => Ok(SqlError::TwiceNamed),
            SqlError::WrongCount => Ok(SqlError::WrongCount),
            SqlError::NoDefault => Ok(SqlError::NoDefault),
            SqlError::IsNull => Ok(SqlError::IsNull),
            SqlError::TooBig => Ok(SqlError::TooBig),
            SqlError::OutOfRange => Ok(SqlError::OutOfRange),
            SqlError::TooLong => Ok(SqlError::TooLong),
            SqlError::TableThere => Ok(SqlError::TableThere),
            SqlError::TooDeep => Ok(SqlError::TooDeep),
            SqlError::InTransaction => Ok(SqlError::InTransaction),
        }
    }
}

impl Item {
    /// The same item.
    pub fn copied(&self) -> Result<Self, AllocError>
        ensures { IfOk result (λ item. item ≡ self.now) }
    {
        self.clone()
    }
}

impl Reply {
    /// The same reply.
    pub fn copied(&self) -> Result<Self, AllocError>
        ensures { IfOk result (λ reply. reply ≡ self.now) }
    {
        match self {
            Reply::Rows(rows) => Ok(Reply::Rows(rows.copied()?)),
            Reply::Fail(error) => Ok(Reply::Fail(error.copied()?)),
            Reply::Done => Ok(Reply::Done),
            Reply::Count(count) => Ok(Reply::Count(*count)),
            Reply::RunLimit { rows } => Ok(Reply::RunLimit { rows: *rows }),
            Reply::NotSignalled { waited } => Ok(Reply::NotSignalled { waited: *waited }),
            Reply::Stopped => Ok(Reply::Stopped),
            Reply::NoMemory => Ok(Reply::NoMemory),
        }
    }
}
