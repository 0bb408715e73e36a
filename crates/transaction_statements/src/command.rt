//! The statements on transactions, as they were asked for.
//! `statement` makes one of a statement's tree, and the machine begins by it.

use inno_types::{Bytes, Level, LevelScope};

/// A statement on transactions.
#[derive(Drop)]
pub enum Command {
    Begin { snapshot: bool },
    Commit,
    Rollback,
    RollbackTo { savepoint: Bytes },
    Savepoint { name: Bytes },
    SetAutocommit(bool),
    SetLevel { scope: LevelScope, level: Level },
}
