//! The statements that have nothing to do but to be done. They reach their session's settings by the history alone.
//! `statement` and `savepoints` make one, and `endings` ends its item.

ghost use Rattle.std.specs.Prelude.{◌≡◌};
ghost use Rattle.transaction_statements.specs.Committing.{set_by};

use inno_types::{Bytes, Level, LevelScope, Stmt};

/// A statement that only sets something, or nothing.
#[derive(Drop)]
pub enum Setter {
    Autocommit(bool),
    Level { scope: LevelScope, level: Level },
    /// A SAVEPOINT outside a transaction with autocommit on, which is not kept.
    Savepoint { name: Bytes },
}

impl Setter {
    pub fn into_stmt(self) -> Stmt
        ensures { result ≡ set_by self }
    {
        match self {
            Setter::Autocommit(on) => Stmt::SetAutocommit(on),
            Setter::Level { scope, level } => Stmt::SetLevel { scope, level },
            Setter::Savepoint { name } => Stmt::Savepoint { name },
        }
    }
}
