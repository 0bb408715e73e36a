//! The statements that commit an open transaction before anything else.
//! `statement` makes one as such a statement begins, and the machine's states hand it on to `commits`.

use inno_types::Level;

/// A statement that commits an open transaction.
#[derive(Clone, Copy)]
pub enum Committer {
    Commit,
    /// SET autocommit, which turns it on.
    TurnOn,
    /// BEGIN, whose transaction is to be of this level.
    Begin { snapshot: bool, level: Level },
}
