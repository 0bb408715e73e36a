//! The settings of one session, as the definitions of a history speak of them.
//! The room of a session (`world_parts`) holds them and alone changes them; statements read them.

ghost use Rattle.std.specs.Prelude.{◌≡◌, ℕ, true, false, None, OnOk, OnErr};
ghost use Rattle.sql_history.specs.Settings.{at_first, next_level, made_at, at_begin, at_end, saved, back_to, set_by};
ghost use Rattle.sql_history.specs.Named.{KeepsNoName};

use crate::Save;
use crate::save_list::{drop_later, drop_named, find, put_first};
use inno_types::{Bytes, Level, LevelScope, Stmt};
use std::alloc::Global;
use std::marker::Model;
use store_api::NoMemory;

/// What a session has set.
#[derive(Drop)]
pub struct SessionSettings {
    autocommit: bool,
    /// The level of the later transactions.
    later: Level,
    /// The level of the next transaction alone.
    next: Option<Level>,
    /// The newest first.
    saves: Vec<Save>,
}

impl Model for SessionSettings {
    ghost use Rattle.sql_history.specs.Settings.{Setting};
    ghost use Rattle.sql_history.specs.Named.{setting_code};

    ghost Value = { Setting };

    ghost coded = { setting_code };

    ghost view = { λ s. record { autocommit = s.autocommit; later = s.later; next = s.next; saves = s.saves.items } };
}

impl SessionSettings {
    /// Those of a session that has set nothing: autocommit is on, and transactions are at REPEATABLE READ.
    pub fn new(alloc: Global) -> Self
        ensures { result ≡ at_first }
    {
        SessionSettings {
            autocommit: true,
            later: Level::RepeatableRead,
            next: None,
            saves: Vec::new(alloc),
        }
    }

    pub fn autocommit(&self) -> bool
        ensures { result ≡ self.now.autocommit }
    {
        self.autocommit
    }

    /// The level of the transaction that begins next.
    pub fn next_level(&self) -> Level
        ensures { result ≡ next_level self.now }
    {
        match self.next {
            Some(level) => level,
            None => self.later,
        }
    }

    /// How many changes the open transaction had made at its savepoint of this name.
    pub fn made_at(&self, name: &Bytes) -> Option<u64>
        ensures { result ≡ made_at name.now self.now.saves }
    {
        find(&self.saves, name)
    }

    /// A transaction begins: it uses up the level that was set for it, and has no savepoint.
    pub fn begin(&mut self)
        ensures { self.new ≡ at_begin self.old }
    {
        self.next = None;
        self.end();
    }

    /// The transaction ends, and its savepoints go. It takes no memory.
    pub fn end(&mut self)
        ensures { self.new ≡ at_end self.old }
    {
        self.saves.clear();
    }

    /// Keeps a savepoint of the open transaction, which has made so many changes. It takes the place of an older one of
    /// its name. An `Err` changes nothing.
    /// MySQL 8.0 Reference Manual, "SAVEPOINT, ROLLBACK TO SAVEPOINT, and RELEASE SAVEPOINT Statements".
    pub fn save(&mut self, name: Bytes, made: u64) -> Result<(), NoMemory>
        ensures ok { OnOk result (self.new ≡ record self.old { saves = saved name made true self.old.saves }) }
        ensures err { OnErr result (self.new ≡ self.old) }
    {
        self.saves.reserve(1)?;
        drop_named(&mut self.saves, &name);
        put_first(&mut self.saves, Save { name, made });
        Ok(())
    }

    /// The savepoints that were made after the one of this name go. It takes no memory.
    pub fn back_to(&mut self, name: &Bytes)
        ensures { self.new ≡ record self.old { saves = back_to name.now self.old.saves } }
    {
        drop_later(&mut self.saves, name);
    }

    /// What a statement that was done sets, other than a savepoint of an open transaction. It takes no memory.
    pub fn set_by(&mut self, stmt: &Stmt)
        ensures { (made : ℕ) → self.new ≡ set_by stmt.now made false self.old }
    {
        match stmt {
            Stmt::SetAutocommit(on) => self.autocommit = *on,
            Stmt::SetLevel { scope, level } => self.set_level(*scope, *level),
            Stmt::RollbackTo { savepoint } => drop_later(&mut self.saves, savepoint),
            Stmt::CreateTable { .. }
            | Stmt::Select { .. }
            | Stmt::Insert { .. }
            | Stmt::Update { .. }
            | Stmt::Delete { .. }
            | Stmt::Begin { .. }
            | Stmt::Commit
            | Stmt::Rollback
            | Stmt::Savepoint { .. } => {}
        }
    }

    fn set_level(&mut self, scope: LevelScope, level: Level)
        ensures { (made : ℕ) → self.new ≡ set_by (Stmt.SetLevel scope level) made false self.old }
    {
        match scope {
            LevelScope::Session => self.later = level,
            LevelScope::NextTransaction => self.next = Some(level),
        }
    }
}

/// A statement that keeps no savepoint sets the same with and without an open transaction.
pub fn a_setting_does_not_ask_for_a_transaction()
    ensures { (stmt : _) (made : ℕ) (is_open : _) (setting : _) → KeepsNoName stmt → set_by stmt made is_open setting ≡ set_by stmt made false setting }
{}
