//! A statement under way behind a pointer, which a seat moves in its place: a seat is as small as a pointer, whatever its
//! statement holds. Contracts see the statement. Only seats hold one.

ghost use Rattle.std.specs.Prelude.{◌≡◌, ◌<◌, length, true, false, IfOk, count_by};
ghost use Rattle.sql_lists.specs.Steps.{changes_rows};
ghost use Rattle.giving_up.specs.Machines.{MayStep, StepsAs};
ghost use Rattle.statement.specs.Running.{IsRunning, owes_ack, acked, wants_room};
ghost use Rattle.statement.specs.Going.{statement_to_go};

use inno_types::{Boxed, Stmt};
use shared_lists::SharedLists;
use sql_lists::{Advance, SqlLists};
use statement::Statement;
use std::alloc::{AllocError, Global};
use std::marker::Model;
use std::mem;

/// A statement under way, on the heap.
#[derive(Drop)]
pub struct BoxedStatement {
    statement: Box<Statement>,
}

impl Model for BoxedStatement {
    ghost use Rattle.statement.specs.declared.under_way.Statement.{Statement as StatementValue};
    ghost use Rattle.statement.specs.contracts.under_way.Statement as of_statement;

    ghost Value = { StatementValue };

    ghost coded = { of_statement.the_row.coded };

    ghost view = { λ b. b.statement.value };
}

impl BoxedStatement {
    /// A statement that has made no step yet.
    pub fn new(alloc: Global, stmt: Stmt) -> Result<Self, AllocError>
        ensures { IfOk result (λ boxed. boxed ≡ Statement.Asked stmt) }
    {
        let stmt = Boxed::new(alloc, stmt)?;
        Ok(BoxedStatement {
            statement: Box::new(alloc, Statement::Asked(stmt))?,
        })
    }

    pub fn owes_ack(&self) -> bool
        ensures { result ≡ owes_ack self.now }
    {
        self.statement.owes_ack()
    }

    pub fn wants_room(&self) -> bool
        ensures { result ≡ wants_room self.now }
    {
        self.statement.wants_room()
    }

    /// The statement after the acknowledgement of its commit.
    pub fn acked(self) -> Self
        ensures { result ≡ acked self }
    {
        let BoxedStatement { mut statement } = self;
        let before = mem::replace(&mut *statement, Statement::Ended);
        drop(mem::replace(&mut *statement, before.acked()));
        BoxedStatement { statement }
    }

    /// The statement where there is no room for its change.
    pub fn without_room<L: SharedLists>(
        self,
        session: u32,
        lists: &mut SqlLists<L>,
    ) -> (Self, Advance)
        requires joined { session < length lists.old.names }
        requires running { IsRunning lists.old session self }
        requires wants { wants_room self ≡ true }
        ensures step { StepsAs IsRunning statement_to_go session lists.old self lists.new result.0 result.1 }
        ensures lacks { result.1 ≡ Advance.NoMemory }
    {
        let BoxedStatement { mut statement } = self;
        let before = mem::replace(&mut *statement, Statement::Ended);
        let (after, advance) = before.without_room(session, lists);
        drop(mem::replace(&mut *statement, after));
        (BoxedStatement { statement }, advance)
    }

    /// One step of the session's statement, where it lies.
    pub fn step<L: SharedLists>(
        &mut self,
        alloc: Global,
        session: u32,
        lists: &mut SqlLists<L>,
    ) -> Advance
        requires { MayStep IsRunning owes_ack session lists.old self.old }
        ensures step { StepsAs IsRunning statement_to_go session lists.old self.old lists.new self.new result }
        ensures quiet { wants_room self.old ≡ false → count_by changes_rows lists.new.past ≡ count_by changes_rows lists.old.past }
    {
        self.statement.step(alloc, session, lists)
    }
}
