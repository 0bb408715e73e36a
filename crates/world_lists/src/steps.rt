//! The calls that statements make.
//! `SqlLists` makes them, by the trait `SharedLists`; each is one short step of one session.

use crate::keys::key_of_edit;
use crate::lists::{WorldLists, is_short};
use crate::reading::{found_rows, is_quiet, newest_rows, rows_of, sight_by, take_up};
use crate::undoing::{change_at_desk, drop_change, edit_of, is_undoing, take_newest_back};
use desks::{Desk, Doing, TableSearch, give_doing, take_doing};
use inno_db::Change;
use inno_model::History;
use inno_types::{Bytes, Ids, Item, Level, Listed, Reply, Rows, Schema, Stmt};
use row_changes::RowChange;
use row_search::{Came, Hindrance, RowSearch};
use shared_lists::{Changed, Reading, Searched, SharedLists, Undone};
use sql_history::SessionSettings;
use sql_plan::Plan;
use std::alloc::Global;
use store_api::{MOST_SESSIONS, Move, NoMemory, Stepped};
use world::EngineWorld;

impl<W: EngineWorld> SharedLists for WorldLists<W> {
    ghost lists = { λ l. l };

    fn history(&self) -> &History {
        self.world.history()
    }

    fn into_history(self) -> History {
        let WorldLists { world, .. } = self;
        world.into_history()
    }

    fn schemas(&self) -> &Listed<Schema> {
        self.world.tables()
    }

    fn setting(&self, session: u32) -> &SessionSettings {
        self.world.settings(session)
    }

    fn rows(&self) -> u64 {
        self.world.rows()
    }

    fn level(&self, session: u32) -> Option<Level> {
        let standing = self.world.session(session);
        match standing.txn {
            Some(_) => Some(standing.level),
            None => None,
        }
    }

    fn txn_of(&self, session: u32) -> u64 {
        match self.world.session(session).txn {
            Some(txn) => txn,
            None => unreachable!(),
        }
    }

    fn has_view(&self, session: u32) -> bool {
        self.world.has_view(session)
    }

    fn change_count(&self, session: u32) -> usize {
        self.world.session(session).own as usize
    }

    fn writer(&self) -> Option<u32> {
        self.writer
    }

    fn join(&mut self, name: Bytes) -> Result<u32, NoMemory> {
        if self.desks.len() >= MOST_SESSIONS {
            return Err(NoMemory);
        }
        self.desks.reserve(1)?;
        let desk = Desk::new(self.alloc)?;
        let Ok(session) = self.world.join(name) else {
            drop(desk);
            return Err(NoMemory);
        };
        self.desks.push(desk).unwrap();
        Ok(session)
    }

    fn start(&mut self, session: u32, item: Item) -> Result<(), NoMemory> {
        let before = self.desks[session as usize].started;
        if before == u32::MAX {
            drop(item);
            return Err(NoMemory);
        }
        self.world.start(session, before + 1, item)?;
        self.desks[session as usize].started = before + 1;
        is_short(&self.world);
        Ok(())
    }

    fn end(&mut self, session: u32, reply: Reply) {
        let j = self.desks[session as usize].started;
        self.world.end_item(session, j, reply);
        is_short(&self.world);
    }

    fn set(&mut self, session: u32, stmt: &Stmt) {
        self.world.set(session, stmt);
    }

    fn save(&mut self, session: u32, name: &Bytes) -> Result<(), NoMemory> {
        let made = self.world.session(session).own;
        let txn = self.txn_of(session);
        self.world.savepoint(txn, name, made)
    }

    fn begin(&mut self, session: u32, level: Level) -> Result<(), NoMemory> {
        self.world.event_room(session)?;
        let txn = self.world.begin(session, level)?;
        self.world.add_begin(session, txn, level).unwrap();
        is_short(&self.world);
        Ok(())
    }

    fn take_view(&mut self, session: u32) -> Result<(), NoMemory> {
        let active = active_ids(self.alloc, &self.world)?;
        let next = self.world.next_id();
        let added = self.world.add_view(session, &active, next);
        drop(active);
        added?;
        is_short(&self.world);
        Ok(())
    }

    fn lock(&mut self, session: u32) -> Option<u32> {
        match without(self.writer, session) {
            Some(other) => Some(other),
            None => {
                self.writer = Some(session);
                None
            }
        }
    }

    fn make_table(&mut self, session: u32, level: Level, schema: Schema) -> Result<(), NoMemory> {
        self.begin(session, level)?;
        let _ = self.lock(session);
        match self.create(session, schema) {
            Ok(()) => {
                self.commit(session);
                Ok(())
            }
            Err(NoMemory) => {
                self.roll_back(session);
                Err(NoMemory)
            }
        }
    }

    fn commit(&mut self, session: u32) {
        match self.world.commit(session) {
            Move::Done => {
                self.writer = without(self.writer, session);
                is_short(&self.world);
            }
            _ => unreachable!(),
        }
    }

    fn ack(&mut self, session: u32, moment: u64) {
        self.world.ack(session, moment);
        is_short(&self.world);
    }

    fn signal(&mut self, _session: u32, name: Bytes) -> Result<(), NoMemory> {
        self.world.add_signal(name)?;
        is_short(&self.world);
        Ok(())
    }

    fn roll_back(&mut self, session: u32) {
        match self.world.roll_back(session) {
            Move::Done => {
                self.writer = without(self.writer, session);
                is_short(&self.world);
            }
            _ => unreachable!(),
        }
    }

    fn begin_search(
        &mut self,
        session: u32,
        table: u8,
        plan: Plan,
        reading: Reading,
    ) -> Result<(), NoMemory> {
        let schema = self.world.tables().as_slice()[table as usize].copied()?;
        let sight = sight_by(self.alloc, &self.world, session, reading)?;
        let unique = plan.unique;
        let on = TableSearch {
            search: RowSearch::new(self.alloc, table, plan, sight),
            schema,
            unique,
            cuts: self.cuts,
        };
        give_doing(&mut self.desks, session, Doing::Searching(on));
        Ok(())
    }

    fn search(&mut self, session: u32) -> Searched {
        let Doing::Searching(mut on) = take_doing(&mut self.desks, session) else {
            unreachable!()
        };
        take_up(&mut on.search, on.cuts != self.cuts);
        match on
            .search
            .advance(self.alloc, &mut self.world, session, &on.schema)
        {
            Came::Went => {
                on.cuts = self.cuts;
                give_doing(&mut self.desks, session, Doing::Searching(on));
                Stepped::Went
            }
            Came::Done(found) => {
                drop(on);
                found_rows(self.alloc, found)
            }
            Came::Hindered(hindrance) => match hindrance {
                Hindrance::Call(why) => match why {
                    Move::NoMemory => {
                        let TableSearch { search, schema, .. } = on;
                        search.give_up(&mut self.world, session, &schema);
                        drop(schema);
                        Stepped::Hindered(shared_lists::Hindrance::NoMemory)
                    }
                    _ => unreachable!(),
                },
                Hindrance::Malformed => unreachable!(),
            },
        }
    }

    fn read_newest(&mut self, session: u32, table: u8, plan: Plan) -> Result<Rows, NoMemory> {
        let schema = self.world.tables().as_slice()[table as usize].copied()?;
        let plan = plan_read(is_quiet(self.writer, &self.desks), plan);
        let found = newest_rows(self.alloc, &mut self.world, session, table, plan, &schema);
        drop(schema);
        let found = found?;
        rows_of(self.alloc, found)
    }

    fn begin_change(&mut self, session: u32, change: Change) -> Result<(), NoMemory> {
        let Some((table, edit)) = edit_of(change) else {
            unreachable!()
        };
        let schema = &self.world.tables().as_slice()[table as usize];
        let key = key_of_edit(self.alloc, schema, &edit)?;
        let change = RowChange::new(table, edit, key)?;
        give_doing(&mut self.desks, session, Doing::Changing(change));
        Ok(())
    }

    fn change(&mut self, session: u32) -> Changed {
        let changed = change_at_desk(self.alloc, &mut self.world, &mut self.desks, session);
        is_short(&self.world);
        changed
    }

    fn stop_change(&mut self, session: u32) {
        let doing = take_doing(&mut self.desks, session);
        let Doing::Changing(change) = doing else {
            unreachable!()
        };
        let doing = drop_change(&self.world, session, change);
        give_doing(&mut self.desks, session, doing);
        is_short(&self.world);
    }

    fn undo(&mut self, session: u32) -> Undone {
        if is_undoing(&self.desks, session) {
            self.take_back(session)
        } else {
            self.read_record(session)
        }
    }
}

impl<W: EngineWorld> WorldLists<W> {
    ghost use Rattle.std.specs.Prelude.{◌≡◌, ℕ, ◌-◌, ◌<◌, length};
    ghost use Rattle.inno_model.specs.declared.event.Event.TheVariants.{Undone as UndoneEvent};
    ghost use Rattle.inno_model.specs.Past.{own};
    ghost use Rattle.law_past_agreement.specs.Order.{MayCome};
    ghost use Rattle.shared_lists.specs.Tasks.{Undoing, MayTakeBack};
    ghost use Rattle.shared_lists.specs.State.{task_of};
    ghost use Rattle.law_held_steps.specs.Making.{TakesBackIn};

    /// Reads the undo record of the session's newest change.
    fn read_record(&mut self, session: u32) -> Undone
        requires joined { session < length self.old.state.names }
        requires may { MayCome self.old.state.past (UndoneEvent session (length (own session self.old.state.past) - 1)) }
        requires task { MayTakeBack (task_of session self.old.state) }
        requires waits { (left : ℕ) → task_of session self.old.state ≡ Undoing left → ⊥ }
        ensures { TakesBackIn session (length (own session self.old.state.past) - 1) self.old self.new result }
    {
        let mut there = false;
        let undo = &mut self.desks[session as usize].undo;
        match self.world.last(session, session as u8, undo, &mut there) {
            Move::Done => {
                give_doing(&mut self.desks, session, Doing::Undoing);
                Stepped::Went
            }
            _ => unreachable!(),
        }
    }

    /// Makes one step by which the session's newest change is taken back. After the last one the history tells it.
    fn take_back(&mut self, session: u32) -> Undone
        requires joined { session < length self.old.state.names }
        requires may { MayCome self.old.state.past (UndoneEvent session (length (own session self.old.state.past) - 1)) }
        requires task { (left : ℕ) × (task_of session self.old.state ≡ Undoing left) }
        ensures { TakesBackIn session (length (own session self.old.state.past) - 1) self.old self.new result }
    {
        take_newest_back(
            &mut self.world,
            session,
            &mut self.desks,
            &mut self.cuts,
            &mut self.record,
        )
    }
}

ghost use Rattle.std.specs.Prelude.{◌≡◌, ◌≢◌, ◌-◌, ◌<◌, ◌^◌, false, IfOk, Some};
ghost use Rattle.txn_table.specs.Txns.{ids_of};
ghost use Rattle.law_past_agreement.specs.Slots.{writer_without};
ghost use Rattle.law_held_steps.specs.Begun.{plan_read};

/// The ids that were given and not ended.
fn active_ids<W: EngineWorld>(alloc: Global, world: &W) -> Result<Ids, NoMemory>
    ensures { IfOk result (λ active. active ≡ ids_of (W.state world.now).txns.open_txns) }
{
    let mut active = Ids::new(alloc);
    world.active(&mut active)?;
    Ok(active)
}

/// The session that may write, where it is another one.
fn without(writer: Option<u32>, session: u32) -> Option<u32>
    ensures { result ≡ writer_without writer session }
{
    match writer {
        Some(w) if w != session => Some(w),
        _ => None,
    }
}

/// The plan by which the newest rows are read: all of the table while keys may lag.
fn plan_read(quiet: bool, plan: Plan) -> Plan
    ensures { result ≡ plan_read quiet plan }
{
    if quiet { plan } else { Plan::whole() }
}
