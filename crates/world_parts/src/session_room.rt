//! What is kept of one session: its settings, its open transaction, and for which entries the history has room. The world
//! alone changes it.

ghost use Rattle.std.specs.Prelude.{◌≡◌, ℕ, ◌+◌, ◌-◌, ◌<◌, ◌≤◌, ◌^◌, true, false, [], ◌∷◌, None, Some, IfOk, IfSome, IfNone, SomeIff, OnOk, OnErr, option_map, option_copied, vec_len, vec_capacity};
ghost use Rattle.sql_history.specs.Settings.{at_begin, at_end, saved, back_to, made_at, set_by};
ghost use Rattle.world.specs.State.{Work, standing_of, txn_of};
ghost use Rattle.world.specs.Sessions.{fresh_work, work_with_id};
ghost use Rattle.world.specs.Undoing.{newest, older};
ghost use Rattle.world.specs.EngineCalls.{fresh_session};
ghost use Rattle.world_parts.specs.Rooms.{working, work_of, is_of, log_of, view_of, newest_pointer, HasLogRoom, IsLogShort, IsShortRecord};
ghost use Rattle.world_parts.specs.Owed.{bit, owed_of};

use crate::open_work::{LoggedUndo, OpenWork, SeenIds};
use index_store::Room;
use inno_types::{Bytes, Level, Stmt};
use sql_history::SessionSettings;
use std::alloc::Global;
use std::marker::Model;
use store_api::{NoMemory, Standing, Undo};

#[derive(Drop)]
pub struct SessionRoom {
    settings: SessionSettings,
    work: Option<OpenWork>,
    can_reply: bool,
    can_ack: bool,
    can_begin: bool,
    can_change: bool,
    undo_room: u16,
    next_pointer: u64,
}

impl Model for SessionRoom {
    ghost use Rattle.std.specs.Prelude.{◌<◌, option_map};
    ghost use Rattle.world.specs.State.{Session};

    ghost Value = { Session };

    ghost use Rattle.world_parts.specs.Rooms.{work_of, HasLogRoom, IsLogShort};

    ghost view = { λ s. record { setting = s.settings; work = option_map work_of s.work; can_reply = s.can_reply; can_ack = s.can_ack; can_begin = s.can_begin; can_change = s.can_change; undo_room = s.undo_room; next_pointer = s.next_pointer } };

    ghost invariant = { λ s. IsLogShort s.work × (0 < s.undo_room → HasLogRoom s.work) };
}

impl SessionRoom {
    /// A session that has just joined.
    pub fn new(alloc: Global) -> Self
        ensures { result ≡ fresh_session }
    {
        SessionRoom {
            settings: SessionSettings::new(alloc),
            work: None,
            can_reply: false,
            can_ack: false,
            can_begin: false,
            can_change: false,
            undo_room: 0,
            next_pointer: 0,
        }
    }

    /// What the session has set.
    pub fn settings(&self) -> &SessionSettings
        ensures { result.now ≡ self.now.setting }
    {
        &self.settings
    }

    pub fn is_of(&self, txn: u64) -> bool
        ensures { result ≡ is_of txn self.now.work }
    {
        match &self.work {
            Some(work) => work.txn == txn,
            None => false,
        }
    }

    pub fn next_pointer(&self) -> u64
        ensures { result ≡ self.now.next_pointer }
    {
        self.next_pointer
    }

    /// Opens a transaction, whose empty log has room for a record.
    pub fn begin(&mut self, txn: u64, level: Level, log: Vec<LoggedUndo>)
        requires empty { log.items ≡ [] }
        requires room { vec_len log < vec_capacity log }
        ensures { self.new ≡ record self.old { setting = at_begin self.old.setting; work = Some (fresh_work txn level) } }
    {
        self.settings.begin();
        self.work = Some(OpenWork {
            txn,
            level,
            id: 0,
            own: 0,
            view: None,
            log,
            can_end: false,
        });
    }

    /// Gives the open transaction its id.
    pub fn set_id(&mut self, id: u64)
        ensures { self.new ≡ record self.old { work = work_with_id id self.old.work } }
    {
        if let Some(work) = &mut self.work {
            work.id = id;
        }
    }

    /// The number of the open transaction.
    pub fn txn(&self) -> Option<u64>
        ensures { result ≡ txn_of self.now.work }
    {
        match &self.work {
            Some(work) => Some(work.txn),
            None => None,
        }
    }

    /// The open transaction, of which this gives the number, is open no longer.
    pub fn end(&mut self) -> Option<u64>
        ensures number { result ≡ txn_of self.old.work }
        ensures ended { self.new ≡ record self.old { setting = at_end self.old.setting; work = None } }
    {
        let txn = self.txn();
        self.settings.end();
        self.work = None;
        txn
    }

    /// The same by a commit, which is to be acknowledged.
    pub fn commit(&mut self) -> Option<u64>
        ensures number { result ≡ txn_of self.old.work }
        ensures committed { self.new ≡ record self.old { setting = at_end self.old.setting; work = None; can_ack = true } }
    {
        self.can_ack = true;
        self.end()
    }

    /// Keeps a savepoint. An `Err` changes nothing.
    pub fn save(&mut self, name: Bytes, own: u64) -> Result<(), NoMemory>
        ensures ok { OnOk result (self.new ≡ record self.old { setting = record self.old.setting { saves = saved name own true self.old.setting.saves } }) }
        ensures err { OnErr result (self.new ≡ self.old) }
    {
        self.settings.save(name, own)
    }

    /// How many changes the transaction had made at its savepoint of this name.
    pub fn made_at(&self, name: &Bytes) -> Option<u64>
        ensures { result ≡ made_at name.now self.now.setting.saves }
    {
        self.settings.made_at(name)
    }

    /// The savepoints behind this one go.
    pub fn back_to(&mut self, name: &Bytes)
        ensures { self.new ≡ record self.old { setting = record self.old.setting { saves = back_to name.now self.old.setting.saves } } }
    {
        self.settings.back_to(name);
    }

    /// What a statement that was done sets.
    pub fn set(&mut self, stmt: &Stmt)
        ensures { self.new ≡ record self.old { setting = set_by stmt.now 0 false self.old.setting } }
    {
        self.settings.set_by(stmt);
    }

    /// Where the session stands.
    pub fn standing(&self) -> Standing
        ensures { result ≡ standing_of self.now }
    {
        let autocommit = self.settings.autocommit();
        match &self.work {
            Some(work) => Standing {
                txn: Some(work.txn),
                level: work.level,
                autocommit,
                id: work.id,
                own: work.own,
            },
            None => Standing {
                txn: None,
                level: self.settings.next_level(),
                autocommit,
                id: 0,
                own: 0,
            },
        }
    }

    // ---- the history's room

    /// How many entries the history has room for on behalf of this session, if that number fits.
    pub fn owed(&self) -> Option<u64>
        ensures { SomeIff result (owed_of self.now < 2 ^ 64) (owed_of self.now) }
    {
        let flags = bit(1, self.can_reply)
            + bit(1, self.can_ack)
            + bit(3, self.can_begin)
            + bit(2, self.can_change);
        match &self.work {
            Some(work) => work.own.checked_add(bit(2, work.can_end) + flags),
            None => Some(flags),
        }
    }

    pub fn can_begin(&self) -> bool
        ensures { result ≡ self.now.can_begin }
    {
        self.can_begin
    }

    pub fn can_change(&self) -> bool
        ensures { result ≡ self.now.can_change }
    {
        self.can_change
    }

    pub fn let_begin_and_change(&mut self)
        ensures { self.new ≡ record self.old { can_begin = true; can_change = true } }
    {
        self.can_begin = true;
        self.can_change = true;
    }

    pub fn let_reply(&mut self, can_reply: bool)
        ensures { self.new ≡ record self.old { can_reply = can_reply } }
    {
        self.can_reply = can_reply;
    }

    /// The commit is acknowledged.
    pub fn acknowledge(&mut self)
        ensures { self.new ≡ record self.old { can_ack = false } }
    {
        self.can_ack = false;
    }

    // ---- what the entries of the open transaction change

    /// Its Begin stands in the history.
    pub fn begun(&mut self)
        ensures { self.new ≡ working (λ work. record work { can_end = true }) (record self.old { can_begin = false }) }
    {
        self.can_begin = false;
        if let Some(work) = &mut self.work {
            work.can_end = true;
        }
    }

    pub fn keep_view(&mut self, view: SeenIds)
        ensures { self.new ≡ working (λ work. record work { view = Some view }) self.old }
    {
        if let Some(work) = &mut self.work {
            work.view = Some(view);
        }
    }

    /// A change of its own was made.
    pub fn changed(&mut self)
        requires { IfSome self.old.work (λ work. work.own < 2 ^ 64 - 1) }
        ensures { self.new ≡ working (λ work. record work { own = work.own + 1 }) (record self.old { can_change = false }) }
    {
        self.can_change = false;
        self.made_table();
    }

    /// A table was made.
    pub fn made_table(&mut self)
        requires { IfSome self.old.work (λ work. work.own < 2 ^ 64 - 1) }
        ensures { self.new ≡ working (λ work. record work { own = work.own + 1 }) self.old }
    {
        if let Some(work) = &mut self.work {
            work.own += 1;
        }
    }

    /// A change was put back.
    pub fn undone(&mut self)
        requires { IfSome self.old.work (λ work. 0 < work.own) }
        ensures { self.new ≡ working (λ work. record work { own = work.own - 1 }) self.old }
    {
        if let Some(work) = &mut self.work {
            work.own -= 1;
        }
    }

    /// The view that the open transaction keeps.
    pub fn view(&self) -> Option<&SeenIds>
        ensures { option_copied result ≡ view_of self.now.work }
    {
        match &self.work {
            Some(work) => match &work.view {
                Some(view) => Some(view),
                None => None,
            },
            None => None,
        }
    }

    // ---- the log

    /// Takes memory for one more record of the log, and gives the room that the next one has. `promise` has to follow.
    pub fn make_room(&mut self) -> Result<Room, NoMemory>
        ensures ok { OnOk result (self.new ≡ record self.old { undo_room = 1 }) }
        ensures before { IfOk result (λ room. (room.bytes ≡ self.old.undo_room) × (room.pointer ≡ self.old.next_pointer)) }
        ensures err { OnErr result (self.new ≡ self.old) }
    {
        let before = Room {
            bytes: self.undo_room,
            pointer: self.next_pointer,
        };
        reserve_one(&mut self.work)?;
        self.undo_room = 1;
        Ok(before)
    }

    /// The next record of the log has this room. There is memory for it.
    pub fn promise(&mut self, room: Room)
        requires { 0 < self.old.undo_room }
        ensures { self.new ≡ record self.old { undo_room = room.bytes; next_pointer = room.pointer } }
    {
        self.undo_room = room.bytes;
        self.next_pointer = room.pointer;
    }

    /// Adds a record to the log, for which there is room.
    pub fn log(&mut self, undo: Undo)
        requires room { 0 < self.old.undo_room }
        requires short { IsShortRecord undo }
        ensures { self.new ≡ working (λ work. record work { log = record { pointer = self.old.next_pointer; undo = undo } ∷ work.log }) (record self.old { undo_room = 0 }) }
    {
        self.undo_room = 0;
        let pointer = self.next_pointer;
        if let Some(work) = &mut self.work {
            work.log.push(LoggedUndo { pointer, undo }).unwrap();
        }
    }

    /// The newest record of the log, if there is one.
    pub fn newest(&self) -> Option<&Undo>
        ensures newest { option_copied result ≡ newest (log_of self.now.work) }
        ensures short { IfSome result (λ undo. IsShortRecord undo.now) }
    {
        match &self.work {
            Some(work) => match work.log.last() {
                Some(logged) => Some(&logged.undo),
                None => None,
            },
            None => None,
        }
    }

    /// The roll pointer and the kind of the newest record of the log, if there is one.
    pub fn newest_pointer(&self) -> Option<(u64, u8)>
        ensures { result ≡ newest_pointer (log_of self.now.work) }
    {
        let work = self.work.as_ref()?;
        let logged = work.log.last()?;
        Some((logged.pointer, logged.undo.kind))
    }

    /// Takes the newest record of the log away.
    pub fn cut_back(&mut self)
        ensures { self.new ≡ working (λ work. record work { log = older work.log }) (record self.old { undo_room = 0 }) }
    {
        self.undo_room = 0;
        if let Some(work) = &mut self.work {
            let _ = work.log.pop();
        }
    }
}

/// The weight where the flag is set, or 0.
fn bit(weight: u64, flag: bool) -> u64
    ensures { result ≡ bit weight flag }
{
    if flag { weight } else { 0 }
}

/// Takes memory for one more record of the log. Nothing that a contract sees changes.
fn reserve_one(work: &mut Option<OpenWork>) -> Result<(), NoMemory>
    ensures ok { OnOk result (HasLogRoom work.new) }
    ensures same { option_map work_of work.new ≡ option_map work_of work.old }
    ensures short { IsLogShort work.old → IsLogShort work.new }
    ensures kept { HasLogRoom work.old → HasLogRoom work.new }
{
    if let Some(work) = work {
        work.log.reserve(1)?;
    }
    Ok(())
}
