//! The parts of a session's steps: its item is read, one that is no statement is refused, and its ending makes steps.
//! The session engine alone calls these; they change the lists, and answer the seat that comes next.

ghost use Rattle.std.specs.Prelude.{◌≡◌, ◌<◌, length, IfOk};
ghost use Rattle.inno_model.specs.Past.{own, IsOpen};
ghost use Rattle.session_engine.specs.Calls.{Refuses, GoesOut, TellsNone};
ghost use Rattle.session_engine.specs.Seats.{IsGoingOut, IsSeatOf, IsUnread};
ghost use Rattle.session_engine.specs.Going.{NearsEnding};

use crate::boxed::BoxedStatement;
use crate::seats::{Seat, SignalItem, Wait};
use inno_types::{Item, Reply, SqlError};
use shared_lists::SharedLists;
use sql_lists::SqlLists;
use sql_prefix::{ParseBad, parse};
use std::alloc::Global;
use store_api::{NoMemory, Progress, Stepped};

/// The seat of a session whose item this is, before its first step.
pub fn read_item(alloc: Global, item: &Item) -> Result<Seat, NoMemory>
    ensures { IfOk result (IsSeatOf item.now) }
{
    match item {
        Item::Sql(text) => read(alloc, text.as_slice()),
        Item::Signal(name) => Ok(Seat::Signalling(SignalItem::Gives(name.copied()?))),
        Item::Await(name) => Ok(Seat::Signalling(SignalItem::Awaits(Wait {
            name: name.copied()?,
            seen: 0,
            since: None,
        }))),
    }
}

/// The seat of a session whose item is this text: the statement that it spells, or where it goes wrong.
fn read(alloc: Global, text: &[u8]) -> Result<Seat, NoMemory>
    ensures { IfOk result (IsSeatOf (Item.Sql text.now)) }
{
    match parse(alloc, text) {
        Ok(stmt) => Ok(Seat::Busy(BoxedStatement::new(alloc, stmt)?)),
        Err(ParseBad::Syntax { at }) => Ok(Seat::Refused { at }),
        Err(ParseBad::NoMemory) => Err(NoMemory),
    }
}

/// Ends an item whose text is no statement.
pub fn refuse<L: SharedLists>(s: u32, at: u32, lists: &mut SqlLists<L>) -> (Seat, Progress)
    requires joined { s < length lists.old.names }
    requires unread { IsUnread s at lists.old }
    ensures { Refuses s at lists.old lists.new result.0 result.1 }
{
    lists.end(s, Reply::Fail(SqlError::Syntax { at }));
    (
        Seat::Idle,
        Progress::Done(Reply::Fail(SqlError::Syntax { at })),
    )
}

/// A step of a session's ending: its changes are taken back, the newest first, and then its transaction is rolled back.
pub fn go_out<L: SharedLists>(s: u32, lists: &mut SqlLists<L>) -> (Seat, Progress)
    requires joined { s < length lists.old.names }
    requires goes_out { IsGoingOut s lists.old }
    ensures goes { GoesOut s lists.old lists.new result.0 result.1 }
    ensures quiet { TellsNone lists.old.past lists.new.past }
    ensures nears { NearsEnding s lists.old lists.new result.1 }
{
    if lists.level(s).is_none() {
        return (Seat::Left, Progress::Done(Reply::Done));
    }
    if lists.change_count(s) > 0 {
        return take_back(s, lists);
    }
    lists.roll_back(s);
    (Seat::Leaving, Progress::Went)
}

/// A step by which the session's newest change is taken back.
fn take_back<L: SharedLists>(s: u32, lists: &mut SqlLists<L>) -> (Seat, Progress)
    requires joined { s < length lists.old.names }
    requires goes_out { IsGoingOut s lists.old }
    requires is_open { IsOpen s lists.old.past }
    requires stands { 0 < length (own s lists.old.past) }
    ensures goes { GoesOut s lists.old lists.new result.0 result.1 }
    ensures quiet { TellsNone lists.old.past lists.new.past }
    ensures nears { NearsEnding s lists.old lists.new result.1 }
{
    match lists.undo(s) {
        Stepped::Went => (Seat::Leaving, Progress::Went),
        Stepped::Done(()) => (Seat::Leaving, Progress::Went),
        Stepped::Hindered(never) => match never {},
    }
}
