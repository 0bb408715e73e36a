//! What is kept of each session between its steps.
//! `world_lists` alone makes desks and changes them; a step changes that of its session alone.

ghost use Rattle.std.specs.Prelude.{◌≡◌, ◌<◌, length, IfOk};
ghost use Rattle.desks.specs.Desks.{with_doing, doing_at, IsNewDesk};

use inno_types::Schema;
use row_changes::RowChange;
use row_search::RowSearch;
use std::alloc::Global;
use store_api::NoMemory;
use undo_apply::WorkRoom;
use world::UndoRoom;

/// What a session has under way with rows.
#[derive(Drop)]
pub enum Doing {
    Nothing,
    Searching(TableSearch),
    Changing(RowChange),
    /// A change was given up while keys were yet to take it over. It is to be taken back.
    Lagging,
    /// The newest change is being taken back, whose undo record was read.
    Undoing,
}

/// A search of one table.
#[derive(Drop)]
pub struct TableSearch {
    pub search: RowSearch,
    pub schema: Schema,
    /// Whether its plan's range is that of one value of the primary key.
    pub unique: bool,
    /// How many older versions had been dropped when it made its last step.
    pub cuts: u64,
}

/// A session: how many items it has started, and what it has under way.
#[derive(Drop)]
pub struct Desk {
    pub started: u32,
    pub doing: Doing,
    /// The undo record of the change that it takes back, which takes no memory to read, and how far that has come.
    pub undo: UndoRoom,
    pub room: WorkRoom,
}

impl Desk {
    /// That of a session which has started nothing.
    pub fn new(alloc: Global) -> Result<Desk, NoMemory>
        ensures { IfOk result IsNewDesk }
    {
        let undo = UndoRoom::new(alloc)?;
        let room = WorkRoom::new(alloc)?;
        Ok(Desk {
            started: 0,
            doing: Doing::Nothing,
            undo,
            room,
        })
    }
}

/// Takes what a session has under way, and leaves it nothing.
pub fn take_doing(desks: &mut Vec<Desk>, session: u32) -> Doing
    requires { session < length desks.old.items }
    ensures was { result ≡ doing_at session desks.old.items }
    ensures is { desks.new.items ≡ with_doing session Doing.Nothing desks.old.items }
{
    std::mem::replace(&mut desks[session as usize].doing, Doing::Nothing)
}

/// Gives a session something else to do.
pub fn give_doing(desks: &mut Vec<Desk>, session: u32, doing: Doing)
    requires { session < length desks.old.items }
    ensures { desks.new.items ≡ with_doing session doing desks.old.items }
{
    drop(std::mem::replace(&mut desks[session as usize].doing, doing));
}
