//! The steps of a search at one pair: which version the reader sees, and whether its row is kept; and the end.
//! `search` alone calls these, by its phase.

ghost use Rattle.std.specs.Prelude.{◌≡◌, ◌<◌, ◌≤◌};
ghost use Rattle.row_search.specs.Searches.{IsSearching};
ghost use Rattle.row_search.specs.Tables.{HoldsTable};
ghost use Rattle.row_search.specs.Steps.{Comes};
ghost use Rattle.row_search.specs.Visits.{phase_after, move_for};

use crate::bounds::{copy_of, primary_of};
use crate::entry::is_entry_of;
use crate::found::{FoundRow, sort_by_key};
use crate::glance::Glance;
use crate::phase::Phase;
use crate::scan::Scan;
use crate::search::{Came, Hindrance};
use inno_db::index_number;
use inno_types::{Bytes, Row, Schema};
use row_codec::RowBad;
use std::alloc::Global;
use std::mem;
use store_api::{MOST_BYTES_OF_VALUE, Move, Visit};
use world::World;

fn move_of(why: Visit) -> Move
    ensures { result ≡ move_for why }
{
    match why {
        Visit::Failed => Move::Failed,
        Visit::Again => Move::Again,
        Visit::Bad { page, rule } => Move::Bad { page, rule },
    }
}

impl Scan {
    /// What comes next at an entry once the reader has looked at a version so.
    fn after(&mut self, entry: Bytes, glance: Glance) -> Phase
        ensures next { result ≡ phase_after entry glance }
        ensures same { self.new ≡ self.old }
    {
        match glance {
            Glance::Older { pointer } => Phase::Walk { entry, pointer },
            Glance::Deleted => {
                self.pair.key.keep(entry);
                Phase::Follow
            }
            Glance::Row(row) => Phase::Keep { entry, row },
        }
    }

    pub(crate) fn look<W: World>(
        &mut self,
        alloc: Global,
        world: &mut W,
        actor: u32,
        schema: &Schema,
        entry: Bytes,
        bytes: Bytes,
    ) -> (Phase, Came)
        requires { IsSearching actor schema.now (W.state world.old) (record { scan = self.old; phase = Phase.Look entry bytes }) }
        ensures { Comes actor schema.now (W.state world.old) (W.state world.new) self.old (Phase.Look entry bytes) self.new result }
    {
        let key = primary_of(schema, entry.as_slice());
        match self.sight.glance(alloc, schema, key, bytes.as_slice()) {
            Ok(glance) => {
                self.pair.value.keep(bytes);
                (self.after(entry, glance), Came::Went)
            }
            Err(RowBad::NoMemory) => (
                Phase::Look { entry, bytes },
                Came::Hindered(Hindrance::Call(Move::NoMemory)),
            ),
            Err(RowBad::Shape) => (
                Phase::Look { entry, bytes },
                Came::Hindered(Hindrance::Malformed),
            ),
        }
    }

    pub(crate) fn walk<W: World>(
        &mut self,
        alloc: Global,
        world: &mut W,
        actor: u32,
        schema: &Schema,
        entry: Bytes,
        pointer: u64,
    ) -> (Phase, Came)
        requires { IsSearching actor schema.now (W.state world.old) (record { scan = self.old; phase = Phase.Walk entry pointer }) }
        ensures { Comes actor schema.now (W.state world.old) (W.state world.new) self.old (Phase.Walk entry pointer) self.new result }
    {
        let Ok(mut bytes) = self.pair.value.with_room(alloc, MOST_BYTES_OF_VALUE) else {
            return (
                Phase::Walk { entry, pointer },
                Came::Hindered(Hindrance::Call(Move::NoMemory)),
            );
        };
        let read = world.value(pointer, &mut bytes);
        let bytes = Bytes::from_vec(bytes);
        match read {
            Ok(true) => {
                let key = primary_of(schema, entry.as_slice());
                let found = self.sight.glance(alloc, schema, key, bytes.as_slice());
                self.pair.value.keep(bytes);
                match found {
                    Ok(glance) => (self.after(entry, glance), Came::Went),
                    Err(RowBad::NoMemory) => {
                        (
                            Phase::Walk { entry, pointer },
                            Came::Hindered(Hindrance::Call(Move::NoMemory)),
                        )
                    }
                    Err(RowBad::Shape) => (
                        Phase::Walk { entry, pointer },
                        Came::Hindered(Hindrance::Malformed),
                    ),
                }
            }
            Ok(false) => {
                self.pair.keep((entry, bytes));
                (Phase::Follow, Came::Went)
            }
            Err(why) => {
                self.pair.value.keep(bytes);
                (
                    Phase::Walk { entry, pointer },
                    Came::Hindered(Hindrance::Call(move_of(why))),
                )
            }
        }
    }

    pub(crate) fn keep<W: World>(
        &mut self,
        alloc: Global,
        world: &mut W,
        actor: u32,
        schema: &Schema,
        entry: Bytes,
        row: Row,
    ) -> (Phase, Came)
        requires { IsSearching actor schema.now (W.state world.old) (record { scan = self.old; phase = Phase.Keep entry row }) }
        ensures { Comes actor schema.now (W.state world.old) (W.state world.new) self.old (Phase.Keep entry row) self.new result }
    {
        let primary = primary_of(schema, entry.as_slice());
        if !is_entry_of(schema, self.which, entry.as_slice(), primary, &row) {
            self.pair.key.keep(entry);
            return (Phase::Follow, Came::Went);
        }
        let Ok(key) = copy_of(alloc, primary) else {
            return (
                Phase::Keep { entry, row },
                Came::Hindered(Hindrance::Call(Move::NoMemory)),
            );
        };
        match self.rows.push(FoundRow { key, row }) {
            Ok(()) => {
                self.pair.key.keep(entry);
                (Phase::Follow, Came::Went)
            }
            Err(full) => (
                Phase::Keep {
                    entry,
                    row: full.value.row,
                },
                Came::Hindered(Hindrance::Call(Move::NoMemory)),
            ),
        }
    }

    pub(crate) fn sort<W: World>(
        &mut self,
        world: &mut W,
        actor: u32,
        schema: &Schema,
    ) -> (Phase, Came)
        requires { IsSearching actor schema.now (W.state world.old) (record { scan = self.old; phase = Phase.Sort }) }
        ensures { Comes actor schema.now (W.state world.old) (W.state world.new) self.old Phase.Sort self.new result }
    {
        if self.which == 0 {
            return (Phase::Leave, Came::Went);
        }
        match sort_by_key(&mut self.rows) {
            Ok(()) => (Phase::Leave, Came::Went),
            Err(_) => (Phase::Sort, Came::Hindered(Hindrance::Call(Move::NoMemory))),
        }
    }

    pub(crate) fn leave<W: World>(
        &mut self,
        alloc: Global,
        world: &mut W,
        actor: u32,
        schema: &Schema,
    ) -> (Phase, Came)
        requires { IsSearching actor schema.now (W.state world.old) (record { scan = self.old; phase = Phase.Leave }) }
        ensures { Comes actor schema.now (W.state world.old) (W.state world.new) self.old Phase.Leave self.new result }
    {
        world.leave(index_number(self.table, self.which), actor);
        let rows = mem::replace(&mut self.rows, Vec::new(alloc));
        (Phase::Leave, Came::Done(rows))
    }
}
