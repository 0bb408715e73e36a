//! The steps of a search, one function for each, with at most one call of the world.
//! `search` alone calls these, by its phase; they change the search, and its actor's place in the index.

ghost use Rattle.std.specs.Prelude.{◌≡◌, ◌<◌, ◌≤◌};
ghost use Rattle.row_search.specs.Visits.{IsGivenPhase};
ghost use Rattle.row_search.specs.Searches.{IsSearching};
ghost use Rattle.row_search.specs.Tables.{HoldsTable};
ghost use Rattle.row_search.specs.Steps.{Comes};

use crate::bounds::{first_bytes, primary_of, side_of};
use crate::found::FoundRow;
use crate::phase::Phase;
use crate::search::{Came, Hindrance};
use crate::side::Side;
use crate::sight::Sight;
use entries::{Buffer, PairBuffers};
use inno_db::index_number;
use inno_types::{Bytes, Range, Schema};
use std::alloc::Global;
use store_api::{MOST_BYTES_OF_VALUE, Move};
use world::World;

/// What is searched, how its rows are read, and those that were found. `which` is 0 for the table's clustered index, and
/// the number of a secondary key from 1.
#[derive(Drop)]
pub struct Scan {
    pub table: u8,
    pub which: u8,
    pub range: Range,
    pub sight: Sight,
    pub rows: Vec<FoundRow>,
    /// The memory of the pair that was visited last, which the next one takes.
    pub pair: PairBuffers,
    /// The memory of the primary key at which a record was fetched last.
    pub primary: Buffer,
}

impl Scan {
    /// What comes next where this pair was found.
    fn given(&mut self, key: Bytes, value: Bytes) -> Phase
        ensures next { IsGivenPhase self.old key value result }
        ensures same { self.new ≡ self.old }
    {
        match side_of(&self.range, key.as_slice()) {
            Side::Before => {
                self.pair.keep((key, value));
                Phase::Follow
            }
            Side::Within => {
                if self.which == 0 {
                    Phase::Look {
                        entry: key,
                        bytes: value,
                    }
                } else {
                    self.pair.value.keep(value);
                    Phase::Fetch { entry: key }
                }
            }
            Side::Behind => Phase::Sort,
        }
    }

    pub(crate) fn seek<W: World>(
        &mut self,
        alloc: Global,
        world: &mut W,
        actor: u32,
        schema: &Schema,
    ) -> (Phase, Came)
        requires searching { IsSearching actor schema.now (W.state world.old) (record { scan = self.old; phase = Phase.Seek }) }
        requires table { HoldsTable schema.now self.old.table (W.state world.old) }
        ensures { Comes actor schema.now (W.state world.old) (W.state world.new) self.old Phase.Seek self.new result }
    {
        let none = Bytes::new(alloc);
        let found = world.seek(
            index_number(self.table, self.which),
            actor,
            first_bytes(&self.range.low, &none),
            &mut self.pair,
        );
        match found {
            Move::At(key, value) => (self.given(key, value), Came::Went),
            Move::End => (Phase::Sort, Came::Went),
            hindrance => (Phase::Seek, Came::Hindered(Hindrance::Call(hindrance))),
        }
    }

    pub(crate) fn follow<W: World>(
        &mut self,
        world: &mut W,
        actor: u32,
        schema: &Schema,
    ) -> (Phase, Came)
        requires searching { IsSearching actor schema.now (W.state world.old) (record { scan = self.old; phase = Phase.Follow }) }
        requires table { HoldsTable schema.now self.old.table (W.state world.old) }
        ensures { Comes actor schema.now (W.state world.old) (W.state world.new) self.old Phase.Follow self.new result }
    {
        match world.following(index_number(self.table, self.which), actor, &mut self.pair) {
            Move::At(key, value) => (self.given(key, value), Came::Went),
            Move::End => (Phase::Sort, Came::Went),
            hindrance => (Phase::Follow, Came::Hindered(Hindrance::Call(hindrance))),
        }
    }

    pub(crate) fn fetch<W: World>(
        &mut self,
        alloc: Global,
        world: &mut W,
        actor: u32,
        schema: &Schema,
        entry: Bytes,
    ) -> (Phase, Came)
        requires searching { IsSearching actor schema.now (W.state world.old) (record { scan = self.old; phase = Phase.Fetch entry }) }
        requires table { HoldsTable schema.now self.old.table (W.state world.old) }
        ensures { Comes actor schema.now (W.state world.old) (W.state world.new) self.old (Phase.Fetch entry) self.new result }
    {
        let Ok(key) = self
            .primary
            .filled(alloc, primary_of(schema, entry.as_slice()))
        else {
            return (
                Phase::Fetch { entry },
                Came::Hindered(Hindrance::Call(Move::NoMemory)),
            );
        };
        let Ok(mut bytes) = self.pair.value.with_room(alloc, MOST_BYTES_OF_VALUE) else {
            return (
                Phase::Fetch { entry },
                Came::Hindered(Hindrance::Call(Move::NoMemory)),
            );
        };
        let found = world.fetch(index_number(self.table, 0), actor, &key, &mut bytes);
        self.primary.keep(key);
        let bytes = Bytes::from_vec(bytes);
        match found {
            Move::Done => (Phase::Look { entry, bytes }, Came::Went),
            Move::End => {
                self.pair.keep((entry, bytes));
                (Phase::Follow, Came::Went)
            }
            hindrance => {
                self.pair.value.keep(bytes);
                (
                    Phase::Fetch { entry },
                    Came::Hindered(Hindrance::Call(hindrance)),
                )
            }
        }
    }
}
