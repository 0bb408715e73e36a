//! A search as a machine: it makes one short step a call, where it lies. Steps of other sessions come between.
//! `world_lists` makes and drives one, and gives it up where its statement ends early; a desk keeps it meanwhile.

ghost use Rattle.std.specs.Prelude.{◌≡◌, true, if◌then◌else◌};
ghost use Rattle.entries.specs.Calls.{Leaves};
ghost use Rattle.inno_db.specs.Indexes.{index_of};
ghost use Rattle.world.specs.Indexes.{Calls};
ghost use Rattle.row_search.specs.Searches.{IsSearching, BeginsWithNothing, MayBegin};
ghost use Rattle.row_search.specs.Others.{KeepsFound, KeepsSearching, NeedsNoVersion};
ghost use Rattle.row_search.specs.Tables.{HoldsTable};
ghost use Rattle.row_search.specs.Steps.{Searches, Comes};
ghost use Rattle.row_search.specs.Visits.{phase_anew};

use crate::found::FoundRow;
use crate::phase::Phase;
use crate::scan::Scan;
use crate::sight::Sight;
use entries::{Buffer, PairBuffers};
use inno_db::index_number;
use inno_types::Schema;
use sql_plan::Plan;
use std::alloc::Global;
use std::mem;
use store_api::{Move, Stepped};
use world::World;

/// A search for rows.
#[derive(Drop)]
pub struct RowSearch {
    pub scan: Scan,
    pub phase: Phase,
}

/// How far a step of a search came. Of one that is over: the rows that were found, in the order of their primary keys.
pub type Came = Stepped<Vec<FoundRow>, Hindrance>;

/// Why a step of a search didn't go on.
#[derive(Drop)]
pub enum Hindrance {
    /// The call that came next was not done.
    Call(Move),
    /// A record is not one of the table. This comes only where the world doesn't tell what is kept.
    Malformed,
}

impl RowSearch {
    /// Before the first pair of a plan's range. A range that is empty has none.
    pub fn new(alloc: Global, table: u8, plan: Plan, sight: Sight) -> RowSearch
        ensures search { result.scan ≡ record { table = table; which = plan.which; range = plan.range; sight = sight; rows = result.scan.rows; pair = result.scan.pair; primary = result.scan.primary } }
        ensures phase { result.phase ≡ (if plan.range.empty then Phase.Leave else Phase.Seek) }
        ensures finds { BeginsWithNothing result }
        ensures begins { MayBegin result }
    {
        let phase = if plan.range.empty {
            Phase::Leave
        } else {
            Phase::Seek
        };
        let scan = Scan {
            table,
            which: plan.which,
            range: plan.range,
            sight,
            rows: Vec::new(alloc),
            pair: PairBuffers::new(alloc),
            primary: Buffer::new(alloc),
        };
        RowSearch { scan, phase }
    }

    /// Comes to its pair anew, where it is at one: the row's record is read again. So the search needs nothing of what was
    /// kept for roll pointers, which may go as a writer rolls back.
    pub fn come_anew(&mut self)
        ensures scan { self.new.scan ≡ self.old.scan }
        ensures phase { self.new.phase ≡ phase_anew self.old.phase }
        ensures finds { KeepsFound self.old self.new }
        ensures way { NeedsNoVersion self.new }
        ensures holds { KeepsSearching self.old self.new }
    {
        let phase = mem::replace(&mut self.phase, Phase::Leave);
        self.phase = anew(phase);
    }

    /// Gives the search up. The actor has no place in the index any more.
    pub fn give_up<W: World>(self, world: &mut W, actor: u32, schema: &Schema)
        requires { IsSearching actor schema.now (W.state world.old) self }
        ensures { Calls (index_of self.scan.table self.scan.which) (Leaves actor) (W.state world.old) (W.state world.new) }
    {
        let index = index_number(self.scan.table, self.scan.which);
        drop(self);
        world.leave(index, actor);
    }

    /// One step, made where the search lies. The actor has a place in no index but the one that is searched.
    pub fn advance<W: World>(
        &mut self,
        alloc: Global,
        world: &mut W,
        actor: u32,
        schema: &Schema,
    ) -> Came
        requires searching { IsSearching actor schema.now (W.state world.old) self.old }
        requires table { HoldsTable schema.now self.old.scan.table (W.state world.old) }
        ensures { Searches actor schema.now (W.state world.old) (W.state world.new) self.old self.new result }
    {
        let phase = mem::replace(&mut self.phase, Phase::Leave);
        let (next, came) = self.scan.comes(phase, alloc, world, actor, schema);
        self.phase = next;
        came
    }
}

/// What comes next where the search comes to its pair anew.
fn anew(phase: Phase) -> Phase
    ensures { result ≡ phase_anew phase }
{
    match phase {
        Phase::Look { entry, bytes } => {
            drop(bytes);
            Phase::Fetch { entry }
        }
        Phase::Walk { entry, .. } => Phase::Fetch { entry },
        other => other,
    }
}

impl Scan {
    /// From this phase to the next.
    fn comes<W: World>(
        &mut self,
        phase: Phase,
        alloc: Global,
        world: &mut W,
        actor: u32,
        schema: &Schema,
    ) -> (Phase, Came)
        requires searching { IsSearching actor schema.now (W.state world.old) (record { scan = self.old; phase = phase }) }
        requires table { HoldsTable schema.now self.old.table (W.state world.old) }
        ensures { Comes actor schema.now (W.state world.old) (W.state world.new) self.old phase self.new result }
    {
        match phase {
            Phase::Seek => self.seek(alloc, world, actor, schema),
            Phase::Follow => self.follow(world, actor, schema),
            Phase::Fetch { entry } => self.fetch(alloc, world, actor, schema, entry),
            Phase::Look { entry, bytes } => self.look(alloc, world, actor, schema, entry, bytes),
            Phase::Walk { entry, pointer } => self.walk(
                alloc, world, actor, schema, entry, pointer,
            ),
            Phase::Keep { entry, row } => self.keep(alloc, world, actor, schema, entry, row),
            Phase::Sort => self.sort(world, actor, schema),
            Phase::Leave => self.leave(alloc, world, actor, schema),
        }
    }
}
