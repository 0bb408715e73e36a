//! A search that locks as a machine: it makes one short step a call, where it lies. Steps of other sessions come between.
//! Whoever drives it looks first whether a request of its transaction was granted, where a step had to wait.

ghost use Rattle.std.specs.Prelude.{◌≡◌, [], None, if◌then◌else◌};
ghost use Rattle.entries.specs.Calls.{Leaves};
ghost use Rattle.inno_db.specs.Indexes.{index_of};
ghost use Rattle.world.specs.Indexes.{Calls};
ghost use Rattle.row_search.specs.declared.sight.Sight.TheVariants.{Newest};
ghost use Rattle.row_locking.specs.Searches.{MayLock};
ghost use Rattle.row_locking.specs.Steps.{Steps, refused_by};

use crate::asker::Asker;
use crate::phase::LockingPhase;
use entries::{Buffer, PairBuffers};
use inno_db::index_number;
use inno_types::{Bytes, Schema};
use row_codec::RowBad;
use row_search::{FoundRow, Scan, Sight};
use sql_plan::Plan;
use std::alloc::Global;
use std::mem;
use store_api::{Move, Stepped};
use world::{LockWorld, World};

/// A search for rows that are locked. `passed` is the key of the index that it came past last.
#[derive(Drop)]
pub struct LockingSearch {
    pub scan: Scan,
    pub asker: Asker,
    pub passed: Option<Bytes>,
    pub phase: LockingPhase,
}

/// How far a step of a search came. Of one that is over: the rows that were found, in the order of their primary keys.
pub type Came = Stepped<Vec<FoundRow>, Hindrance>;

/// Why a step of a search didn't go on. The search is as it was, and the same step is to be made again.
#[derive(Drop)]
pub enum Hindrance {
    /// A call was not done, or there was no memory.
    Call(Move),
    /// The request for the step's lock waits.
    Waits,
    /// A record is not one of the table. This comes only where the world doesn't tell its pairs.
    Malformed,
}

/// No memory for a step.
pub fn no_memory() -> Came
    ensures { result ≡ Stepped.Hindered (Hindrance.Call Move.NoMemory) }
{
    Came::Hindered(Hindrance::Call(Move::NoMemory))
}

/// Why a record was not read.
pub fn refused(why: RowBad) -> Came
    ensures { result ≡ refused_by why }
{
    match why {
        RowBad::NoMemory => no_memory(),
        RowBad::Shape => Came::Hindered(Hindrance::Malformed),
    }
}

impl LockingSearch {
    /// Before the first pair of a plan's range. A range that is empty has none, and nothing of it is locked.
    pub fn new(alloc: Global, table: u8, plan: Plan, asker: Asker) -> LockingSearch
        ensures scan { result.scan ≡ record { table = table; which = plan.which; range = plan.range; sight = Newest; rows = result.scan.rows; pair = result.scan.pair; primary = result.scan.primary } }
        ensures rows { result.scan.rows.items ≡ [] }
        ensures asker { result.asker ≡ asker }
        ensures passed { result.passed ≡ None }
        ensures phase { result.phase ≡ (if plan.range.empty then LockingPhase.Leave else LockingPhase.Next) }
    {
        let phase = if plan.range.empty {
            LockingPhase::Leave
        } else {
            LockingPhase::Next
        };
        let scan = Scan {
            table,
            which: plan.which,
            range: plan.range,
            sight: Sight::Newest,
            rows: Vec::new(alloc),
            pair: PairBuffers::new(alloc),
            primary: Buffer::new(alloc),
        };
        LockingSearch {
            scan,
            asker,
            passed: None,
            phase,
        }
    }

    /// Gives the search up. The session has no place in the index any more; what it locked stays locked.
    pub fn give_up<W: World>(self, world: &mut W, schema: &Schema)
        requires { MayLock schema.now (W.state world.old) self }
        ensures { Calls (index_of self.scan.table self.scan.which) (Leaves self.asker.session) (W.state world.old) (W.state world.new) }
    {
        let index = index_number(self.scan.table, self.scan.which);
        let session = self.asker.session;
        drop(self);
        world.leave(index, session);
    }

    /// One step at this moment, made where the search lies. It asks for one lock at most. The session has a place in no
    /// index but the one that is searched.
    /// MySQL 8.0 Reference Manual, "Locks Set by Different SQL Statements in InnoDB".
    pub fn advance<W: LockWorld>(
        &mut self,
        alloc: Global,
        world: &mut W,
        schema: &Schema,
        now: u64,
    ) -> Came
        requires { MayLock schema.now (W.state world.old) self.old }
        ensures { Steps now schema.now (W.state world.old) (W.state world.new) self.old self.new result }
    {
        let phase = mem::replace(&mut self.phase, LockingPhase::Leave);
        let (next, came) = self.step(phase, alloc, world, schema, now);
        self.phase = next;
        came
    }

    /// From this phase to the next.
    fn step<W: LockWorld>(
        &mut self,
        phase: LockingPhase,
        alloc: Global,
        world: &mut W,
        schema: &Schema,
        now: u64,
    ) -> (LockingPhase, Came)
        requires { MayLock schema.now (W.state world.old) (record self.old { phase = phase }) }
        ensures { Steps now schema.now (W.state world.old) (W.state world.new) (record self.old { phase = phase }) (record self.new { phase = result.0 }) result.1 }
    {
        match phase {
            LockingPhase::Next => self.next(alloc, world, schema, now),
            LockingPhase::Row { entry } => self.row(alloc, world, schema, now, entry),
            LockingPhase::Sort => self.sort(world, schema, now),
            LockingPhase::Leave => self.leave(alloc, world, schema, now),
        }
    }
}
