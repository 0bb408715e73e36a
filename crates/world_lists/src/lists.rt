//! The lists themselves: a world, a desk for each session, and who may write.
//! An engine's opening makes them, and the calls in `steps` alone change them.

ghost use Rattle.std.specs.Prelude.{◌≡◌, ◌<◌, ◌^◌, length, IfOk};
ghost use Rattle.desks.specs.Holding.{IsFresh};
ghost use Rattle.shared_lists.specs.State.{IsFirst};
ghost use Rattle.row_changes.specs.Awaited.{AwaitsNobody};

use desks::Desk;
use std::alloc::Global;
use std::marker::Model;
use store_api::NoMemory;
use undo_apply::RecordRoom;
use world::EngineWorld;

/// The lists over a world.
#[derive(Drop)]
pub struct WorldLists<W: EngineWorld> {
    pub(crate) alloc: Global,
    pub(crate) world: W,
    /// The session that may write.
    pub(crate) writer: Option<u32>,
    /// By the numbers of the sessions.
    pub(crate) desks: Vec<Desk>,
    /// How many older versions were dropped.
    pub(crate) cuts: u64,
    /// The lists by which an undo record is handed on. It holds nothing between calls, so one serves all sessions.
    pub(crate) record: RecordRoom,
}

impl<W: EngineWorld> Model for WorldLists<W> {
    ghost use Rattle.shared_lists.specs.State.{Lists};
    ghost use Rattle.world_lists.specs.Code.{lists_code};
    ghost use Rattle.world_lists.specs.Between.{IsKept, store_of};
    ghost use Rattle.desks.specs.Shown.{lists_of};

    ghost Value = { Lists };

    ghost coded = { lists_code };

    ghost view = { λ l. lists_of (store_of (W.state l.world) l.writer l.desks.items l.cuts) };

    ghost invariant = { λ l. IsKept (store_of (W.state l.world) l.writer l.desks.items l.cuts) };
}

impl<W: EngineWorld> WorldLists<W> {
    /// The lists of a world that nobody has joined.
    pub fn new(alloc: Global, world: W) -> Result<Self, NoMemory>
        requires fresh { IsFresh (W.state world) }
        requires nobody { AwaitsNobody (W.state world) }
        ensures first { IfOk result IsFirst }
        ensures past { IfOk result (λ lists. lists.state.past ≡ (W.state world).past) }
    {
        Ok(WorldLists {
            alloc,
            world,
            writer: None,
            desks: Vec::new(alloc),
            cuts: 0,
            record: RecordRoom::new(alloc)?,
        })
    }
}

/// The history has room for more entries, which proofs read here. It does nothing.
pub fn is_short<W: EngineWorld>(world: &W)
    ensures few { length (W.state world.now).past < 2 ^ 63 }
{
    let _few = world.history();
}
