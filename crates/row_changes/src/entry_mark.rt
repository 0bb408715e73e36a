//! Marks an entry of a secondary key whose value has gone. Who reads by an older view still comes to its row by it.
//! `keys_change` alone makes one, in the step that needs it.

ghost use Rattle.std.specs.Prelude.{◌≡◌};
ghost use Rattle.row_changes.specs.Entries.{IsMarking, MarksEntry};
ghost use Rattle.row_changes.specs.Awaited.{AwaitsNoMore};

use inno_types::Bytes;
use std::alloc::Global;
use store_api::{Mark, Move};
use world::World;

/// An entry that is being marked.
#[derive(Drop)]
pub struct EntryMark {
    pub index: u32,
    pub entry: Bytes,
}

impl EntryMark {
    /// The one step. An error tells which call was not done, and all is as it was.
    pub fn step<W: World>(&self, alloc: Global, world: &mut W, actor: u32) -> Result<(), Move>
        requires { IsMarking (W.state world.old) self.now }
        ensures marks { MarksEntry actor (W.state world.old) (W.state world.new) self.now result }
        ensures awaits { AwaitsNoMore (W.state world.old) (W.state world.new) }
    {
        let Ok(value) = vec![in alloc; Mark::Marked as u8] else {
            return Err(Move::NoMemory);
        };
        match world.replace(
            self.index,
            actor,
            &self.entry,
            &Bytes::from_vec(value),
            None,
        ) {
            Move::Done => Ok(()),
            hindrance => Err(hindrance),
        }
    }
}
