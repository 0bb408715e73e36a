//! All the memory that mini-transactions take: the frames of the pool, room for the copies of 24 pages and for their records, and
//! for a batch of the flusher. It is taken once, before the first of them.

ghost use Rattle.std.specs.Prelude.{◌≡◌, [], length, None, IfOk};
ghost use Rattle.paged_txn.specs.View.{HasNoPage, HasFrames};

use buffer_pool::Pool;
use flusher::Flusher;
use mini_txn::{Dealt, Edits};
use std::alloc::Global;
use store_api::NoMemory;

/// Room for mini-transactions over a file. Its pool has frames, and no page.
#[derive(Drop)]
pub struct Room {
    pub(crate) pool: Pool,
    pub(crate) dealt: Dealt,
    pub(crate) edits: Edits,
    pub(crate) flusher: Flusher,
    ghost no_page: { HasNoPage (length pool.slots) pool },
    ghost none_dealt: { dealt ≡ [] },
    ghost no_record: { edits ≡ [] },
    ghost no_batch: { flusher ≡ None },
}

/// Frames for a file of so many pages, none of which is in.
fn pool_of_frames(alloc: Global, pages: u32, frames: u32) -> Result<Pool, NoMemory>
    ensures { IfOk result (HasFrames pages frames) }
{
    let mut pool = Pool::new(alloc, pages)?;
    let mut page = 0;
    while page < frames && page < pool.pages() {
        if !pool.has_frame(page) {
            pool.add_frame(alloc, page)?;
        }
        page += 1;
    }
    Ok(pool)
}

impl Room {
    /// So many frames for a file of so many pages, and no more than one a page.
    pub fn new(alloc: Global, pages: u32, frames: u32) -> Result<Room, NoMemory>
        ensures { IfOk result (λ room. HasFrames pages frames room.pool) }
    {
        let pool = pool_of_frames(alloc, pages, frames)?;
        Ok(Room {
            pool,
            dealt: Dealt::new(alloc)?,
            edits: Edits::new(alloc)?,
            flusher: Flusher::new(alloc)?,
        })
    }
}
