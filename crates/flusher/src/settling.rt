//! What the pool is told once the pages of a batch are in their places.
//! The flusher alone asks here.

ghost use Rattle.std.specs.Prelude.{◌≡◌, length};
ghost use Rattle.stored_pages.specs.declared.layout.TheConstants.{PAGE};
ghost use Rattle.flusher.specs.Cleaning.{Cleans, CleansOne};

use buffer_pool::Pool;
use doublewrite::Batch;
use stored_pages::layout::{LSN, NUMBER};
use stored_pages::{read_u32, read_u64};

/// A page is in its place as these bytes. It is clean, unless it was changed since.
fn settle_page(pool: &mut Pool, bytes: &[u8])
    requires { length bytes.now ≡ PAGE }
    ensures { CleansOne bytes.now pool.old pool.new }
{
    let page = read_u32(bytes, NUMBER);
    if pool.is_pooled(page) {
        pool.placed(page, read_u64(bytes, LSN));
    }
}

/// All pages of the batch are in their places. They are clean, but for those that were changed since.
pub fn settle(pool: &mut Pool, batch: &Batch)
    ensures { Cleans batch.now batch.now.count pool.old pool.new }
{
    for slot in 0..batch.len() {
        settle_page(pool, batch.page(slot));
    }
}
