//! The order in which pages were fixed, and the slot whose frame goes next.
//! The pool alone calls these.

ghost use Rattle.std.specs.Prelude.{◌≡◌, ◌<◌, ◌==◌, ℕ, true, IfOk};
ghost use Rattle.std.specs.List.{list_any};
ghost use Rattle.std.specs.Map.{keys_of};
ghost use Rattle.buffer_pool.specs.Order.{used, last_where};
ghost use Rattle.buffer_pool.specs.Frames as frames;

use crate::slots::Slot;
use lru::LruCache;
use std::alloc::Global;
use store_api::NoMemory;

/// The pages by their last use. It takes the memory for all of them.
pub fn order_of(alloc: Global, pages: u32) -> Result<LruCache<u32, ()>, NoMemory>
    ensures { IfOk result (λ order. (page : ℕ) → page < pages → list_any (λ other. page == other) (keys_of order.entries) ≡ true) }
{
    let mut order = LruCache::unbounded(alloc)?;
    for page in 0..pages {
        order.put(page, ())?;
    }
    Ok(order)
}

/// The page stands first from now on.
pub fn use_page(order: &mut LruCache<u32, ()>, page: u32)
    ensures { list_any (λ other. page == other) (keys_of order.old.entries) ≡ true → keys_of order.new.entries ≡ used page (keys_of order.old.entries) }
{
    order.promote(&page);
}

fn is_idle_at(slots: &[Slot], page: u32) -> bool
    ensures { result ≡ frames.is_idle_at slots.now page }
{
    match slots.get(page as usize) {
        Some(Some(frame)) => frame.is_idle(),
        _ => false,
    }
}

/// The slot with an idle frame that was fixed longest ago.
pub fn last_idle(order: &LruCache<u32, ()>, slots: &[Slot]) -> Option<u32>
    ensures { result ≡ last_where (frames.is_idle_at slots.now) (keys_of order.now.entries) }
{
    let mut pages = order.iter();
    while let Some((page, _)) = pages.next_back() {
        if is_idle_at(slots, *page) {
            return Some(*page);
        }
    }
    None
}
