//! Pages in memory, for tests of all that works over pages.
//! They never fail, and each of them is at hand.

ghost use Rattle.std.specs.Prelude.{◌≡◌, ℕ, ◌+◌, ◌<◌, ◌≤◌, length, IsTrue, IsOk, IfOk, OnOk, OnErr, Err};
ghost use Rattle.mtr.specs.Calls.{Commits};
ghost use Rattle.mtr.specs.Resting.{IsResting};
ghost use Rattle.mtr.specs.declared.listed.ListedPages.{ListedPages as Listed};

use crate::pages::Mtr;
use crate::store::Store;
use std::alloc::Global;
use store_api::{FreshBad, NoMemory, Visit};
use stored_pages::layout::PAGE;

/// Pages in memory. They are told as long as page 0 counts no more than there are, since no call of theirs fails.
#[derive(Drop)]
pub struct ListedPages {
    store: Store,
}

impl ListedPages {
    /// These pages, with that spare at the beginning of each mini-transaction.
    pub fn new(alloc: Global, pages: Vec<[u8; PAGE]>, spare: u64) -> Result<ListedPages, NoMemory>
        ensures { IfOk result (λ m. IsResting pages.items spare (⟦<ListedPages as Mtr>⟧.state m)) }
    {
        Ok(ListedPages {
            store: Store::new(alloc, pages, spare)?,
        })
    }

    /// Makes all the puts stand, and begins the next mini-transaction.
    pub(crate) fn stand(&mut self)
        ensures { Commits (⟦<ListedPages as Mtr>⟧.state self.old) (⟦<ListedPages as Mtr>⟧.state self.new) }
    {
        self.store.commit();
    }

    /// Pages in memory count no fault. So they are told through all calls, unless page 0 counts more of them.
    pub fn counts_no_fault()
        ensures { (m : Listed) → (⟦<ListedPages as Mtr>⟧.state m).faults ≡ 0 }
    {}
}

impl Mtr for ListedPages {
    ghost use Rattle.mtr.specs.Listed.{state_of};

    ghost state = { λ m. state_of m.store };

    fn bytes(&mut self, page: u32) -> Result<&[u8], Visit> {
        self.store.visit(page);
        Ok(self.store.page(page))
    }

    fn fresh(&mut self, page: u32) -> Result<(), FreshBad> {
        match self.store.make(page) {
            Ok(()) => Ok(()),
            Err(_) => Err(FreshBad::NoMemory),
        }
    }

    fn put(&mut self, page: u32, at: u16, bytes: &[u8]) -> Result<(), NoMemory> {
        self.store.put(page, at, bytes)
    }

    fn commit(&mut self) -> Result<(), NoMemory> {
        self.store.commit();
        Ok(())
    }

    fn give_up(&mut self) {
        self.store.give_up();
    }
}
