//! The end of a mini-transaction: its pages are no more fixed, so that each may be given up once it is clean.
//! What is under way calls this.

ghost use Rattle.mini_txn.specs.Dealt.{pages_of};
ghost use Rattle.paged_txn.specs.Ending.{LetsGo, LetsGoOne};
ghost use Rattle.std.specs.Prelude.{◌≡◌, []};

use buffer_pool::Pool;
use mini_txn::Dealt;

/// Takes the fix of a page back, if it has one.
pub fn let_go(pool: &mut Pool, page: u32)
    ensures { LetsGoOne page pool.old pool.new }
{
    if pool.fixes(page) > 0 {
        pool.unfix(page);
    }
}

/// Forgets all copies, and takes one fix of each page back. A page that was made and not put goes.
pub fn let_all_go(pool: &mut Pool, dealt: &mut Dealt)
    ensures pool { LetsGo (pages_of dealt.old) pool.old pool.new }
    ensures emptied { dealt.new ≡ [] }
{
    while dealt.len() > 0 {
        let_go(pool, dealt.last().page);
        dealt.drop_last();
    }
}
