//! What a mini-transaction may do with pages, as a trait.
//! `ListedPages` meets it over pages in a list, `mini_txn` over the buffer pool and the redo log; the code above is generic over it.

ghost use Rattle.std.specs.Prelude.{◌≡◌, ℕ, ◌+◌, ◌<◌, ◌≤◌, length, IsTrue, IsOk, IfOk, OnOk, OnErr, Err, Ok};
ghost use Rattle.std.specs.Io.BufRead.{Rests};
ghost use Rattle.std.specs.Borrow.{sem};
ghost use Rattle.store_api.specs.declared.visits.FreshBad.TheVariants.{Again as FreshAgain};
ghost use Rattle.store_api.specs.declared.visits.Visit.TheVariants.{Again as VisitAgain};
ghost use Rattle.stored_pages.specs.declared.layout.TheConstants.{PAGE};
ghost use Rattle.mtr.specs.declared.store.TheConstants.{MOST_VISITED};
ghost use Rattle.mtr.specs.Seen.{MtrState, is_in, visit, IsShut, IsWithin, IsShown};
ghost use Rattle.mtr.specs.Calls.{Asks, Makes, Puts, Commits, GivesUp};

use store_api::{FreshBad, NoMemory, Visit};

/// The pages by number, as one mini-transaction sees them. It deals with at most `MOST_VISITED` pages.
pub trait Mtr {
    ghost state: { Self → MtrState };

    /// The page with this mini-transaction's own puts.
    fn bytes(&mut self, page: u32) -> Result<&[u8], Visit>
        requires { length (visit page (state self.old).visited) ≤ MOST_VISITED }
        ensures size { IfOk result (λ bytes. length bytes.now ≡ PAGE) }
        ensures shown { IfOk result (λ bytes. IsTrue (state self.old).told → IsShown ((state self.old).seen page) bytes.now) }
        ensures dealt_with { IsTrue (is_in page (state self.old).visited) → IsOk result }
        ensures shut { IsShut page (state self.old) → result ≡ Err VisitAgain }
        ensures* asks { sem 𝓛 (Rests Self.row self.entry (λ new. Asks page (state self.old) result (state new))) };

    /// Makes the page zeros, whatever stood there. It may take memory, for the page as for its record.
    fn fresh(&mut self, page: u32) -> Result<(), FreshBad>
        requires few { length (visit page (state self.old).visited) ≤ MOST_VISITED }
        requires within { IsWithin page (state self.old) }
        ensures made { OnOk result (Makes page (state self.old) (state self.new)) }
        ensures refused { OnErr result (state self.new ≡ state self.old) }
        ensures shut { IsShut page (state self.old) → result ≡ Err FreshAgain }
        ensures again { result ≡ Err FreshAgain → IsShut page (state self.old) };

    /// Puts bytes in the page, from byte 20 on. Where page 0 counts more pages by it, pages may be told no more.
    fn put(&mut self, page: u32, at: u16, bytes: &[u8]) -> Result<(), NoMemory>
        requires begins { 20 ≤ at }
        requires ends { at + length bytes.now ≤ PAGE }
        requires dealt_with { IsTrue (is_in page (state self.old).visited) }
        requires within { IsWithin page (state self.old) }
        ensures put { OnOk result (Puts page at bytes.now (state self.old) (state self.new)) }
        ensures refused { OnErr result (state self.new ≡ state self.old) }
        ensures memory { OnErr result ((state self.old).spare < length bytes.now + 9) };

    /// Makes all the puts stand at once for everybody, and begins the next mini-transaction.
    fn commit(&mut self) -> Result<(), NoMemory>
        ensures committed { OnOk result (Commits (state self.old) (state self.new)) }
        ensures refused { OnErr result (state self.new ≡ state self.old) };

    /// Drops the puts and begins the next mini-transaction. It takes no memory.
    fn give_up(&mut self)
        ensures { GivesUp (state self.old) (state self.new) };
}
