//! Pages of which each is in memory and was tested when it came there: no call on them is hindered.
//! `ListedPages` meets the trait; an index in a tree asks for it.

ghost use Rattle.std.specs.Prelude.{◌≡◌, ℕ, None};
ghost use Rattle.mtr.specs.Seen.{IsShut};
ghost use Rattle.mtr.specs.Calls.{Commits};

use crate::listed::ListedPages;
use crate::pages::Mtr;

/// Pages that are always at hand, none of which breaks a rule as it is read.
pub trait Resident: Mtr {
    /// As `commit`, and it takes no memory.
    fn settle(&mut self)
        ensures { Commits (Self.state self.old) (Self.state self.new) };

    /// No disk fails, since none is asked.
    ghost no_fault: { (m : Self) → (Self.Mtr.state m).faults ≡ 0 };

    /// Each page is in memory, or finds a frame there.
    ghost at_hand: { (m : Self) (page : ℕ) → IsShut page (Self.Mtr.state m) → ⊥ };

    /// Each page can be read.
    ghost tested: { (m : Self) (page : ℕ) → (Self.Mtr.state m).fault page ≡ None };
}

impl Resident for ListedPages {
    ghost use Rattle.std.specs.Prelude.{refl};

    ghost no_fault = { λ m. refl };

    ghost at_hand = { λ m page shut. Prim.cc };

    ghost tested = { λ m page. refl };

    fn settle(&mut self) {
        self.stand();
    }
}
