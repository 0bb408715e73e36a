//! Read views: which versions a consistent read sees, by the ids of their writers.
//! A view is taken once and then only asked; the engine keeps it for its transaction.
#![tactic(auto)]

ghost use Rattle.std.specs.Prelude.{◌≡◌, ◌==◌, ℕ, ◌<◌, true, false, IfOk};
ghost use Rattle.std.specs.List.{list_any};
ghost use Rattle.read_view.specs.Sight.{is_seen};

use inno_types::Ids;
use std::alloc::Global;
use std::marker::Model;
use store_api::NoMemory;

/// The ids that were active when the view was taken, that of its reader (0 where it had none yet), and the next one then.
/// MySQL 8.0 Reference Manual, "Consistent Nonlocking Reads" and "InnoDB Multi-Versioning".
#[derive(Drop)]
pub struct ReadView {
    active: Vec<u64>,
    own: u64,
    next: u64,
}

impl Model for ReadView {
    ghost use Rattle.std.specs.Prelude.{◌<◌};
    ghost use Rattle.read_view.specs.Sight.{Sight};

    ghost Value = { Sight };

    ghost view = { λ v. record { active = v.active.items; own = v.own; next = v.next } };

    ghost invariant = { λ v. v.own < v.next };
}

impl ReadView {
    pub fn take(alloc: Global, active: &Ids, own: u64, next: u64) -> Result<ReadView, NoMemory>
        requires { own < next }
        ensures { IfOk result (λ v. v ≡ record { active = active.now; own = own; next = next }) }
    {
        let active = active.as_slice().to_vec(alloc)?;
        Ok(ReadView { active, own, next })
    }

    /// Whether the view sees what the transaction of that id wrote.
    pub fn sees(&self, id: u64) -> bool
        ensures { result ≡ is_seen self.now id }
    {
        id == self.own || id < self.next && !contains(&self.active, id)
    }

    /// The least id that the view does not see.
    pub fn oldest(&self) -> u64
        ensures unseen { is_seen self.now result ≡ false }
        ensures least { (id : ℕ) → id < result → is_seen self.now id ≡ true }
    {
        let mut least = self.next;
        for id in &self.active {
            if *id != self.own && *id < least {
                least = *id;
            }
        }
        least
    }
}

fn contains(ids: &[u64], id: u64) -> bool
    ensures { result ≡ list_any (λ a. a == id) ids.now }
{
    ids.iter().any(|a| *a == id)
}
