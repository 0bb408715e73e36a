//! Which transaction of a cycle is rolled back.
//! The engine hands in the cycle and the number of changes of each transaction; nothing is kept here.

ghost use Rattle.std.specs.Prelude.{◌≡◌, ◌<◌, length, MatchBool};
ghost use Rattle.deadlock.specs.Victim.{changes_of, GoesBefore, IsVictim};

use inno_types::{Edges, Listed};

/// How many row changes of a transaction stand: those that no rollback to a savepoint has put back.
#[derive(Clone, Copy)]
pub struct Size {
    pub txn: u64,
    pub changes: u64,
}

pub type Sizes = Listed<Size>;

/// The transaction that is rolled back to end the cycle: one with the fewest row changes that stand, among equals the
/// transaction whose request the step made (`asked`), else the one begun last. A transaction without a size has no changes.
/// MySQL 8.0 Reference Manual, "Deadlock Detection".
pub fn victim(cycle: &Edges, sizes: &Sizes, asked: Option<u64>) -> u64
    requires { 0 < length cycle.now }
    ensures { IsVictim cycle.now sizes.now asked result }
{
    let edges = cycle.as_slice();
    let mut chosen = edges[0].waiter;
    for edge in edges {
        if goes_before(edge.waiter, chosen, sizes, asked) {
            chosen = edge.waiter;
        }
    }
    chosen
}

/// Whether the first goes rather than the other.
fn goes_before(txn: u64, other: u64, sizes: &Sizes, asked: Option<u64>) -> bool
    ensures { MatchBool result (GoesBefore sizes.now asked txn other) (GoesBefore sizes.now asked other txn) }
{
    let mine = changes_of(txn, sizes);
    let others = changes_of(other, sizes);
    if mine != others {
        return mine < others;
    }
    if asked == Some(txn) || asked == Some(other) {
        return asked == Some(txn);
    }
    txn > other
}

fn changes_of(txn: u64, sizes: &Sizes) -> u64
    ensures { result ≡ changes_of txn sizes.now }
{
    for size in sizes.as_slice() {
        if size.txn == txn {
            return size.changes;
        }
    }
    0
}
