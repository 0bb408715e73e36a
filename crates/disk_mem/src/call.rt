//! A call as it is recorded, and how faults are counted.
//! The disk alone records calls; sink and source count their faults here too.

ghost use Rattle.std.specs.Prelude.{◌≡◌, ◌++◌, ◌∷◌, [], IsTrue, false, is_ok};
ghost use Rattle.store_api.specs.Causes.{HasCause};

use store_api::{Area, Failed};

/// A call as it is recorded. The flag says that it succeeded.
#[derive(Drop)]
pub enum Call {
    Look,
    Write(Area, u64, Vec<u8>, bool),
    Sync(Area, bool),
}

/// Records a call, where the calls before it are recorded.
pub fn record(calls: &mut Vec<Call>, told: bool, call: Call) -> bool
    ensures told { IsTrue result → IsTrue told }
    ensures recorded { IsTrue result → calls.new.items ≡ calls.old.items ++ call ∷ [] }
    ensures not { result ≡ false → calls.new.items ≡ calls.old.items }
{
    told && calls.push(call).is_ok()
}

/// Counts a fault, unless all is done.
pub fn count(done: bool, faults: &mut u64) -> Result<(), Failed>
    ensures variant { is_ok result ≡ done }
    ensures cause { HasCause faults.old faults.new result }
{
    if done {
        return Ok(());
    }
    *faults = faults.saturating_add(1);
    Err(Failed)
}
