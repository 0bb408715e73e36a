//! A law on the list of latches, as the contract of a function with an empty body.
//! Who asks for a target that it doesn't hold cites it.

ghost use Rattle.std.specs.Prelude.{◌≡◌, false, List, [], ◌∷◌, ◌++◌};
ghost use Rattle.latch_table.specs.declared.latches.Latch.{Latch as HeldLatch};
ghost use Rattle.latch_table.specs.Held.{is_held, with_latch};

/// Where an actor didn't hold the target, its latch stands behind all that were held.
pub fn a_first_latch_stands_last()
    ensures { (asked : HeldLatch) (held : List HeldLatch) → is_held asked.actor asked.target held ≡ false → with_latch asked held ≡ held ++ asked ∷ [] }
{}
