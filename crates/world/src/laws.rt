//! Laws on what calls of a world answer, and on how its store goes on.
//! The functions are empty, and nothing calls them.

ghost use Rattle.std.specs.Prelude.{◌≡◌, ℕ, Option};
ghost use Rattle.store_api.specs.declared.moves.Move.{Move};
ghost use Rattle.store_api.specs.declared.moves.Move.TheVariants.{Done};
ghost use Rattle.world.specs.State.{WorldState};
ghost use Rattle.world.specs.Stores.{Pages, StoreGoes};
ghost use Rattle.world.specs.Undoing.{IsUnchanged};
ghost use Rattle.world.specs.Endings.{IsCommitted, IsRolledBack, Commits, RollsBack, FreesLog};
ghost use Rattle.world.specs.AtHand.{IsAtHand};

/// A store at hand puts nothing off: it ends transactions, and frees their logs, at once.
pub fn a_store_at_hand_ends_at_once()
    ensures commits { (s : ℕ) (old new : WorldState) (answer : Move)
        → IsAtHand old → IsAtHand new → Commits s old new answer → (answer ≡ Done) × IsCommitted s old new }
    ensures rolls_back { (s : ℕ) (old new : WorldState) (answer : Move)
        → IsAtHand old → IsAtHand new → RollsBack s old new answer → (answer ≡ Done) × IsRolledBack s old new }
    ensures frees { (s : ℕ) (old new : WorldState) (answer : Move)
        → IsAtHand old → IsAtHand new → FreesLog s old new answer → (answer ≡ Done) × IsUnchanged old new }
{}

/// A store goes on from itself, and by one step after another.
pub fn stores_go_on()
    ensures stays { (store : Option Pages) → StoreGoes store store }
    ensures goes { (old mid new : Option Pages) → StoreGoes old mid → StoreGoes mid new → StoreGoes old new }
{}
