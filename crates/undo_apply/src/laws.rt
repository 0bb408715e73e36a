//! What callers may rest on between the steps of a taking back. The laws are contracts of functions that do nothing; proofs
//! above cite the lemmas behind them, in proofs/.

ghost use Rattle.std.specs.Prelude.{◌≡◌, ◌⊎◌, ℕ};
ghost use Rattle.store_api.specs.declared.moves.Move.{Move};
ghost use Rattle.store_api.specs.declared.moves.Move.TheVariants.{Done, Step};
ghost use Rattle.store_api.specs.declared.answers.Undo.{Undo};
ghost use Rattle.row_versions.specs.declared.place.Place.{Place};
ghost use Rattle.row_versions.specs.Chains.{Chains};
ghost use Rattle.law_stored_rows.specs.Tables.{Said};
ghost use Rattle.world.specs.State.{WorldState};
ghost use Rattle.undo_apply.specs.declared.work_room.WorkRoom.{WorkRoom};
ghost use Rattle.world.specs.Told.{LeavesRows};
ghost use Rattle.world.specs.AtHand.{IsAtHand};
ghost use Rattle.undo_apply.specs.Removal.{IsAwaitedAlone};
ghost use Rattle.undo_apply.specs.Stages.{IsPuttingBack, PutsBack};

/// Steps of others that change no row may come between.
pub fn others_leave_it()
    ensures { (chains : Chains) (beside : Said) (place : Place) (undo : Undo) (room : WorkRoom) (old new : WorldState)
        → IsPuttingBack chains beside place undo room old → LeavesRows old new → IsPuttingBack chains beside place undo room new }
{}

/// Over a store at hand a taking back needs neither memory nor pages more, and where nobody else is awaited nothing hinders it:
/// each step is made.
pub fn nothing_hinders_at_hand()
    ensures { (chains : Chains) (beside : Said) (place : Place) (actor : ℕ) (undo : Undo) (room next : WorkRoom) (old new : WorldState) (answer : Move)
        → IsAtHand old → IsAtHand new → IsAwaitedAlone actor old → PutsBack chains beside place actor undo room next old new answer
        → (answer ≡ Done) ⊎ (answer ≡ Step) }
{}
