//! How a step that knows its own leaves what the others know.

ghost use Rattle.std.specs.Prelude.{ℕ, List, Option};
ghost use Rattle.row_versions.specs.declared.place.Place.{Place};
ghost use Rattle.row_versions.specs.Chains.{Chains};
ghost use Rattle.law_stored_rows.specs.Tables.{Said};
ghost use Rattle.world.specs.State.{WorldState};
ghost use Rattle.law_world_agreement.specs.Agreement.{Agrees};
ghost use Rattle.law_logged_changes.specs.Logs.{LogsAgree};
ghost use Rattle.desks.specs.declared.desk.Desk.{Desk};
ghost use Rattle.desks.specs.Holding.{RowsHeld};
ghost use Rattle.law_other_places.specs.Steps.{StepsAt, LeavesWork, KnowsItsOwn};

/// What all sessions know of their rows stays through a step of one of them at its place, where that one knows its own behind it.
pub fn others_know_what_they_knew()
    ensures { (t : ℕ) (at : Option Place) (chains after : Chains) (said : Said) (old new : WorldState) (desks now : List Desk) (rows : RowsHeld chains old desks)
        → StepsAt t at chains after rows.said said old new → LeavesWork t at old desks now → LogsAgree old → Agrees after new
        → KnowsItsOwn t at after said old new desks now → RowsHeld after new now }
{}
