//! Laws of commits, views and snapshots, over any past.
//! They are contracts of empty functions, about definitions alone; nothing calls these.

ghost use Rattle.std.specs.Prelude.{◌≡◌, ◌≢◌, ◌≤◌, ◌+◌, ℕ, List, [], ◌∷◌, Some};
ghost use Rattle.inno_model.specs.declared.event.Event.{Event};
ghost use Rattle.inno_model.specs.declared.event.Event.TheVariants.{Committed, View, Undone};
ghost use Rattle.inno_model.specs.Past.{own, commits, changed, db_after, view_of, snapshot, current};

/// The commit of one session leaves what another's view shows.
pub fn a_commit_leaves_others_snapshots()
    ensures { (s t n : ℕ) (past : List Event) → t ≢ s → n ≤ commits past → snapshot s n (Committed t ∷ past) ≡ snapshot s n past }
{}

/// A commit adds the changes of its transaction to what was committed before, and nothing else.
pub fn a_commit_adds_its_changes()
    ensures { (s : ℕ) (past : List Event) → db_after (commits past + 1) (Committed s ∷ past) ≡ changed (db_after (commits past) past) (own s past) }
{}

/// Who commits first is seen by the view that another takes next.
pub fn a_later_view_sees_the_commit()
    ensures { (s t : ℕ) (past : List Event) → view_of s (View s ∷ Committed t ∷ past) ≡ Some (commits past + 1) }
{}

/// The snapshot of a session that has changed nothing is the database after the commits of its view.
pub fn without_own_changes_a_snapshot_is_committed()
    ensures { (s n : ℕ) (past : List Event) → own s past ≡ [] → snapshot s n past ≡ db_after n past }
{}

/// A transaction that has put all its changes back sees the committed database again.
pub fn all_changes_put_back_leave_the_database()
    ensures { (s : ℕ) (past : List Event) → current s (Undone s 0 ∷ past) ≡ db_after (commits past) past }
{}
