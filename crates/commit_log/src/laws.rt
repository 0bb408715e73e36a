//! Laws: which changes have a record, and that the record tells its change.
//! Nothing calls them; their contracts speak of the records of `law_crashes`, not of drafts.

ghost use Rattle.std.specs.Prelude.{◌≡◌, [], ◌∷◌};
ghost use Rattle.inno_db.specs.declared.change.Change.{Change};
ghost use Rattle.law_crashes.specs.Records.{record_of, change_of};
ghost use Rattle.commit_log.specs.Room.{IsShort, HasRecord};

/// A change of few and short values has a record that is no longer than the longest.
pub fn a_short_change_has_a_record()
    ensures { (change : Change) → IsShort change → HasRecord change }
{}

/// The record of a change tells this change and no other.
pub fn a_record_tells_its_change()
    ensures { (change : Change) → change_of (record_of change) ≡ change ∷ [] }
{}
