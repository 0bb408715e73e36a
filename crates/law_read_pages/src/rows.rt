//! What records read as: one way, as what is committed, and the same while what was open is taken back.
//! They speak of records and versions alone; where these stand in pages is a matter of `pages`.

ghost use Rattle.std.specs.Prelude.{◌≡◌, ℕ, Bool, true, List, ◌∷◌, Option, Some};
ghost use Rattle.inno_types.specs.declared.value.Value.{Value};
ghost use Rattle.inno_types.specs.declared.value.Schema.{Schema};
ghost use Rattle.inno_model.specs.declared.event.Event.{Event};
ghost use Rattle.inno_model.specs.Past.{changed, commits, committed};
ghost use Rattle.entries.specs.Pairs.{Pair};
ghost use Rattle.row_versions.specs.declared.kept.Kept.{Kept};
ghost use Rattle.row_versions.specs.declared.place.Place.{Place};
ghost use Rattle.row_versions.specs.declared.version.Version.{Version};
ghost use Rattle.row_versions.specs.Chains.{Chains, versions_at};
ghost use Rattle.law_past_agreement.specs.Order.{IsOrdered, created};
ghost use Rattle.law_past_agreement.specs.Ids.{opens};
ghost use Rattle.law_past_agreement.specs.Rows.{is_at, row_opened};
ghost use Rattle.law_past_agreement.specs.Agreement.{AreVersions};
ghost use Rattle.law_past_agreement.specs.DatabaseTables.{with_all_tables};
ghost use Rattle.law_stored_rows.specs.Records.{IsRecordWith};
ghost use Rattle.law_stored_rows.specs.Tables.{AreClustered};
ghost use Rattle.law_read_pages.specs.Rows.{has_id, ReadsAs, ReadAs};

/// A record reads one way: whoever reads it as two rows reads one.
pub fn a_record_reads_one_way()
    ensures { (schema : Schema) (key : List ℕ) (kept : ℕ → Option Kept) (open_id : ℕ → Bool) (bytes : Option (List ℕ))
        (row other : Option (List Value)) → ReadsAs schema key kept open_id bytes row → ReadsAs schema key kept open_id bytes other
        → row ≡ other }
{}

/// The rows of an engine that agrees with its past read as what is committed: whatever is open in it, and whatever a
/// session has changed since it began, is passed over.
pub fn held_rows_read()
    ensures { (past : List Event) (indexes : ℕ → List Pair) (kept : ℕ → Option Kept) (chains : Chains) → IsOrdered past
        → ((place : Place) → AreVersions past (row_opened past place) (is_at (created past) place) (versions_at place chains))
        → AreClustered (created past) indexes kept chains
        → ReadAs (created past) indexes kept (has_id (opens past)) (changed (with_all_tables past) (committed (commits past) past)).rows }
{}

/// Where the newest version of a record is one of an open transaction, the record reads the same once it is taken back.
pub fn a_rollback_leaves_what_is_read()
    ensures { (schema : Schema) (key : List ℕ) (kept : ℕ → Option Kept) (open_id : ℕ → Bool) (was now : Option (List ℕ))
        (newest : Version) (older : List Version) (row : Option (List Value)) → open_id newest.writer ≡ true
        → IsRecordWith schema key kept was (newest ∷ older) → IsRecordWith schema key kept now older
        → ReadsAs schema key kept open_id was row → ReadsAs schema key kept open_id now row }
{}
