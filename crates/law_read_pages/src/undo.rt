//! What pages alone read as.
//! No crate cites them yet: no engine that runs keeps its older versions in pages.

ghost use Rattle.std.specs.Prelude.{◌≡◌, ℕ, Bool, false, ◌<◌, ◌+◌, List, map, Option, Some, None, [], ◌∷◌};
ghost use Rattle.std.specs.FinMap.{get};
ghost use Rattle.inno_types.specs.declared.value.Value.{Value};
ghost use Rattle.inno_types.specs.declared.value.Schema.{Schema};
ghost use Rattle.inno_db.specs.Database.{Database};
ghost use Rattle.inno_model.specs.declared.event.Event.{Event};
ghost use Rattle.store_api.specs.declared.answers.Version.{Version as Coded};
ghost use Rattle.entries.specs.Pairs.{Pair};
ghost use Rattle.row_versions.specs.declared.kept.Kept.{Kept};
ghost use Rattle.catalog.specs.declared.held.Held.{Held};
ghost use Rattle.row_versions.specs.declared.place.Place.{Place};
ghost use Rattle.row_versions.specs.Chains.{Chains, versions_at, in_model};
ghost use Rattle.law_past_agreement.specs.Order.{IsOrdered, created};
ghost use Rattle.law_past_agreement.specs.Ids.{opens};
ghost use Rattle.law_past_agreement.specs.Rows.{is_at, row_opened};
ghost use Rattle.law_past_agreement.specs.Agreement.{AreVersions};
ghost use Rattle.law_stored_rows.specs.Records.{IsCodeOf};
ghost use Rattle.law_stored_rows.specs.Tables.{AreClustered};
ghost use Rattle.law_logged_pages.specs.Readings.{IgnoresSums};
ghost use Rattle.law_read_pages.specs.Rows.{has_id, ReadsAs};
ghost use Rattle.law_read_pages.specs.Pages.{latest, Show};
ghost use Rattle.law_read_pages.specs.Undo.{bare_pages, IsShadow, open_on, ReadAsDb};

/// The pages of an engine that is held, whose undo pages keep what it keeps and whose slots are its open transactions.
pub fn held_pages_read_alone()
    ensures { (past : List Event) (pages : ℕ → List ℕ) (tables : List Held) (indexes : ℕ → List Pair) (kept : ℕ → Option Kept)
        (chains : Chains) → IsOrdered past
        → ((place : Place) → AreVersions past (row_opened past place) (is_at (created past) place) (versions_at place chains))
        → AreClustered (created past) indexes kept chains
        → Show (bare_pages pages) tables indexes → created past ≡ map (λ held. held.schema) tables
        → IsShadow (bare_pages pages) kept → ((id : ℕ) → open_on (bare_pages pages) id ≡ has_id (opens past) id)
        → ReadAsDb pages (latest past) }
{}

/// Pages alone stand for one database.
pub fn pages_alone_stand_for_one_database()
    ensures { (pages : ℕ → List ℕ) (db other : Database) → ReadAsDb pages db → ReadAsDb pages other
        → (db.schemas ≡ other.schemas) × ((place : Place) → get db.rows (in_model place) ≡ get other.rows (in_model place)) }
{}

/// Nothing is read of sums.
pub fn no_sum_is_read()
    ensures { IgnoresSums ReadAsDb }
{}

/// A record that becomes its row's first committed version, of no writer and with no pointer, reads as the same row.
pub fn a_cleaned_record_reads_the_same()
    ensures { (schema : Schema) (key bytes : List ℕ) (kept : ℕ → Option Kept) (open_id : ℕ → Bool) (row : List Value) (clean : Coded)
        → open_id 0 ≡ false → IsCodeOf schema key bytes clean → clean.marked ≡ false → clean.writer ≡ 0 → clean.pointer ≡ 0 → clean.row ≡ row
        → ReadsAs schema key kept open_id (Some bytes) (Some row) }
{}
