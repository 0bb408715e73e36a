//! What the pages of an engine stand for.
//! No crate cites them yet, since no engine that runs keeps its rows in pages.

ghost use Rattle.std.specs.Prelude.{◌≡◌, ℕ, Bool, List, map, Option};
ghost use Rattle.std.specs.FinMap.{get};
ghost use Rattle.inno_db.specs.Database.{Database};
ghost use Rattle.inno_model.specs.declared.event.Event.{Event};
ghost use Rattle.entries.specs.Pairs.{Pair};
ghost use Rattle.row_versions.specs.declared.kept.Kept.{Kept};
ghost use Rattle.catalog.specs.declared.held.Held.{Held};
ghost use Rattle.row_versions.specs.declared.place.Place.{Place};
ghost use Rattle.row_versions.specs.Chains.{Chains, versions_at, in_model};
ghost use Rattle.law_past_agreement.specs.Order.{IsOrdered, created};
ghost use Rattle.law_past_agreement.specs.Ids.{opens};
ghost use Rattle.law_past_agreement.specs.Rows.{is_at, row_opened};
ghost use Rattle.law_past_agreement.specs.Agreement.{AreVersions};
ghost use Rattle.law_stored_rows.specs.Tables.{AreClustered};
ghost use Rattle.law_read_pages.specs.Rows.{has_id};
ghost use Rattle.law_read_pages.specs.Pages.{latest, Show, StandForDb};

/// Where pages show the tables and the clustered records of an engine that agrees with its past, and all tables that it has
/// made are committed, the pages stand for the database of what is committed.
pub fn held_pages_read()
    ensures { (past : List Event) (pages : ℕ → List ℕ) (tables : List Held) (indexes : ℕ → List Pair) (kept : ℕ → Option Kept)
        (chains : Chains) → IsOrdered past
        → ((place : Place) → AreVersions past (row_opened past place) (is_at (created past) place) (versions_at place chains))
        → AreClustered (created past) indexes kept chains
        → Show pages tables indexes → created past ≡ map (λ held. held.schema) tables
        → StandForDb pages kept (has_id (opens past)) (latest past) }
{}

/// With the same older versions and open transactions, pages stand for one database.
pub fn pages_stand_for_one_database()
    ensures { (pages : ℕ → List ℕ) (kept : ℕ → Option Kept) (open_id : ℕ → Bool) (db other : Database) → StandForDb pages kept open_id db
        → StandForDb pages kept open_id other
        → (db.schemas ≡ other.schemas) × ((place : Place) → get db.rows (in_model place) ≡ get other.rows (in_model place)) }
{}
