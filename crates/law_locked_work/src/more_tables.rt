//! Laws of a table more: it leaves what statements come to, what that rests on, and the rows that sessions see. Each function has an empty body: its contract
//! is the law.
//! Sessions that are at work while another commits a table are to go on by them.

ghost use Rattle.std.specs.Prelude.{◌≡◌, ◌≢◌, ℕ, true, List, [], ◌∷◌, None, ◌≤◌};
ghost use Rattle.inno_types.specs.declared.value.Schema.{Schema};
ghost use Rattle.inno_types.specs.declared.stmt.Stmt.{Stmt};
ghost use Rattle.inno_types.specs.declared.reply.Reply.{Reply};
ghost use Rattle.inno_db.specs.declared.change.Change.{Change};
ghost use Rattle.inno_db.specs.declared.change.Change.TheVariants.{Create};
ghost use Rattle.inno_db.specs.Database.{Database};
ghost use Rattle.inno_db.specs.Refusals.{refusal};
ghost use Rattle.inno_db.specs.Outcome.{outcome};
ghost use Rattle.inno_model.specs.declared.event.Event.{Event};
ghost use Rattle.inno_model.specs.declared.event.Event.TheVariants.{Changed, Committed};
ghost use Rattle.inno_model.specs.Past.{own, commits};
ghost use Rattle.sql_history.specs.Items.{own_before, base};
ghost use Rattle.sql_history.specs.Statements.{is_on_rows};
ghost use Rattle.law_db.specs.RowChanges.{AreOfTables};
ghost use Rattle.row_versions.specs.declared.place.Place.{Place};
ghost use Rattle.law_past_agreement.specs.Order.{IsOrdered};
ghost use Rattle.law_past_agreement.specs.Rows.{row_seen};
ghost use Rattle.law_claims.specs.Claims.{Basis, Stands};
ghost use Rattle.law_histories.specs.Work.{committed_db};
ghost use Rattle.write_statement.specs.Parts.{GoesOnWith};
ghost use Rattle.law_locked_work.specs.Wider.{Widens, IsPlaced};

/// A statement on rows that isn't refused by its text and the tables has the same outcome with more tables.
pub fn more_tables_leave_outcomes()
    ensures { (some wide : Database) (statement : Stmt) → Widens some wide → is_on_rows statement ≡ true → refusal some.schemas statement ≡ None → outcome statement wide ≡ outcome statement some }
{}

/// A reply that stands on its basis, and what comes behind a statement's first changes, stand there with more tables, too.
pub fn more_tables_leave_what_stands()
    ensures reply { (some wide : Database) (basis : Basis) (statement : Stmt) (reply : Reply) → Widens some wide → IsPlaced some.schemas basis → is_on_rows statement ≡ true → refusal some.schemas statement ≡ None
        → Stands basis (λ db. (outcome statement db).reply ≡ reply) some → Stands basis (λ db. (outcome statement db).reply ≡ reply) wide }
    ensures rest { (some wide : Database) (basis : Basis) (statement rest : Stmt) (made : List Change) → Widens some wide → IsPlaced some.schemas basis → is_on_rows statement ≡ true → is_on_rows rest ≡ true
        → refusal some.schemas statement ≡ None → refusal some.schemas rest ≡ None → AreOfTables some.schemas made
        → Stands basis (λ db. GoesOnWith statement db made (outcome rest)) some → Stands basis (λ db. GoesOnWith statement db made (outcome rest)) wide }
{}

/// Where a session commits a table, what another's statement acts on has it more, and nothing else.
pub fn a_committed_table_widens()
    ensures { (s u : ℕ) (schema : Schema) (past : List Event) → own u past ≡ Create schema ∷ [] → AreOfTables (committed_db past).schemas (own_before s past) → Widens (base s past) (base s (Committed u ∷ past)) }
{}

/// Other sessions see the rows that they saw: by a view while it is made, and the latest ones behind its commit.
pub fn a_table_more_leaves_rows()
    ensures made { (t s n : ℕ) (schema : Schema) (h : List Event) (place : Place) → IsOrdered h → t ≢ s → n ≤ commits h → row_seen (Changed t (Create schema) ∷ h) s n place ≡ row_seen h s n place }
    ensures committed { (t s : ℕ) (schema : Schema) (h : List Event) (place : Place) → t ≢ s → own t h ≡ Create schema ∷ [] → row_seen (Committed t ∷ h) s (commits (Committed t ∷ h)) place ≡ row_seen h s (commits h) place }
{}
