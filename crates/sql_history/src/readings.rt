//! What legality says of the newest entry of a history, for the SQL of the grammar.
//! Each of these laws is the contract of an empty function; nothing calls them.

ghost use Rattle.std.specs.Prelude.{◌≡◌, ℕ, List, ◌∷◌, Some, true, false};
ghost use Rattle.inno_types.specs.declared.value.Value.{Value};
ghost use Rattle.inno_types.specs.declared.lock.Level.TheVariants.{RepeatableRead};
ghost use Rattle.inno_types.specs.declared.reply.Reply.{Reply};
ghost use Rattle.inno_types.specs.declared.reply.Reply.TheVariants.{Rows, Stopped};
ghost use Rattle.inno_model.specs.declared.event.Event.{Event};
ghost use Rattle.inno_model.specs.declared.event.Event.TheVariants.{Committed, Ended};
ghost use Rattle.inno_model.specs.Past.{level};
ghost use Rattle.sql_grammar.specs.Grammar.{Spells};
ghost use Rattle.sql_history.specs.Items.{point};
ghost use Rattle.sql_history.specs.Counts.{has_stopped};
ghost use Rattle.sql_history.specs.Legal.{IsLegal};
ghost use Rattle.sql_history.specs.Readings.{AsksOnly, is_plain_select, AnswersBySnapshot};

pub fn the_front_of_a_legal_history_is_legal()
    ensures { (e : Event) (past : List Event) → IsLegal Spells (e ∷ past) → IsLegal Spells past }
{}

/// A plain SELECT at REPEATABLE READ answers by the rows committed before its transaction's view, and its own changes.
/// MySQL 8.0 Reference Manual, "Consistent Nonlocking Reads".
pub fn a_consistent_read_answers_by_its_view()
    ensures { (s j : ℕ) (rows : List (List Value)) (past : List Event) → IsLegal Spells (Ended s j (Rows rows) ∷ past) → level s (point s past) ≡ Some RepeatableRead → AsksOnly Spells is_plain_select s past → AnswersBySnapshot Spells s (Rows rows) past }
{}

pub fn after_a_stop_items_answer_stopped()
    ensures { (s j : ℕ) (reply : Reply) (past : List Event) → has_stopped past ≡ true → IsLegal Spells (Ended s j reply ∷ past) → reply ≡ Stopped }
{}

pub fn nothing_commits_after_a_stop()
    ensures { (s : ℕ) (past : List Event) → IsLegal Spells (Committed s ∷ past) → has_stopped past ≡ false }
{}
