//! A text spells one statement. Each function has an empty body: its contract is the law.
//! Nothing calls them; they show that who reads a text as some tree that it spells has no choice.

ghost use Rattle.std.specs.Prelude.{◌≡◌, ℕ, List};
ghost use Rattle.inno_types.specs.declared.stmt.Stmt.{Stmt};
ghost use Rattle.inno_db.specs.Database.{Database};
ghost use Rattle.inno_db.specs.Outcome.{outcome};
ghost use Rattle.inno_model.specs.declared.event.Event.{Event};
ghost use Rattle.inno_model.specs.Past.{opening, commits, db_after};
ghost use Rattle.sql_grammar.specs.declared.token.Token.{Token};
ghost use Rattle.sql_grammar.specs.Tokens.{AreTokens};
ghost use Rattle.sql_grammar.specs.Grammar.{Spells};
ghost use Rattle.sql_history.specs.Items.{Asks};
ghost use Rattle.sql_history.specs.Settings.{Setting, HasSet};
ghost use Rattle.sql_history.specs.Serial.{Piece, AreWorks, WorksAnswer, alone, AnswersAsAlone};
ghost use Rattle.law_histories.specs.Trees.{SameStatement};

/// Bytes are one list of tokens.
pub fn bytes_are_one_list_of_tokens()
    ensures { (bytes : List ℕ) (a b : List Token) → AreTokens bytes a → AreTokens bytes b → a ≡ b }
{}

/// Two trees that a text spells are one statement: they differ at most in where their boxes lie in memory.
pub fn a_text_spells_one_tree()
    ensures { (text : List ℕ) (a b : Stmt) → Spells text a → Spells text b → SameStatement a b }
{}

/// It spells that statement wherever its boxes lie.
pub fn a_text_spells_each_statement_of_the_tree()
    ensures { (text : List ℕ) (a b : Stmt) → Spells text a → SameStatement a b → Spells text b }
{}

/// The reply of a statement over a database, and the changes that it makes there, are those of its tree.
pub fn one_tree_has_one_outcome()
    ensures { (a b : Stmt) (db : Database) → SameStatement a b → outcome a db ≡ outcome b db }
{}

/// So they are those of its text.
pub fn a_text_has_one_outcome()
    ensures { (text : List ℕ) (a b : Stmt) (db : Database) → Spells text a → Spells text b → outcome a db ≡ outcome b db }
{}

/// Entries of a history that read one item's text read one statement.
pub fn an_item_asks_for_one_statement()
    ensures { (s : ℕ) (a b : Stmt) (past : List Event) → Asks Spells s a past → Asks Spells s b past → SameStatement a b }
{}

/// However a session's texts are read, it has set one thing.
pub fn a_session_has_one_setting()
    ensures { (s : ℕ) (a b : Setting) (past : List Event) → HasSet Spells s past a → HasSet Spells s past b → a ≡ b }
{}

/// Where a history answers as its committed transactions do alone, it does so however its texts are read.
pub fn a_history_has_one_replay()
    ensures { (past : List Event) (works : List (List Piece)) → AnswersAsAlone Spells past → AreWorks Spells (λ s. None) past works → WorksAnswer (opening past) works × (alone (opening past) works ≡ db_after (commits past) past) }
{}
