//! Laws of what stands of open transactions' work, entry by entry. Each function has an empty body: its contract is the law.
//! Stores that keep something for such work are to rest on them (proofs/Stores.antt).

ghost use Rattle.std.specs.Prelude.{◌≡◌, ◌⊎◌, ℕ, false, List, ◌∷◌, Option};
ghost use Rattle.inno_types.specs.declared.reply.Reply.{Reply};
ghost use Rattle.inno_types.specs.declared.stmt.Stmt.{Stmt};
ghost use Rattle.inno_model.specs.declared.event.Event.{Event};
ghost use Rattle.inno_model.specs.Past.{IsOpen};
ghost use Rattle.sql_grammar.specs.Grammar.{Spells};
ghost use Rattle.sql_history.specs.Counts.{has_stopped};
ghost use Rattle.sql_history.specs.Legal.{IsLegal};
ghost use Rattle.sql_history.specs.Serial.{Piece};
ghost use Rattle.law_isolation.specs.Stood.{IsStanding, IsNew};

/// Each statement of an open transaction that stands behind an entry stood before it, or its item ends by it. (While the engine has not stopped: behind a stop
/// nothing is committed.)
pub fn what_stands_stood_before()
    ensures { (s : ℕ) (e : Event) (past : List Event) → IsLegal Spells (e ∷ past) → has_stopped (e ∷ past) ≡ false → IsOpen s (e ∷ past) → (statement : Stmt) (reply : Option Reply)
        → IsStanding Spells s (e ∷ past) (Piece.ran statement reply) → IsStanding Spells s past (Piece.ran statement reply) ⊎ IsNew Spells s e past (Piece.ran statement reply) }
{}
