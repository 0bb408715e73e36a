//! Laws of histories in which no transaction commits a change of a row that another has searched: they answer as their
//! transactions do alone, though statements of many sessions come at once.
//! Each function has an empty body: its contract is the law.

ghost use Rattle.std.specs.Prelude.{◌≡◌, ◌≢◌, ℕ, List, ◌∷◌, ◌++◌};
ghost use Rattle.inno_types.specs.declared.value.Schema.{Schema};
ghost use Rattle.inno_model.specs.declared.event.Event.{Event};
ghost use Rattle.sql_grammar.specs.Grammar.{Spells};
ghost use Rattle.sql_history.specs.LooseReading.{newest};
ghost use Rattle.sql_history.specs.Legal.{IsLegal, MayFollow};
ghost use Rattle.sql_history.specs.Serial.{AnswersAsAlone, IsSerializable, IsSetUp};
ghost use Rattle.law_isolation.specs.Calm.{IsCalm};
ghost use Rattle.law_isolation.specs.Turns.{IsSerial};
ghost use Rattle.law_isolation.specs.Phantoms.{AllApart, IsPhantomFree, SparesLocked, SetsUpFirst};
ghost use Rattle.law_isolation.specs.Example.{interleaved, unended};

/// No entry of a legal history brings changes of two sessions to one place.
pub fn open_transactions_stay_apart()
    ensures { (schemas more : List Schema) (e : Event) (past : List Event) → MayFollow Spells past e → (newest past).schemas ≡ schemas ++ more → AllApart schemas past → AllApart schemas (e ∷ past) }
{}

/// At SERIALIZABLE and free of phantoms, each session but that of the setup part is calm.
pub fn phantom_free_histories_are_calm()
    ensures { (past : List Event) → IsLegal Spells past → IsSerializable past → IsSetUp past → IsPhantomFree Spells past → (s : ℕ) → s ≢ 0 → IsCalm Spells s past }
{}

/// Where each session is at SERIALIZABLE, and no commit changes a row that a standing statement of another has searched, each
/// reply that was committed is what its transaction answers alone, in the order of the commits, and so is the database in
/// the end. The sessions' statements may come at once, be broken off and be rolled back.
pub fn phantom_free_histories_answer_as_alone()
    ensures { (past : List Event) → IsLegal Spells past → IsSerializable past → IsSetUp past → IsPhantomFree Spells past → AnswersAsAlone Spells past }
{}

/// Such histories are there, and not only those in which sessions take turns: between a search and an INSERT of one open
/// transaction another puts a row beside the search, and commits it.
pub fn sessions_may_interleave()
    ensures legal { IsLegal Spells interleaved }
    ensures serializable { IsSerializable interleaved }
    ensures set_up { IsSetUp interleaved }
    ensures free { IsPhantomFree Spells interleaved }
    ensures not_serial { IsSerial interleaved → ⊥ }
{}

/// An engine keeps a history free of phantoms where, at REPEATABLE READ and SERIALIZABLE, it lets nobody commit a change of a
/// row that a standing statement has locked by its search.
pub fn locked_searches_meet_no_phantoms()
    ensures { (past : List Event) → SparesLocked Spells past → IsPhantomFree Spells past }
{}

/// A serial history is free of phantoms: at its commits nobody else has a transaction open.
pub fn serial_histories_are_free_of_phantoms()
    ensures { (past : List Event) → IsSerial past → IsPhantomFree Spells past }
{}

/// Where a setup part is over, no other session has started anything at each of its items' starts and ends.
pub fn a_setup_comes_first()
    ensures { (past : List Event) → IsLegal Spells past → IsSetUp past → SetsUpFirst past }
{}

/// That alone would not do: an item of the setup part that is still under way may commit, behind another session's commit,
/// a transaction that has read before it.
pub fn a_setup_must_have_ended()
    ensures legal { IsLegal Spells unended }
    ensures serializable { IsSerializable unended }
    ensures first { SetsUpFirst unended }
    ensures free { IsPhantomFree Spells unended }
    ensures not_alone { AnswersAsAlone Spells unended → ⊥ }
{}
