//! A step.
//! Whatever moment of an engine over pages a crash meets, what is read afterwards is what was committed until then.

ghost use Rattle.std.specs.Prelude.{List};
ghost use Rattle.store_api.specs.Past.{Past};
ghost use Rattle.inno_model.specs.declared.event.Event.{Event};
ghost use Rattle.inno_model.specs.Past.{commits, db_after};
ghost use Rattle.law_read_pages.specs.Undo.{ReadAsDb};
ghost use Rattle.law_read_pages.specs.Stores.{Store, StoreGoes};
ghost use Rattle.law_read_pages.specs.Durable.{IsDurable, GoesOn};

/// Where the newest pages read as the newest database, a step that appends one group at most leaves all as it should be.
pub fn a_held_step_is_durable()
    ensures { (root : Past) (past later : List Event) (old new : Store) → IsDurable root past old → StoreGoes old new → GoesOn past later
        → ReadAsDb new.pages (db_after (commits later) later) → IsDurable root later new }
{}
