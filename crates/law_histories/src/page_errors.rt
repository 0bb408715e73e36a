//! A law of histories: an item that ends with 1114 for want of pages names fewer that are free than it needs. (The 1114 of a
//! seventeenth table is another error.) The function has an empty body: its contract is the law.

ghost use Rattle.std.specs.Prelude.{◌≡◌, List, false};
ghost use Rattle.std.specs.List.{list_any};
ghost use Rattle.inno_model.specs.declared.event.Event.{Event};
ghost use Rattle.sql_grammar.specs.Grammar.{Spells};
ghost use Rattle.sql_history.specs.Legal.{IsLegal};
ghost use Rattle.law_histories.specs.Space.{ends_without_want};

/// No item of a legal history ends for want of pages where, by its own words, enough were free.
pub fn want_of_pages_is_told_truly()
    ensures { (past : List Event) → IsLegal Spells past → list_any ends_without_want past ≡ false }
{}
