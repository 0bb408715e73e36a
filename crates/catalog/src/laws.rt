//! A law of schemas: its function has an empty body, and the contract is the law.
//! Nothing calls it; it shows that the rule for schemas is that of CREATE TABLE.

ghost use Rattle.std.specs.Prelude.{◌≡◌, true};
ghost use Rattle.inno_types.specs.declared.value.Schema.{Schema};
ghost use Rattle.catalog.specs.Makeable.{is_makeable};
ghost use Rattle.catalog.specs.Declaration.{IsDeclared};

/// A schema could be made exactly where some CREATE TABLE declares it.
pub fn made_is_declared()
    ensures makeable { (s : Schema) → IsDeclared s → is_makeable s ≡ true }
    ensures declared { (s : Schema) → is_makeable s ≡ true → IsDeclared s }
{}
