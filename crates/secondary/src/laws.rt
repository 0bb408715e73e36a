//! What callers may rest on about entries of secondary keys.
//! The law is the contract of a function that does nothing, and that nobody calls.

ghost use Rattle.std.specs.Prelude.{◌≡◌, ℕ, List, ◌≤◌, length, true, slice_get};
ghost use Rattle.store_api.specs.declared.answers.Version.{Version};
ghost use Rattle.inno_types.specs.declared.value.Schema.{Schema};
ghost use Rattle.inno_db.specs.Declarations.{is_indexable};
ghost use Rattle.row_codec.specs.Rows.{IsRecordOf};
ghost use Rattle.secondary.specs.Entries.{place_of, entry_of};

/// A key on a column that can be indexed, in a table whose primary column can be, has short entries.
pub fn an_entry_has_at_most_67_bytes()
    ensures { (schema : Schema) (which : ℕ) (version : Version) (key value : List ℕ)
        → is_indexable (slice_get schema.columns schema.primary) ≡ true
        → is_indexable (slice_get schema.columns (place_of schema which)) ≡ true
        → IsRecordOf schema version key value → length (entry_of schema which version.row key) ≤ 67 }
{}
