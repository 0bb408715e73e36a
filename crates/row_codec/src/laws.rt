//! What callers may rest on about the bytes of records.
//! Each law is the contract of a function that does nothing; proofs above cite the lemmas behind them, in proofs/.

ghost use Rattle.std.specs.Prelude.{◌≡◌, List, ℕ, ◌+◌, length, remove, sum_by};
ghost use Rattle.inno_types.specs.declared.value.Schema.{Schema};
ghost use Rattle.store_api.specs.declared.answers.Version.{Version};
ghost use Rattle.key_codec.specs.Keys.{key_width};
ghost use Rattle.row_codec.specs.Rows.{IsRowOf, IsRecordOf, IsVersion, version_code};

/// No two versions have one record.
pub fn one_version()
    ensures { (schema : Schema) (v w : Version) (key value : List ℕ) → IsVersion v → IsVersion w
        → IsRecordOf schema v key value → IsRecordOf schema w key value → v ≡ w }
{}

/// The values of all records of a table have one length.
pub fn one_length()
    ensures { (schema : Schema) (v : Version) → IsRowOf schema.columns v.row
        → length (version_code schema v)
        ≡ 17 + sum_by (λ column. 1 + key_width column.kind) (remove schema.columns schema.primary) }
{}
