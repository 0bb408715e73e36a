//! What callers may rest on about the bytes of keys and entries.
//! Each law is the contract of a function that does nothing; proofs above cite the lemmas behind them, in proofs/.

ghost use Rattle.std.specs.Prelude.{◌≡◌, List, ℕ, ◌+◌, ◌++◌, length};
ghost use Rattle.std.specs.Ordering.{nat_cmp, ordering_then};
ghost use Rattle.std.specs.Cmp.Lexicographic.{slice_cmp};
ghost use Rattle.inno_types.specs.declared.value.Kind.{Kind};
ghost use Rattle.inno_types.specs.declared.value.Value.{Value};
ghost use Rattle.inno_db.specs.Database.{value_cmp};
ghost use Rattle.key_codec.specs.Keys.{IsOfKind, IsOfKindOrNull, HasKey, HasEntry, key_code, key_width, entry_code};

/// The order of keys, byte by byte, is the order of their values.
pub fn keys_keep_order()
    ensures { (kind : Kind) (a b : Value) → HasKey kind a → HasKey kind b
        → slice_cmp nat_cmp (key_code kind a) (key_code kind b) ≡ value_cmp a b }
{}

/// The order of entries is the order of their values, NULL first, and then that of the primary keys.
pub fn entries_keep_order()
    ensures { (kind : Kind) (a b : Value) (p q : List ℕ) → HasEntry kind a → HasEntry kind b
        → slice_cmp nat_cmp (entry_code kind a p) (entry_code kind b q)
        ≡ ordering_then (value_cmp a b) (slice_cmp nat_cmp p q) }
{}

/// No two values of a kind have one key.
pub fn one_key()
    ensures { (kind : Kind) (a b : Value) → HasKey kind a → HasKey kind b
        → key_code kind a ≡ key_code kind b → a ≡ b }
{}

/// No two values, or primary keys, have one entry.
pub fn one_entry()
    ensures { (kind : Kind) (a b : Value) (p q : List ℕ) → HasEntry kind a → HasEntry kind b
        → entry_code kind a p ≡ entry_code kind b q → (a ≡ b) × (p ≡ q) }
{}

/// All keys of a kind have one length, and so have all entries with primary keys of one length.
pub fn one_width()
    ensures keys { (kind : Kind) (value : Value) → IsOfKind kind value
        → length (key_code kind value) ≡ key_width kind }
    ensures entries { (kind : Kind) (value : Value) (primary : List ℕ) → IsOfKindOrNull kind value
        → length (entry_code kind value primary) ≡ 1 + key_width kind + length primary }
{}
