//! A statement is taken apart: an INSERT of several tuples is worked off tuple by tuple.
//! Nothing here looks at rows.

ghost use Rattle.std.specs.Prelude.{◌≡◌, ℕ, List, [], ◌∷◌, None, Option, IfOk, reverse};
ghost use Rattle.inno_types.specs.declared.value.Schema.{Schema};
ghost use Rattle.inno_types.specs.declared.stmt.Literal.{Literal};
ghost use Rattle.inno_types.specs.declared.stmt.Stmt.TheVariants.{Insert};
ghost use Rattle.inno_db.specs.Database.{Database};
ghost use Rattle.inno_db.specs.Changes.{apply};
ghost use Rattle.inno_db.specs.Outcome.{outcome};
ghost use Rattle.inno_db.specs.Refusals.{refusal};
ghost use Rattle.inno_db.specs.Keyed.{IsKeyed};
ghost use Rattle.write_statement.specs.Following.{followed_by};
ghost use Rattle.write_statement.specs.Parts.{IsFirstPart, has_parts, with_tuple};

use crate::machine::Part;
use inno_types::{Boxed, Bytes, Literals, Names, Stmt, Tuples};
use std::alloc::Global;
use store_api::NoMemory;

/// An INSERT goes tuple by tuple: its outcome is that of its first tuple alone, and unless this is refused that of the others
/// behind it, over the database that the first one's row was put into. Where its text and the tables don't refuse the whole,
/// they refuse none of the two.
pub fn an_insert_goes_tuple_by_tuple()
    ensures outcomes { (table : List ℕ) (names : Option (List (List ℕ))) (tuple : List Literal) (tuples : List (List Literal)) (db : Database) → IsKeyed db → refusal db.schemas (Insert table names (tuple ∷ tuples)) ≡ None → outcome (Insert table names (tuple ∷ tuples)) db ≡ followed_by (outcome (Insert table names (tuple ∷ [])) db) (outcome (Insert table names tuples) (apply db (outcome (Insert table names (tuple ∷ [])) db).changes)) }
    ensures refusals { (table : List ℕ) (names : Option (List (List ℕ))) (tuple : List Literal) (tuples : List (List Literal)) (schemas : List Schema) → refusal schemas (Insert table names (tuple ∷ tuples)) ≡ None → (refusal schemas (Insert table names (tuple ∷ [])) ≡ None) × (refusal schemas (Insert table names tuples) ≡ None) }
{}

/// The first part of a statement of this table that its text and the tables don't refuse.
pub fn first_part(
    alloc: Global,
    stmt: Boxed<Stmt>,
    table: u8,
    alone: bool,
    before: usize,
) -> Result<Part, NoMemory>
    ensures { (schemas : List Schema) → refusal schemas stmt ≡ None → IfOk result (IsFirstPart schemas stmt table alone before) }
{
    if has_parts(stmt.get()) {
        return cut(alloc, stmt.into_value(), table, alone, before);
    }
    Ok(Part {
        stmt,
        later: Vec::new(alloc),
        table,
        alone,
        before,
    })
}

/// Takes an INSERT apart; any other statement is one part.
fn cut(alloc: Global, stmt: Stmt, table: u8, alone: bool, before: usize) -> Result<Part, NoMemory>
    ensures { (schemas : List Schema) → refusal schemas stmt ≡ None → IfOk result (IsFirstPart schemas stmt table alone before) }
{
    match stmt {
        Stmt::Insert {
            table: name,
            columns,
            tuples,
        } => {
            let mut later = tuples.into_vec();
            later.reverse();
            cut_off(alloc, name, columns, later, table, alone, before)
        }
        other => Ok(Part {
            stmt: Boxed::new(alloc, other)?,
            later: Vec::new(alloc),
            table,
            alone,
            before,
        }),
    }
}

/// An INSERT's part of the tuple that stands last.
fn cut_off(
    alloc: Global,
    name: Bytes,
    columns: Option<Names>,
    mut later: Vec<Literals>,
    table: u8,
    alone: bool,
    before: usize,
) -> Result<Part, NoMemory>
    ensures { (schemas : List Schema) → refusal schemas (Insert name columns (reverse later.items)) ≡ None → IfOk result (IsFirstPart schemas (Insert name columns (reverse later.items)) table alone before) }
{
    let tuples = Vec::new(alloc);
    let stmt = match later.pop() {
        Some(tuple) => of_tuple(name, columns, tuples, tuple)?,
        None => Stmt::Insert {
            table: name,
            columns,
            tuples: Tuples::from_vec(tuples),
        },
    };
    let stmt = Boxed::new(alloc, stmt)?;
    Ok(Part {
        stmt,
        later,
        table,
        alone,
        before,
    })
}

/// Whether the statement is an INSERT of several tuples.
fn has_parts(stmt: &Stmt) -> bool
    ensures { result ≡ has_parts stmt.now }
{
    if let Stmt::Insert { tuples, .. } = stmt {
        tuples.len() > 1
    } else {
        false
    }
}

/// The statement of an INSERT's next tuple, made of that of the tuple before. Any other statement stays.
pub fn next_tuple(
    alloc: Global,
    stmt: Boxed<Stmt>,
    tuple: Literals,
) -> Result<Boxed<Stmt>, NoMemory>
    ensures { IfOk result (λ part. part ≡ with_tuple tuple stmt) }
{
    let part = with_tuple(stmt.into_value(), tuple)?;
    Ok(Boxed::new(alloc, part)?)
}

fn with_tuple(stmt: Stmt, tuple: Literals) -> Result<Stmt, NoMemory>
    ensures { IfOk result (λ part. part ≡ with_tuple tuple stmt) }
{
    match stmt {
        Stmt::Insert {
            table,
            columns,
            tuples,
        } => {
            let mut tuples = tuples.into_vec();
            tuples.clear();
            of_tuple(table, columns, tuples, tuple)
        }
        other => {
            drop(tuple);
            Ok(other)
        }
    }
}

/// An INSERT of one tuple, in an empty list that is given.
fn of_tuple(
    table: Bytes,
    columns: Option<Names>,
    mut tuples: Vec<Literals>,
    tuple: Literals,
) -> Result<Stmt, NoMemory>
    requires empty { tuples.items ≡ [] }
    ensures { IfOk result (λ part. part ≡ Insert table columns (tuple ∷ [])) }
{
    tuples.push(tuple)?;
    Ok(Stmt::Insert {
        table,
        columns,
        tuples: Tuples::from_vec(tuples),
    })
}
