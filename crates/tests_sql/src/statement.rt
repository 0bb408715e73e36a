//! Statements as text: what the parser makes of bytes, or where it refuses them.
//! No test stands here; `trees` compares what comes of it.

use crate::condition::{push_expression, push_filter};
use crate::rendering::{push_comma, push_if, push_name, push_names, push_text, push_tuple};
use inno_types::{
    DeclaredKind, Definition, Definitions, Filter, Level, LevelScope, Mode, Names, Selected, Sets,
    Stmt, Tuples,
};
use sql_text::{NotParsed, parse};
use std::alloc::{AllocError, Global};

/// The tree of the statement that the bytes spell; nothing where they spell none.
pub fn tree(alloc: Global, bytes: &[u8]) -> Result<Vec<u8>, AllocError> {
    match parse(alloc, bytes) {
        Ok(stmt) => spelled(alloc, stmt),
        Err(NotParsed::NoStatement) => Ok(Vec::new(alloc)),
        Err(NotParsed::NoMemory) => Err(AllocError),
    }
}

fn spelled(alloc: Global, stmt: Stmt) -> Result<Vec<u8>, AllocError> {
    let mut out = Vec::new(alloc);
    let pushed = push_statement(alloc, &mut out, &stmt);
    drop(stmt);
    pushed?;
    Ok(out)
}

fn push_statement(alloc: Global, out: &mut Vec<u8>, stmt: &Stmt) -> Result<(), AllocError> {
    match stmt {
        Stmt::CreateTable {
            table,
            if_not_exists,
            definitions,
        } => {
            push_text(out, "create ")?;
            push_if(out, *if_not_exists, "if-not-exists ")?;
            push_name(out, table)?;
            push_definitions(alloc, out, definitions)
        }
        Stmt::Select {
            selected,
            table,
            filter,
            lock,
        } => {
            push_selected(out, selected)?;
            push_name(out, table)?;
            push_where(alloc, out, filter)?;
            push_lock(out, *lock)
        }
        Stmt::Insert {
            table,
            columns,
            tuples,
        } => {
            push_text(out, "insert ")?;
            push_name(out, table)?;
            push_columns(out, columns)?;
            push_tuples(alloc, out, tuples)
        }
        Stmt::Update {
            table,
            sets,
            filter,
        } => {
            push_text(out, "update ")?;
            push_name(out, table)?;
            push_sets(alloc, out, sets)?;
            push_where(alloc, out, filter)
        }
        Stmt::Delete { table, filter } => {
            push_text(out, "delete ")?;
            push_name(out, table)?;
            push_where(alloc, out, filter)
        }
        _ => push_small(out, stmt),
    }
}

/// A statement that is about no table.
fn push_small(out: &mut Vec<u8>, stmt: &Stmt) -> Result<(), AllocError> {
    match stmt {
        Stmt::Begin { snapshot } => {
            push_text(out, "begin")?;
            push_if(out, *snapshot, " with-snapshot")
        }
        Stmt::Commit => push_text(out, "commit"),
        Stmt::Rollback => push_text(out, "rollback"),
        Stmt::RollbackTo { savepoint } => {
            push_text(out, "rollback-to ")?;
            push_name(out, savepoint)
        }
        Stmt::Savepoint { name } => {
            push_text(out, "savepoint ")?;
            push_name(out, name)
        }
        Stmt::SetAutocommit(on) => {
            push_text(
                out,
                if *on {
                    "autocommit on"
                } else {
                    "autocommit off"
                },
            )
        }
        Stmt::SetLevel { scope, level } => {
            push_text(out, scope_text(*scope))?;
            push_text(out, level_text(*level))
        }
        _ => push_text(out, "?"),
    }
}

fn scope_text(scope: LevelScope) -> &'static str {
    match scope {
        LevelScope::Session => "session ",
        LevelScope::NextTransaction => "next ",
    }
}

fn level_text(level: Level) -> &'static str {
    match level {
        Level::ReadUncommitted => "read-uncommitted",
        Level::ReadCommitted => "read-committed",
        Level::RepeatableRead => "repeatable-read",
        Level::Serializable => "serializable",
    }
}

fn push_definitions(
    alloc: Global,
    out: &mut Vec<u8>,
    definitions: &Definitions,
) -> Result<(), AllocError> {
    push_text(out, " (")?;
    for (place, definition) in definitions.as_slice().iter().enumerate() {
        push_comma(out, place)?;
        push_definition(alloc, out, definition)?;
    }
    push_text(out, ")")
}

fn push_definition(
    alloc: Global,
    out: &mut Vec<u8>,
    definition: &Definition,
) -> Result<(), AllocError> {
    match definition {
        Definition::Column {
            name,
            kind,
            nullable,
            primary,
        } => {
            push_name(out, name)?;
            push_kind(alloc, out, *kind)?;
            push_text(out, nullable_text(*nullable))?;
            push_if(out, *primary, " primary")
        }
        Definition::Primary { column } => {
            push_text(out, "primary ")?;
            push_name(out, column)
        }
        Definition::Key { name, column } => {
            push_text(out, "key ")?;
            if let Some(name) = name {
                push_name(out, name)?;
                push_text(out, " on ")?;
            }
            push_name(out, column)
        }
    }
}

fn push_kind(alloc: Global, out: &mut Vec<u8>, kind: DeclaredKind) -> Result<(), AllocError> {
    match kind {
        DeclaredKind::BigInt => push_text(out, " bigint"),
        DeclaredKind::VarBinary(None) => push_text(out, " varbinary too-big"),
        DeclaredKind::VarBinary(Some(size)) => {
            let digits = size.to_string(alloc)?;
            push_text(out, " varbinary ")?;
            push_text(out, digits.as_str())
        }
    }
}

fn nullable_text(nullable: Option<bool>) -> &'static str {
    match nullable {
        Some(true) => " null",
        Some(false) => " not-null",
        None => "",
    }
}

fn push_selected(out: &mut Vec<u8>, selected: &Selected) -> Result<(), AllocError> {
    push_text(out, "select ")?;
    match selected {
        Selected::AllColumns => push_text(out, "*")?,
        Selected::Columns(names) => push_names(out, names)?,
    }
    push_text(out, " from ")
}

fn push_where(alloc: Global, out: &mut Vec<u8>, filter: &Option<Filter>) -> Result<(), AllocError> {
    match filter {
        Some(filter) => {
            push_text(out, " where ")?;
            push_filter(alloc, out, filter)
        }
        None => Ok(()),
    }
}

fn push_lock(out: &mut Vec<u8>, lock: Option<Mode>) -> Result<(), AllocError> {
    match lock {
        Some(Mode::S) => push_text(out, " lock S"),
        Some(Mode::X) => push_text(out, " lock X"),
        None => Ok(()),
    }
}

fn push_columns(out: &mut Vec<u8>, columns: &Option<Names>) -> Result<(), AllocError> {
    match columns {
        Some(names) => {
            push_text(out, " (")?;
            push_names(out, names)?;
            push_text(out, ")")
        }
        None => Ok(()),
    }
}

fn push_tuples(alloc: Global, out: &mut Vec<u8>, tuples: &Tuples) -> Result<(), AllocError> {
    push_text(out, " values ")?;
    for (place, tuple) in tuples.as_slice().iter().enumerate() {
        push_comma(out, place)?;
        push_tuple(alloc, out, tuple)?;
    }
    Ok(())
}

fn push_sets(alloc: Global, out: &mut Vec<u8>, sets: &Sets) -> Result<(), AllocError> {
    push_text(out, " set ")?;
    for (place, set) in sets.as_slice().iter().enumerate() {
        push_comma(out, place)?;
        push_name(out, &set.column)?;
        push_text(out, " = ")?;
        push_expression(alloc, out, &set.value)?;
    }
    Ok(())
}
