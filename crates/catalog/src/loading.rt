//! The tables of the catalog, read from its pages.
//! Nothing is changed by it.

ghost use Rattle.std.specs.Prelude.{◌≡◌, ◌≤◌, ◌∷◌, ◌++◌, [], IsTrue, IfOk, IfErr, OnOk, MatchBool, vec_len, length};
ghost use Rattle.std.specs.List.{list_all};
ghost use Rattle.mtr.specs.declared.store.TheConstants.{MOST_VISITED};
ghost use Rattle.mtr.specs.Seen.{claim};
ghost use Rattle.mtr.specs.Calls.{Consults};
ghost use Rattle.catalog.specs.Tables.{is_new_name, IsCatalog};
ghost use Rattle.catalog.specs.Loading.{catalog_pages, Accepts, Refuses, Adds, IsAddReason, IsLoadReason};

use crate::makeable::could_be_made;
use crate::pages::table_on;
use crate::{Held, Schemas};
use inno_types::{Bytes, Listed};
use mtr::{Mtr, capacity};
use std::alloc::Global;
use store_api::{FindBad, NoMemory, PageRule};
use stored_pages::layout::{FIRST_CATALOG_PAGE, FIXED_PAGES};

/// Whether none of the tables has the name.
pub fn is_new(tables: &[Held], name: &Bytes) -> bool
    ensures { result ≡ is_new_name name.now tables.now }
{
    tables
        .iter()
        .all(|held| held.schema.name.as_slice() != name.as_slice())
}

/// Whether a CREATE TABLE could have put the table of a page behind these.
fn fits_behind(tables: &[Held], page: u32, held: &Held) -> bool
    requires { length tables.now ≤ 16 }
    ensures { MatchBool result (Accepts tables.now page held.now) (Refuses tables.now page held.now) }
{
    page <= FIRST_CATALOG_PAGE + tables.len() as u32
        && could_be_made(&held.schema)
        && is_new(tables, &held.schema.name)
}

fn push_table(tables: &mut Vec<Held>, held: Held) -> Result<(), NoMemory>
    ensures { OnOk result (tables.new.items ≡ tables.old.items ++ held ∷ []) }
{
    tables.push(held)?;
    Ok(())
}

/// Puts what a page shows behind the tables of the pages before it.
fn add_shown(tables: &mut Vec<Held>, page: u32, shown: Option<Held>) -> Result<(), FindBad>
    requires { vec_len tables.old ≤ 16 }
    ensures added { OnOk result (Adds tables.old.items page shown tables.new.items) }
    ensures refused { IfErr result (IsAddReason tables.old.items page shown) }
{
    match shown {
        Some(held) => {
            if !fits_behind(tables, page, &held) {
                return Err(FindBad::Malformed {
                    page,
                    rule: PageRule::Table as u8,
                });
            }
            push_table(tables, held)?;
            Ok(())
        }
        None => Ok(()),
    }
}

/// The tables of the catalog in order of their numbers, each with its root pages.
/// Malformed names the first page that breaks a rule, and the lowest rule that it breaks.
pub fn load<M: Mtr>(alloc: Global, m: &mut M) -> Result<Schemas, FindBad>
    requires { claim catalog_pages (M.state m.old).visited ≤ MOST_VISITED }
    ensures catalog { IfOk result (λ tables. IsTrue (M.state m.new).told → IsCatalog tables (M.state m.old).seen) }
    ensures consults { Consults catalog_pages (M.state m.old) (M.state m.new) }
    ensures reason { IfErr result (IsLoadReason (M.state m.old) (M.state m.new)) }
{
    let count = capacity(m)?;
    let mut tables = Vec::new(alloc);
    for page in FIRST_CATALOG_PAGE..FIXED_PAGES {
        let shown = table_on(alloc, m, page, count)?;
        add_shown(&mut tables, page, shown)?;
    }
    Ok(Listed::from_vec(tables))
}
