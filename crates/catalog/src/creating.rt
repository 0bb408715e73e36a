//! A table is made: its roots first, and then its entry in the catalog.
//! Nothing else writes to the pages of the catalog.

ghost use Rattle.std.specs.Prelude.{◌≡◌, ℕ, ◌+◌, ◌*◌, ◌<◌, ◌≤◌, ◌∷◌, ◌++◌, length, true, IsTrue, IfOk, IfErr, OnOk, OnErr};
ghost use Rattle.std.specs.List.{flat_map};
ghost use Rattle.mtr.specs.declared.store.TheConstants.{MOST_VISITED};
ghost use Rattle.mtr.specs.Seen.{claim, IsWithin};
ghost use Rattle.mtr.specs.Calls.{Consults, IsReason};
ghost use Rattle.space_map.specs.Taking.{map_pages, Miscounts};
ghost use Rattle.schema_codec.specs.Numbers.{u32_bytes};
ghost use Rattle.schema_codec.specs.Schema.{schema_bytes};
ghost use Rattle.catalog.specs.Makeable.{is_makeable};
ghost use Rattle.catalog.specs.Creating.{HasRoom, IsFilled, Nears, PutsEntry, Creates, Attempts, asked_pages, IsPutReason, IsCreateReason};

use crate::put_table;
use crate::roots::make_roots;
use crate::tables::IN_USE;
use inno_types::Schema;
use mtr::Mtr;
use std::alloc::Global;
use store_api::{NoMemory, SpaceBad, Visit};
use stored_pages::layout::FIRST_CATALOG_PAGE;

/// Goes on by a step where the page before the place that it leads to is in use.
fn pass<M: Mtr>(m: &mut M, place: u8, step: u8) -> Result<u8, Visit>
    requires inside { place + 2 * step ≤ 16 }
    requires some { 0 < step }
    requires few { claim map_pages (M.state m.old).visited + 1 ≤ MOST_VISITED }
    ensures inside { IfOk result (λ next. next + step ≤ 16) }
    ensures nears { IfOk result (λ next. IsTrue (M.state m.new).told → Nears place step next (M.state m.old).seen) }
    ensures consults { Consults asked_pages (M.state m.old) (M.state m.new) }
    ensures deals { claim map_pages (M.state m.new).visited ≤ claim map_pages (M.state m.old).visited + 1 }
    ensures reason { IfErr result (IsReason asked_pages Miscounts (M.state m.old) (M.state m.new)) }
{
    let bytes = m.bytes(FIRST_CATALOG_PAGE + u32::from(place + step - 1))?;
    if bytes[IN_USE] == 1 {
        Ok(place + step)
    } else {
        Ok(place)
    }
}

/// How many pages of the catalog are in use, where fewer than all are. It halves the pages in question each time, so that
/// a mini-transaction deals with few of them.
fn count_tables<M: Mtr>(m: &mut M) -> Result<u8, Visit>
    requires { claim map_pages (M.state m.old).visited + 4 ≤ MOST_VISITED }
    ensures inside { IfOk result (λ table. table < 16) }
    ensures count { IfOk result (λ table. IsTrue (M.state m.new).told → (n : ℕ) → n < 16 → IsFilled n (M.state m.old).seen → table ≡ n) }
    ensures consults { Consults asked_pages (M.state m.old) (M.state m.new) }
    ensures deals { claim map_pages (M.state m.new).visited ≤ claim map_pages (M.state m.old).visited + 4 }
    ensures reason { IfErr result (IsReason asked_pages Miscounts (M.state m.old) (M.state m.new)) }
{
    let table = pass(m, 0, 8)?;
    let table = pass(m, table, 4)?;
    let table = pass(m, table, 2)?;
    pass(m, table, 1)
}

/// The bytes of a page in use from the byte on that tells so.
fn used_page(alloc: Global, schema: &Schema, roots: &[u32]) -> Result<Vec<u8>, NoMemory>
    requires { is_makeable schema.now ≡ true }
    ensures { IfOk result (λ bytes. bytes.items ≡ 1 ∷ (schema_bytes schema.now ++ flat_map u32_bytes roots.now)) }
{
    let mut bytes = Vec::new(alloc);
    bytes.push(1)?;
    put_table(schema, roots, &mut bytes)?;
    Ok(bytes)
}

/// Puts the entry of a table on the page of its number.
fn put_entry_on<M: Mtr>(
    alloc: Global,
    m: &mut M,
    schema: &Schema,
    roots: &[u32],
    table: u8,
) -> Result<(), SpaceBad>
    requires makeable { is_makeable schema.now ≡ true }
    requires count { length roots.now ≡ 1 + length schema.now.keys }
    requires inside { table < 16 }
    requires within { IsWithin 20 (M.state m.old) }
    requires few { claim map_pages (M.state m.old).visited + 1 ≤ MOST_VISITED }
    ensures put { OnOk result (PutsEntry schema.now table roots.now (M.state m.old) (M.state m.new)) }
    ensures kept { OnErr result (Consults asked_pages (M.state m.old) (M.state m.new)) }
    ensures reason { IfErr result (IsPutReason (M.state m.old) (M.state m.new)) }
{
    let entry = used_page(alloc, schema, roots)?;
    let page = FIRST_CATALOG_PAGE + u32::from(table);
    m.bytes(page)?;
    m.put(page, IN_USE as u16, &entry)?;
    Ok(())
}

/// Adds a table with empty indexes, and answers its number. Full says that fewer pages are free than it has indexes.
/// After an error the puts so far stand in the mini-transaction, which the caller gives up.
pub fn create<M: Mtr>(alloc: Global, m: &mut M, schema: &Schema) -> Result<u8, SpaceBad>
    requires makeable { is_makeable schema.now ≡ true }
    requires room { IsTrue (M.state m.old).told → HasRoom schema.now.name (M.state m.old).seen }
    requires few { claim map_pages (M.state m.old).visited + 10 ≤ MOST_VISITED }
    ensures created { IfOk result (λ table. Creates schema.now table (M.state m.old) (M.state m.new)) }
    ensures kept { OnErr result (Attempts (1 + length schema.now.keys) (M.state m.old) (M.state m.new)) }
    ensures reason { IfErr result (IsCreateReason (1 + length schema.now.keys) (M.state m.old) (M.state m.new)) }
{
    let table = count_tables(m)?;
    let roots = make_roots(alloc, m, schema, table)?;
    put_entry_on(alloc, m, schema, &roots, table)?;
    Ok(table)
}
