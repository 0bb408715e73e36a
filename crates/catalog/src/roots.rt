//! The root pages of a new table: pages are taken for them and written as empty leaves.
//! A tree's root keeps its page for good.

ghost use Rattle.std.specs.Prelude.{◌≡◌, ◌+◌, ◌*◌, ◌<◌, ◌≤◌, ◌∷◌, ◌++◌, [], length, true, IsTrue, IfOk, IfErr, OnOk, OnErr};
ghost use Rattle.mtr.specs.declared.store.TheConstants.{MOST_VISITED};
ghost use Rattle.mtr.specs.Seen.{visit, claim, IsWithin};
ghost use Rattle.mtr.specs.Calls.{Makes};
ghost use Rattle.space_map.specs.Taking.{map_pages};
ghost use Rattle.catalog.specs.Makeable.{is_makeable};
ghost use Rattle.catalog.specs.Creating.{leaf_head, key_bytes_at, record_len, MakesRoot, MakesRoots, Attempts, IsFreshReason, IsCreateReason};

use crate::makeable::{bytes_of_key, bytes_of_row};
use big_endian::{u16_bytes, u32_bytes};
use inno_db::index_number;
use inno_types::{Column, Kind, Schema};
use mtr::Mtr;
use page_format::layout::{KIND, LEAF, NO_FENCE};
use space_map::take;
use std::alloc::Global;
use store_api::{FreshBad, NoMemory, PageRule, SpaceBad, Visit};
use stored_pages::layout::{FIRST_MAP_PAGE, FIXED_PAGES};

/// The bytes of an empty leaf from byte 20 on, up to its fences.
fn head_of_leaf(index: u32, record_len: u16) -> [u8; 16]
    ensures { result ≡ leaf_head index record_len }
{
    let [a, b, c, d] = u32_bytes(index);
    let [high, low] = u16_bytes(record_len);
    [
        LEAF, 0, 0, 0, a, b, c, d, 0, 0, 0, 0, high, low, NO_FENCE, NO_FENCE,
    ]
}

fn make_zeros<M: Mtr>(m: &mut M, page: u32) -> Result<(), SpaceBad>
    requires few { length (visit page (M.state m.old).visited) ≤ MOST_VISITED }
    requires within { IsWithin page (M.state m.old) }
    ensures made { OnOk result (Makes page (M.state m.old) (M.state m.new)) }
    ensures kept { OnErr result (M.state m.new ≡ M.state m.old) }
    ensures reason { IfErr result (IsFreshReason page (M.state m.old)) }
{
    match m.fresh(page) {
        Ok(()) => Ok(()),
        Err(FreshBad::Again) => Err(SpaceBad::Visit(Visit::Again)),
        Err(FreshBad::NoMemory) => Err(SpaceBad::NoMemory),
    }
}

/// Takes a page and writes it as an empty leaf of the index, with records of that many bytes. Pages of fixed numbers are
/// never free, and a map that says so breaks the rule on use.
fn make_root<M: Mtr>(m: &mut M, index: u32, record_len: u16) -> Result<u32, SpaceBad>
    requires width { 0 < record_len }
    requires few { claim map_pages (M.state m.old).visited + 1 ≤ MOST_VISITED }
    ensures made { IfOk result (λ root. MakesRoot index record_len root (M.state m.old) (M.state m.new)) }
    ensures kept { OnErr result (Attempts 1 (M.state m.old) (M.state m.new)) }
    ensures reason { IfErr result (IsCreateReason 1 (M.state m.old) (M.state m.new)) }
{
    let page = take(m)?;
    if page < FIXED_PAGES {
        return Err(SpaceBad::Visit(Visit::Bad {
            page: FIRST_MAP_PAGE,
            rule: PageRule::Use as u8,
        }));
    }
    make_zeros(m, page)?;
    m.put(page, KIND as u16, &head_of_leaf(index, record_len))?;
    Ok(page)
}

/// How many bytes a value of the column at a place has as a key.
fn bytes_at(columns: &[Column], place: u8) -> u16
    ensures exact { result ≡ key_bytes_at columns.now place }
    ensures small { result ≤ 256 }
{
    match columns.get(usize::from(place)) {
        Some(column) => bytes_of_key(column.kind),
        None => bytes_of_key(Kind::BigInt),
    }
}

/// How many bytes the records of one of the table's indexes have: the clustered one is 0, and the keys follow in order.
fn len_of_record(schema: &Schema, which: usize) -> u16
    requires makeable { is_makeable schema.now ≡ true }
    requires which { which ≤ length schema.now.keys }
    ensures exact { result ≡ record_len schema.now which }
    ensures some { 0 < result }
{
    let columns = schema.columns.as_slice();
    if which == 0 {
        return bytes_of_row(columns) as u16 + 17;
    }
    let column = schema.keys.as_slice()[which - 1].column;
    bytes_at(columns, column) + bytes_at(columns, schema.primary) + 2
}

fn push_root(roots: &mut Vec<u32>, root: u32) -> Result<(), NoMemory>
    ensures { OnOk result (roots.new.items ≡ roots.old.items ++ root ∷ []) }
{
    roots.push(root)?;
    Ok(())
}

/// Makes the roots of all indexes of the table of that number, the clustered one first.
pub fn make_roots<M: Mtr>(
    alloc: Global,
    m: &mut M,
    schema: &Schema,
    table: u8,
) -> Result<Vec<u32>, SpaceBad>
    requires makeable { is_makeable schema.now ≡ true }
    requires few { claim map_pages (M.state m.old).visited + 5 ≤ MOST_VISITED }
    ensures made { IfOk result (λ roots. MakesRoots schema.now table (1 + length schema.now.keys) roots.items (M.state m.old) (M.state m.new)) }
    ensures kept { OnErr result (Attempts (1 + length schema.now.keys) (M.state m.old) (M.state m.new)) }
    ensures reason { IfErr result (IsCreateReason (1 + length schema.now.keys) (M.state m.old) (M.state m.new)) }
{
    let mut roots = Vec::new(alloc);
    for which in 0..1 + schema.keys.len() {
        let index = index_number(table, which as u8);
        let root = make_root(m, index, len_of_record(schema, which))?;
        push_root(&mut roots, root)?;
    }
    Ok(roots)
}
