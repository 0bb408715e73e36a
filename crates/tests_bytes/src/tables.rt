//! Tables are made, and the catalog tells them. Pages that break a rule are named.
//! The catalog is tried over a list of pages; nothing here meets a disk.

ghost use Rattle.std.specs.Prelude.{◌≡◌, [], IsTrue, IfOk};
ghost use Rattle.catalog.specs.Tables.{is_new_name, IsCatalog};

use catalog::{Held, Schemas, could_be_made, create, load};
use inno_types::{Bytes, Column, Key, Kind, Listed, Schema};
use mtr::{ListedPages, Mtr};
use std::alloc::{AllocError, Global};
use std::test::Fail;
use store_api::FindBad;

/// The entry of table `t` with the BIGINT column `id` and the VARBINARY(20) column `b`, the key `kb` on `b`, and roots 21
/// and 22.
const ENTRY: [u8; 28] = [
    1, 116, 2, 2, 105, 100, 1, 0, 1, 1, 98, 2, 20, 0, 0, 1, 2, 107, 98, 1, 0, 0, 0, 21, 0, 0, 0, 22,
];

/// A page of a new file, of which the first 21 are used.
fn new_page(number: u8, count: u8) -> [u8; 4096] {
    let mut page = [0; 4096];
    match number {
        0 => page[47] = count,
        2 => page[32..35].copy_from_slice(&[255, 255, 31]),
        5..21 => page[20] = 2,
        _ => {}
    }
    page
}

fn new_pages(alloc: Global, count: u8) -> Result<Vec<[u8; 4096]>, AllocError> {
    let mut pages = Vec::with_capacity(alloc, usize::from(count))?;
    for number in 0..count {
        pages.push(new_page(number, count))?;
    }
    Ok(pages)
}

/// A page of a file of 40 pages with the tables `u` and `t`.
fn page_of_two(number: u8) -> [u8; 4096] {
    let mut page = new_page(number, 40);
    if number == 5 || number == 6 {
        page[32] = 1;
        page[33..61].copy_from_slice(&ENTRY);
        page[34] = 116 + number % 2;
    }
    page
}

/// The pages of that file with one byte changed.
fn changed_pages(
    alloc: Global,
    page: u8,
    at: usize,
    byte: u8,
) -> Result<Vec<[u8; 4096]>, AllocError> {
    let mut pages = Vec::with_capacity(alloc, 40)?;
    for number in 0..40 {
        let mut bytes = page_of_two(number);
        if number == page && at < 4096 {
            bytes[at] = byte;
        }
        pages.push(bytes)?;
    }
    Ok(pages)
}

fn name_of(alloc: Global, text: &str) -> Result<Bytes, AllocError> {
    Ok(Bytes::from_vec(Vec::from_slice(alloc, text.as_bytes())?))
}

/// A table of 16 columns, the second of which is the primary key's, and 4 keys.
fn wide_table(alloc: Global, name: &str) -> Result<Schema, AllocError> {
    let mut columns = Vec::new(alloc);
    for letter in "abcdefghijklmnop".as_bytes() {
        columns.push(Column {
            name: Bytes::from_vec(Vec::from_slice(alloc, &[*letter])?),
            kind: if *letter < 100 {
                Kind::BigInt
            } else {
                Kind::VarBinary(letter - 90)
            },
            not_null: *letter == 98,
        })?;
    }
    let mut keys = Vec::new(alloc);
    for column in 2..6 {
        keys.push(Key {
            name: name_of(alloc, "key")?,
            column,
        })?;
    }
    Ok(Schema {
        name: name_of(alloc, name)?,
        columns: Listed::from_vec(columns),
        primary: 1,
        keys: Listed::from_vec(keys),
    })
}

/// Whether none of the tables has the name.
fn is_new(tables: &[Held], name: &Bytes) -> bool
    ensures { result ≡ is_new_name name.now tables.now }
{
    tables
        .iter()
        .all(|held| held.schema.name.as_slice() != name.as_slice())
}

/// The tables, at the beginning of a mini-transaction.
fn tables(alloc: Global, m: &mut ListedPages) -> Result<Schemas, FindBad>
    ensures told { IfOk result (λ tables. IsTrue (⟦<ListedPages as Mtr>⟧.state m.new).told → IsCatalog tables (⟦<ListedPages as Mtr>⟧.state m.new).seen) }
    ensures begun { IfOk result (λ _. (⟦<ListedPages as Mtr>⟧.state m.new).visited ≡ []) }
{
    m.give_up();
    let tables = load(alloc, m)?;
    m.give_up();
    Ok(tables)
}

/// Makes a table, in a mini-transaction of its own. None says that it wasn't made.
fn made(alloc: Global, m: &mut ListedPages, schema: &Schema) -> Result<Option<u8>, Fail> {
    let tables = tables(alloc, m)?;
    if tables.len() >= 16 {
        return Err("no room")?;
    }
    if !is_new(tables.as_slice(), &schema.name) {
        return Err("a name twice")?;
    }
    if !could_be_made(schema) {
        return Err("it can't be made")?;
    }
    match create(alloc, m, schema) {
        Ok(table) => {
            m.commit()?;
            Ok(Some(table))
        }
        Err(_) => {
            m.give_up();
            Ok(None)
        }
    }
}

fn same_columns(a: &[Column], b: &[Column]) -> bool {
    a.len() == b.len()
        && a.iter().zip(b).all(|(a, b)| {
            a.name.as_slice() == b.name.as_slice() && a.kind == b.kind && a.not_null == b.not_null
        })
}

fn same_keys(a: &[Key], b: &[Key]) -> bool {
    a.len() == b.len()
        && a.iter().zip(b).all(|(a, b)| a.name.as_slice() == b.name.as_slice()
            && a.column == b.column)
}

/// Whether the only table is this one, with the first free pages as its roots.
fn is_told(told: &[Held], schema: &Schema) -> bool {
    match told {
        [held] => {
            held.schema.name.as_slice() == schema.name.as_slice()
                && same_columns(held.schema.columns.as_slice(), schema.columns.as_slice())
                && held.schema.primary == schema.primary
                && same_keys(held.schema.keys.as_slice(), schema.keys.as_slice())
                && held.roots.as_slice() == [21, 22, 23, 24, 25].as_slice()
        }
        _ => false,
    }
}

/// How many tables there are, the number of one that is made then, and whether it is told.
fn make_wide(alloc: Global, m: &mut ListedPages) -> Result<(usize, Option<u8>, bool), Fail> {
    let before = count_tables(alloc, m)?;
    let schema = wide_table(alloc, "wide")?;
    let table = made(alloc, m, &schema)?;
    let told = tables(alloc, m)?;
    Ok((before, table, is_told(told.as_slice(), &schema)))
}

fn count_tables(alloc: Global, m: &mut ListedPages) -> Result<usize, FindBad> {
    let tables = tables(alloc, m)?;
    Ok(tables.len())
}

#[test]
fn made_and_told(rt: HostRuntime) -> Result<(), Fail> {
    let alloc = rt.alloc();
    let mut m = ListedPages::new(alloc, new_pages(alloc, 120)?, 10_000)?;
    let wide = make_wide(alloc, &mut m);
    drop(m);
    assert_eq!(rt; wide?, (0, Some(0), true));
    Ok(())
}

/// What is told of two tables once one byte of their file is changed.
fn told_with(alloc: Global, page: u8, at: usize, byte: u8) -> Result<(u32, u8), Fail> {
    let mut m = ListedPages::new(alloc, changed_pages(alloc, page, at, byte)?, 0)?;
    let told = count_tables(alloc, &mut m);
    drop(m);
    match told {
        Err(FindBad::Malformed { page, rule }) => Ok((page, rule)),
        Err(_) => Err("another fault")?,
        Ok(_) => Ok((0, 0)),
    }
}

/// A page, a place on it, the byte there, and the page and the rule that are told then.
const CHANGED: [(u8, usize, u8, u32, u8); 9] = [
    (5, 4000, 1, 0, 0),
    (6, 32, 2, 6, 1),
    (6, 20, 1, 6, 1),
    (20, 20, 7, 20, 1),
    (5, 60, 40, 5, 1),
    (5, 41, 0, 5, 6),
    (5, 45, 33, 5, 6),
    (6, 34, 117, 6, 6),
    (5, 32, 0, 6, 6),
];

#[test]
fn pages_that_break_a_rule(rt: HostRuntime) -> Result<(), Fail> {
    for (page, at, byte, broken, rule) in CHANGED {
        let told = told_with(rt.alloc(), page, at, byte)?;
        assert_eq!(rt; told, (broken, rule), "{page} {at}");
    }
    Ok(())
}
