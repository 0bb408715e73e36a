//! One undo record: how it is spelled, and how it is read back. Any bytes may be read.
//! Nothing here asks for a page.

ghost use Rattle.std.specs.Prelude.{◌≡◌, ℕ, ◌+◌, ◌<◌, ◌≤◌, ◌++◌, List, length, vec_len, vec_capacity, IfSome, IfNone};
ghost use Rattle.undo_log.specs.declared.record.Undone.{Undone as UndoneValue};
ghost use Rattle.undo_log.specs.Records.{record_bytes, record_length, kind_of, HasValue, StandsAt};

use crate::layout::{BESIDE, CHANGE, INSERTION};
use schema_codec::{extend_reserved, put_u16_reserved};
use stored_pages::read_u16;

/// What a record takes back.
#[derive(Clone, Copy, Debug)]
pub enum Undone {
    /// A row came, and goes again.
    Insertion,
    /// A row was changed or marked, and becomes what it was.
    Change,
}

/// A record: what it takes back, in which table and at which key, and the clustered value that stood there before.
#[derive(Clone, Copy, Debug)]
pub struct Undo<'a> {
    pub undone: Undone,
    pub table: u8,
    pub key: &'a [u8],
    pub value: &'a [u8],
}

fn code(undone: Undone) -> u8
    ensures { result ≡ kind_of undone }
{
    match undone {
        Undone::Insertion => INSERTION,
        Undone::Change => CHANGE,
    }
}

/// Puts a record at the end of a vector that has room for it.
pub fn put_record(undo: Undo<'_>, out: &mut Vec<u8>)
    requires key { length undo.key.now < 256 }
    requires value { length undo.value.now < 4096 }
    requires room { vec_len out.old + record_length undo.key.now undo.value.now ≤ vec_capacity out.old }
    ensures { out.new.items ≡ out.old.items ++ record_bytes undo.entry.undone undo.entry.table undo.entry.key.now undo.entry.value.now }
{
    let long = (BESIDE + undo.key.len() + undo.value.len()) as u16;
    put_u16_reserved(long, out);
    extend_reserved(&[code(undo.undone), undo.table, undo.key.len() as u8], out);
    extend_reserved(undo.key, out);
    extend_reserved(undo.value, out);
    put_u16_reserved(long, out);
}

/// What a record of that number takes back, if there is such a kind.
fn undone_of(kind: u8, value: &[u8]) -> Option<Undone>
    ensures some { IfSome result (λ undone. (kind ≡ kind_of undone) × HasValue undone value.now) }
    ensures none { IfNone result ((undone : UndoneValue) → kind ≡ kind_of undone → HasValue undone value.now → ⊥) }
{
    if kind == INSERTION && value.is_empty() {
        return Some(Undone::Insertion);
    }
    if kind == CHANGE {
        return Some(Undone::Change);
    }
    None
}

/// The record that stands at a place of some bytes, if one does.
pub fn read_record(bytes: &[u8], at: usize) -> Option<Undo<'_>>
    requires { at < 65536 }
    ensures some { IfSome result (λ undo. StandsAt bytes.now at undo.undone undo.table undo.key.now undo.value.now) }
    ensures none { IfNone result ((undone : UndoneValue) (table : ℕ) (key value : List ℕ) → StandsAt bytes.now at undone table key value → ⊥) }
{
    if bytes.len() < at + BESIDE {
        return None;
    }
    let long = usize::from(read_u16(bytes, at));
    let key_long = usize::from(bytes[at + 4]);
    if long < BESIDE + key_long || bytes.len() < at + long {
        return None;
    }
    if usize::from(read_u16(bytes, at + long - 2)) != long {
        return None;
    }
    let (key, rest) = bytes[at + 5..].split_at(key_long);
    let value = rest.split_at(long - BESIDE - key_long).0;
    let undone = undone_of(bytes[at + 2], value)?;
    Some(Undo {
        undone,
        table: bytes[at + 3],
        key,
        value,
    })
}
