//! The whole change of a row: its record and the history's entry first, and then the keys of its table.
//! `world_lists` makes one for each change of a row, and drives it; a session's desk keeps it between its steps.

ghost use Rattle.std.specs.Prelude.{◌≡◌, None, IfOk};
ghost use Rattle.row_versions.specs.Chains.{Chains};
ghost use Rattle.law_stored_rows.specs.Tables.{Said};
ghost use Rattle.row_changes.specs.Awaited.{AwaitsNoMore};
ghost use Rattle.row_changes.specs.InPlace.{reached_at};
ghost use Rattle.row_changes.specs.Rows.{IsAtRow, MakesRow, row_after};

use crate::keys_change::KeysChange;
use crate::record_change::{RecordChange, RecordStage};
use crate::row_edit::RowEdit;
use inno_types::{Bytes, Row};
use std::alloc::Global;
use std::mem;
use store_api::{Move, NoMemory, Stepped};
use world::EngineWorld;

/// A change of a row.
#[derive(Drop)]
pub enum RowChange {
    /// The record comes first. The keys will want its key, and the row that readers find afterwards.
    Record(RecordChange, Bytes, Option<Row>),
    Keys(KeysChange),
}

impl RowChange {
    /// A change that has done nothing yet.
    pub fn new(table: u8, edit: RowEdit, key: Bytes) -> Result<RowChange, NoMemory>
        ensures { IfOk result (λ change. change ≡ RowChange.Record (record { table = table; edit = edit; key = key; stage = RecordStage.Enter }) key (row_after edit)) }
    {
        let after = row_after(&edit)?;
        let copy = key.copied()?;
        let change = RecordChange {
            table,
            edit,
            key,
            stage: RecordStage::Enter,
        };
        Ok(RowChange::Record(change, copy, after))
    }

    /// One step. Between the steps others may change other rows, and what keys say of those. It asks that nobody else changes
    /// this row.
    pub fn advance<W: EngineWorld>(
        &mut self,
        alloc: Global,
        world: &mut W,
        s: u32,
    ) -> Stepped<(), Move>
        requires { (chains : Chains) × (beside : Said) × IsAtRow s chains beside (W.state world.old) self.old }
        ensures makes { (chains : Chains) (beside : Said) → IsAtRow s chains beside (W.state world.old) self.old → MakesRow s chains beside (W.state world.old) (W.state world.new) self.old (reached_at self.new result) }
        ensures awaits { AwaitsNoMore (W.state world.old) (W.state world.new) }
    {
        match self {
            RowChange::Record(change, key, after) => {
                let table = change.table;
                match change.step(alloc, world, s) {
                    Stepped::Went => Stepped::Went,
                    Stepped::Done(before) => {
                        let next = keys_of(alloc, table, key, before, after);
                        drop(mem::replace(self, RowChange::Keys(next)));
                        Stepped::Went
                    }
                    Stepped::Hindered(why) => Stepped::Hindered(why),
                }
            }
            RowChange::Keys(change) => change.advance(alloc, world, s),
        }
    }
}

/// The row that readers find afterwards.
fn row_after(edit: &RowEdit) -> Result<Option<Row>, NoMemory>
    ensures { IfOk result (λ row. row ≡ row_after edit.now) }
{
    match edit {
        RowEdit::Put(row) => Ok(Some(row.copied()?)),
        RowEdit::Remove(_) => Ok(None),
    }
}

/// The keys come next, which take over the key and the row.
fn keys_of(
    alloc: Global,
    table: u8,
    key: &mut Bytes,
    before: Option<Row>,
    after: &mut Option<Row>,
) -> KeysChange
    ensures { result ≡ record { table = table; key = key.old; before = before; after = after.old; which = 0; put = None } }
{
    KeysChange {
        table,
        key: mem::replace(key, Bytes::new(alloc)),
        before,
        after: mem::replace(after, None),
        which: 0,
        put: None,
    }
}
