//! Puts a row as the newest version of its place, or removes the one that is there, which leaves a marked version: its
//! clustered record, the undo record that comes with it, and the entry of the history. The entries of secondary keys come
//! after.

ghost use Rattle.std.specs.Prelude.{◌≡◌, ℕ, List, IfOk, slice_get, Some};
ghost use Rattle.inno_types.specs.declared.value.Schema.{Schema};
ghost use Rattle.row_codec.specs.Rows.{version_code};
ghost use Rattle.world.specs.State.{WorldState, Session, Work, HasWork};
ghost use Rattle.law_stored_rows.specs.Edits.{clustered_index};
ghost use Rattle.law_stored_rows.specs.Records.{row_shown};
ghost use Rattle.row_changes.specs.Edits.{version_by, IsPut};
ghost use Rattle.row_changes.specs.Records.{IsChangingRecord, ChangesRecord, MayMake, when_found, row_found, undo_of_former, id_for, IsMissing};
ghost use Rattle.row_changes.specs.Awaited.{AwaitsNoMore};
ghost use Rattle.row_changes.specs.InPlace.{record_reached};
ghost use Rattle.row_changes.specs.RecordReached.{Went};

use crate::coding::{coded, decoded, undo_of_former, undo_of_new, writer_of};
use crate::entering::enter;
use crate::row_edit::RowEdit;
use inno_db::index_number;
use inno_types::{Bytes, Row, Value};
use std::alloc::Global;
use std::mem;
use store_api::{MOST_BYTES_OF_VALUE, Move, NoMemory, Stepped, Undo, Version};
use world::{EngineWorld, World};

/// The longest undo record: seven bytes, a key and a value.
const MOST_UNDO_BYTES: u16 = 1098;

/// What is done next.
#[derive(Drop)]
pub enum RecordStage {
    /// Take room for the history's entry.
    Enter,
    /// Take room for the undo record.
    Room,
    /// See whether the place has a record, and insert it where it has none.
    Find,
    /// It has this one, with these bytes.
    Replace { before: Version, bytes: Bytes },
}

/// A clustered record that is being changed.
#[derive(Drop)]
pub struct RecordChange {
    pub table: u8,
    pub edit: RowEdit,
    pub key: Bytes,
    pub stage: RecordStage,
}

impl RecordChange {
    /// One step. It asks that nobody else changes this row's record between the steps. The last one tells the row that was there
    /// before, for who reads the newest rows. `End` hinders it where a row that is to be removed isn't there.
    pub fn step<W: EngineWorld>(
        &mut self,
        alloc: Global,
        world: &mut W,
        s: u32,
    ) -> Stepped<Option<Row>, Move>
        requires { IsChangingRecord s (W.state world.old) self.old }
        ensures changes { ChangesRecord s (W.state world.old) (W.state world.new) self.old (record_reached self.new result) }
        ensures awaits { AwaitsNoMore (W.state world.old) (W.state world.new) }
    {
        match &self.stage {
            RecordStage::Enter => self.enter(world, s),
            RecordStage::Room => self.make_room(world, s),
            RecordStage::Find => self.find(alloc, world, s),
            RecordStage::Replace { .. } => self.replace(alloc, world, s),
        }
    }

    fn index(&self) -> u32
        ensures { result ≡ clustered_index self.now.table }
    {
        index_number(self.table, 0)
    }

    fn then(&mut self, stage: RecordStage) -> Stepped<Option<Row>, Move>
        ensures { record_reached self.new result ≡ Went (record self.old { stage = stage }) }
    {
        self.stage = stage;
        Stepped::Went
    }

    fn enter<W: World>(&mut self, world: &mut W, s: u32) -> Stepped<Option<Row>, Move>
        requires changing { IsChangingRecord s (W.state world.old) self.old }
        requires stage { self.old.stage ≡ RecordStage.Enter }
        ensures changes { ChangesRecord s (W.state world.old) (W.state world.new) self.old (record_reached self.new result) }
        ensures awaits { AwaitsNoMore (W.state world.old) (W.state world.new) }
    {
        match world.event_room(s) {
            Ok(()) => self.then(RecordStage::Room),
            Err(NoMemory) => Stepped::Hindered(Move::NoMemory),
        }
    }

    fn make_room<W: World>(&mut self, world: &mut W, s: u32) -> Stepped<Option<Row>, Move>
        requires changing { IsChangingRecord s (W.state world.old) self.old }
        requires stage { self.old.stage ≡ RecordStage.Room }
        ensures changes { ChangesRecord s (W.state world.old) (W.state world.new) self.old (record_reached self.new result) }
        ensures awaits { AwaitsNoMore (W.state world.old) (W.state world.new) }
    {
        match world.undo_room(s, MOST_UNDO_BYTES) {
            Move::Done => self.then(RecordStage::Find),
            hindrance => Stepped::Hindered(hindrance),
        }
    }

    /// A row that isn't there is inserted in the same step, by a second call, which the world doesn't put off either.
    fn find<W: EngineWorld>(
        &mut self,
        alloc: Global,
        world: &mut W,
        s: u32,
    ) -> Stepped<Option<Row>, Move>
        requires changing { IsChangingRecord s (W.state world.old) self.old }
        requires stage { self.old.stage ≡ RecordStage.Find }
        ensures changes { ChangesRecord s (W.state world.old) (W.state world.new) self.old (record_reached self.new result) }
        ensures awaits { AwaitsNoMore (W.state world.old) (W.state world.new) }
    {
        let Ok(mut value) = Vec::with_capacity(alloc, MOST_BYTES_OF_VALUE) else {
            return Stepped::Hindered(Move::NoMemory);
        };
        match world.fetch(self.index(), s, &self.key, &mut value) {
            Move::Done => match decoded(alloc, world, self.table, &self.key, &value) {
                Ok(before) => self.found(before, Bytes::from_vec(value)),
                Err(why) => Stepped::Hindered(why),
            },
            Move::End => self.missed(alloc, world, s),
            hindrance => Stepped::Hindered(hindrance),
        }
    }

    /// The place has no record. It is inserted in the step in which that was seen, so nothing is known of the key between steps.
    fn missed<W: World>(
        &mut self,
        alloc: Global,
        world: &mut W,
        s: u32,
    ) -> Stepped<Option<Row>, Move>
        requires missing { (start : WorldState) × IsMissing s self.old start (W.state world.old) }
        ensures changes { (start : WorldState) → IsMissing s self.old start (W.state world.old) → ChangesRecord s start (W.state world.new) self.old (record_reached self.new result) }
        ensures awaits { AwaitsNoMore (W.state world.old) (W.state world.new) }
    {
        match &self.edit {
            RowEdit::Put(_) => self.insert(alloc, world, s),
            RowEdit::Remove(_) => Stepped::Hindered(Move::End),
        }
    }

    fn found(&mut self, before: Version, bytes: Bytes) -> Stepped<Option<Row>, Move>
        ensures { record_reached self.new result ≡ when_found self.old.edit before bytes self.old }
    {
        match &self.edit {
            RowEdit::Remove(_) if before.marked => Stepped::Hindered(Move::End),
            RowEdit::Put(_) | RowEdit::Remove(_) => self.then(RecordStage::Replace {
                before,
                bytes,
            }),
        }
    }

    fn insert<W: World>(
        &mut self,
        alloc: Global,
        world: &mut W,
        s: u32,
    ) -> Stepped<Option<Row>, Move>
        requires missing { (start : WorldState) × IsMissing s self.old start (W.state world.old) }
        requires put { IsPut self.old.edit }
        ensures changes { (start : WorldState) → IsMissing s self.old start (W.state world.old) → ChangesRecord s start (W.state world.new) self.old (record_reached self.new result) }
        ensures awaits { AwaitsNoMore (W.state world.old) (W.state world.new) }
    {
        let Ok(value) = self.value(alloc, world, s, 0) else {
            return Stepped::Hindered(Move::NoMemory);
        };
        let Ok(undo) = undo_of_new(alloc, self.table, &self.key) else {
            return Stepped::Hindered(Move::NoMemory);
        };
        let answer = world.insert(self.index(), s, &self.key, &value, Some(&undo));
        drop(undo);
        match answer {
            Move::Done => {
                enter(world, s, self.table, self.take_edit());
                Stepped::Done(None)
            }
            hindrance => Stepped::Hindered(hindrance),
        }
    }

    fn replace<W: World>(
        &mut self,
        alloc: Global,
        world: &mut W,
        s: u32,
    ) -> Stepped<Option<Row>, Move>
        requires changing { IsChangingRecord s (W.state world.old) self.old }
        requires stage { (before : Version) × (bytes : List ℕ) × (self.old.stage ≡ RecordStage.Replace before bytes) }
        ensures changes { ChangesRecord s (W.state world.old) (W.state world.new) self.old (record_reached self.new result) }
        ensures awaits { AwaitsNoMore (W.state world.old) (W.state world.new) }
    {
        let pointer = world.next_pointer(s);
        let Ok(value) = self.value(alloc, world, s, pointer) else {
            return Stepped::Hindered(Move::NoMemory);
        };
        let Ok((found, undo)) = former(self.table, &self.key, &self.stage) else {
            return Stepped::Hindered(Move::NoMemory);
        };
        let answer = world.replace(self.index(), s, &self.key, &value, Some(&undo));
        drop(undo);
        match answer {
            Move::Done => {
                enter(world, s, self.table, self.take_edit());
                Stepped::Done(found)
            }
            hindrance => Stepped::Hindered(hindrance),
        }
    }

    /// The row that the history is told of. The record stands, and nothing more is done with the edit.
    fn take_edit(&mut self) -> RowEdit
        ensures { result ≡ self.old.edit }
    {
        mem::replace(&mut self.edit, RowEdit::Remove(Value::Null))
    }

    /// The value of the record of the version that becomes the newest.
    fn value<W: World>(
        &self,
        alloc: Global,
        world: &W,
        s: u32,
        pointer: u64,
    ) -> Result<Bytes, NoMemory>
        requires changing { IsChangingRecord s (W.state world.now) self.now }
        requires makes { MayMake self.now.edit self.now.stage }
        ensures { IfOk result (λ bytes. (schema : Schema) (session : Session) (work : Work)
            → slice_get (W.state world.now).schemas self.now.table ≡ Some schema → HasWork s session work (W.state world.now)
            → bytes ≡ version_code schema (version_by self.now.edit (row_found self.now.stage) (id_for work.id (W.state world.now).txns.next) pointer)) }
    {
        let version = self.version(writer_of(world, s), pointer)?;
        coded(alloc, world, self.table, &version)
    }

    /// The version that becomes the newest. What is removed was found.
    fn version(&self, writer: u64, pointer: u64) -> Result<Version, NoMemory>
        requires { MayMake self.now.edit self.now.stage }
        ensures { IfOk result (λ version. version ≡ version_by self.now.edit (row_found self.now.stage) writer pointer) }
    {
        let (row, marked) = match (&self.edit, &self.stage) {
            (RowEdit::Put(row), _) => (row, false),
            (RowEdit::Remove(_), RecordStage::Replace { before, .. }) => (&before.row, true),
            (RowEdit::Remove(_), RecordStage::Enter | RecordStage::Room | RecordStage::Find) =>
                unreachable!(),
        };
        Ok(Version {
            row: row.copied()?,
            writer,
            pointer,
            marked,
        })
    }
}

/// The row that the former record shows, and the undo record that keeps it.
fn former(table: u8, key: &Bytes, stage: &RecordStage) -> Result<(Option<Row>, Undo), NoMemory>
    requires { (before : Version) × (bytes : List ℕ) × (stage.now ≡ RecordStage.Replace before bytes) }
    ensures { IfOk result (λ r. (before : Version) (bytes : List ℕ) → stage.now ≡ RecordStage.Replace before bytes → (r.0 ≡ row_shown before.marked before.row) × (r.1 ≡ undo_of_former table key.now bytes)) }
{
    match stage {
        RecordStage::Replace { before, bytes } => Ok((
            shown_row(before)?,
            undo_of_former(table, key, bytes)?,
        )),
        RecordStage::Enter | RecordStage::Room | RecordStage::Find => unreachable!(),
    }
}

/// The row that readers find in a version.
fn shown_row(version: &Version) -> Result<Option<Row>, NoMemory>
    ensures { IfOk result (λ row. row ≡ row_shown version.now.marked version.now.row) }
{
    if version.marked {
        return Ok(None);
    }
    Ok(Some(version.row.copied()?))
}
