//! How an engine is opened: on the database that the files of its disk stand for, over a world in memory.
//! Tests alone open sessions in memory here, without a disk and a log.

ghost use Rattle.std.specs.Prelude.{◌≡◌, ◌<◌, ◌∷◌, [], ℕ, All, IfOk, IfErr};
ghost use Rattle.inno_db.specs.Database.{Database};
ghost use Rattle.inno_db.specs.Keyed.{IsKeyed};
ghost use Rattle.inno_model.specs.declared.event.Event.TheVariants.{Opened};
ghost use Rattle.store_api.specs.Past.{Past};
ghost use Rattle.shared_lists.specs.Tasks.{Idle as TaskIdle};
ghost use Rattle.shared_lists.specs.State.{task_of};
ghost use Rattle.law_crashes.specs.Files.{LeavesFiles};
ghost use Rattle.law_crashes.specs.Since.{IsMounted};
ghost use Rattle.file_zero.specs.Looks.{Had};
ghost use Rattle.file_zero.specs.Reading.{HoldsDatabase};
ghost use Rattle.file_zero.specs.Refused.{IsRefused, HasFewRows};
ghost use Rattle.commit_log.specs.Room.{IsLoggable};
ghost use Rattle.commit_log.specs.View.{IsLogging};
ghost use Rattle.engine.specs.Laid.{IsTooLarge};
ghost use Rattle.session_engine.specs.Calls.{AreFirst};
ghost use Rattle.engine.specs.Opened.{IsOpened};

use crate::{LayBad, OpenBad, Opening, lay};
use commit_log::CommitLog;
use durable_engine::{DurableEngine, Root};
use file_zero::Mounted;
use inno_db::Db;
use list_world::ListWorld;
use session_engine::SessionEngine;
use sql_lists::SqlLists;
use std::alloc::Global;
use store_api::{Disk, MountBad, NoMemory};
use world_lists::WorldLists;

/// An engine over a disk, whose lists are kept in a world in memory.
pub type Engine<D, R> = DurableEngine<D, R, WorldLists<ListWorld>>;

/// Sessions in memory, without a disk and a log.
pub type Sessions = SessionEngine<WorldLists<ListWorld>>;

/// Opens an engine on the database that the files of a disk stand for. A refusal hands the disk back; whatever a crash leaves
/// then stands for the same database as before. Files that no engine of this version has written may be answered as out of
/// memory.
pub fn mount<D: Disk, R: Root>(alloc: Global, disk: D) -> Result<Engine<D, R>, (D, MountBad)>
    requires root { D.past disk ≡ R.root }
    ensures ok { IfOk result IsOpened }
    // The files held the database that it opens on: page 0 is a header of version 0, and the log's groups make it. Its rows are not
    // too many, and each stands at its key.
    ensures held { IfOk result (λ e. (db : Database) × (e.past ≡ Opened db ∷ []) × Had (HoldsDatabase db) (D.past disk) (D.past e.disk)
        × HasFewRows db × IsKeyed db) }
    ensures refused { IfErr result (λ e. IsRefused (D.past disk) (D.past e.0) e.1) }
    ensures crash { IfErr result (λ e. LeavesFiles (D.past disk) (D.past e.0)) }
{
    let mut disk = disk;
    let mounted = match file_zero::mount(alloc, &mut disk) {
        Ok(mounted) => mounted,
        Err(why) => return Err((disk, why)),
    };
    match parts_over(alloc, mounted) {
        Ok((lists, log)) => Ok(DurableEngine::new(alloc, disk, lists, log)),
        Err(NoMemory) => Err((disk, MountBad::NoMemory)),
    }
}

/// Opens sessions on a database that was laid down.
pub fn sessions_over(alloc: Global, opening: Opening) -> Result<Sessions, OpenBad>
    ensures first { IfOk result (λ sessions. AreFirst opening sessions.lists) }
    ensures nobody { IfOk result (λ sessions. sessions.seats ≡ []) }
    ensures large { IfErr result (IsTooLarge opening) }
{
    Ok(SessionEngine::new(alloc, lists_over(alloc, opening)?))
}

/// The lists and the log of an engine that goes on from a mount.
fn parts_over(
    alloc: Global,
    mounted: Mounted,
) -> Result<(SqlLists<WorldLists<ListWorld>>, CommitLog), NoMemory>
    requires keyed { IsKeyed mounted.db }
    requires few { HasFewRows mounted.db }
    requires some { 0 < mounted.next }
    ensures first { IfOk result (λ parts. AreFirst mounted.db parts.0) }
    ensures idle { IfOk result (λ parts. (s : ℕ) → task_of s parts.0 ≡ TaskIdle) }
    ensures loggable { IfOk result (λ parts. All IsLoggable mounted.db.schemas) }
    ensures logging { IfOk result (λ parts. (root now : Past) → IsMounted root now mounted.run mounted.block mounted.next mounted.db
        → IsLogging root now (Opened mounted.db ∷ []) parts.1) }
{
    let Mounted {
        db,
        run,
        block,
        next,
    } = mounted;
    // The log comes first: where the other finds no memory, this one is let go, and not the whole world.
    let log = CommitLog::new(alloc, run, block, next)?;
    let lists = lists_on(alloc, &db)?;
    Ok((lists, log))
}

/// The lists of a database that was read from files.
fn lists_on(alloc: Global, db: &Db) -> Result<SqlLists<WorldLists<ListWorld>>, NoMemory>
    requires keyed { IsKeyed db.now }
    requires few { HasFewRows db.now }
    ensures first { IfOk result (AreFirst db.now) }
    ensures idle { IfOk result (λ lists. (s : ℕ) → task_of s lists ≡ TaskIdle) }
    ensures loggable { IfOk result (λ lists. All IsLoggable db.now.schemas) }
{
    match lay(alloc, db) {
        Ok(opening) => lists_of_few(alloc, opening),
        Err(LayBad::Unfit | LayBad::NoMemory) => Err(NoMemory),
    }
}

/// The lists of a database whose rows are not too many.
fn lists_of_few(
    alloc: Global,
    opening: Opening,
) -> Result<SqlLists<WorldLists<ListWorld>>, NoMemory>
    requires few { HasFewRows opening }
    ensures first { IfOk result (AreFirst opening) }
    ensures idle { IfOk result (λ lists. (s : ℕ) → task_of s lists ≡ TaskIdle) }
{
    match lists_over(alloc, opening) {
        Ok(lists) => Ok(lists),
        Err(OpenBad::TooManyRows { .. }) => unreachable!(),
        Err(OpenBad::NoMemory) => Err(NoMemory),
    }
}

/// The lists of a database that was laid down, over a world in memory.
fn lists_over(alloc: Global, opening: Opening) -> Result<SqlLists<WorldLists<ListWorld>>, OpenBad>
    ensures first { IfOk result (AreFirst opening) }
    ensures idle { IfOk result (λ lists. (s : ℕ) → task_of s lists ≡ TaskIdle) }
    ensures large { IfErr result (IsTooLarge opening) }
{
    let world = opening.finish()?;
    match WorldLists::new(alloc, world) {
        Ok(lists) => Ok(SqlLists::new(alloc, lists)),
        Err(_) => Err(OpenBad::NoMemory),
    }
}
