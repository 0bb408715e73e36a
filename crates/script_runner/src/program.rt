//! The program's top call: from its words, a source and a disk to the text that it prints. Here the moment is picked from which
//! the clauses about crashes count: when the call began.

ghost use Rattle.std.specs.Prelude.{◌≡◌, ◌⊎◌, ◌↔◌, [], Some, IfSome, List, ℕ};
ghost use Rattle.store_api.specs.Causes.{Rose};
ghost use Rattle.store_api.specs.Past.{Now, Meanwhile};
ghost use Rattle.inno_db.specs.Database.{Database};
ghost use Rattle.law_crashes.specs.Files.{Files, LeavesFiles, IsAtRest};
ghost use Rattle.file_zero.specs.Making.{AreEmpty, AreNew, AreBeingMade, IsPageAlone};
ghost use Rattle.file_zero.specs.Looks.{Had};
ghost use Rattle.file_zero.specs.Reading.{HoldsDatabase};
ghost use Rattle.file_zero.specs.Refused.{HasTooMany, HasFewRows};
ghost use Rattle.durable_engine.specs.Whole.{HoldsAll};
ghost use Rattle.script.specs.Script.{IsScript, IsPlayable};
ghost use Rattle.script_generator.specs.Generated.{passed};
ghost use Rattle.run_outcome.specs.Words.{IsCommand, IsScriptCommand, IsInitCommand, IsDumpCommand, IsCheckCommand, IsGenCommand, IsLoadCommand};
ghost use Rattle.run_outcome.specs.Words.{NoInit, NoLoad, way_in};
ghost use Rattle.run_outcome.specs.Shown.{shown_text};
ghost use Rattle.run_outcome.specs.Generating.{generated_text, IsGenerateFault};
ghost use Rattle.run_outcome.specs.Faults.{allowed, fault_of, IsPlayedFault, IsPrinted};
ghost use Rattle.engine.specs.Opened.{IsOpened};
ghost use Rattle.script_runner.specs.Run.{IsRecorded, Prints, PrintsHistory, PlaysScript, KeepsDatabase, KeepsFiles, HasCause, script_of};
ghost use Rattle.script_runner.specs.Run.{IsBeforeDisk, SparesFiles, HasClosed, HasShown, Judges, Follows, Plays, IsMountFault, IsPlayFault};
ghost use Rattle.script_runner.specs.Run.{IsMakeFault, IsMadeUp, IsLoadFault};
ghost use Rattle.script_runner.specs.Commands.{DoesInit, DoesScript, DoesDump, DoesCheck, DoesGen, DoesLoad, DoesNothing};

use crate::ways::play_script;
use durable_engine::{DurableEngine, Root};
use engine::mount;
use file_zero::init;
use inno_types::Bytes;
use run_outcome::{
    Asked, Command, Fault, Outcome, Report, Shown, Way, command_of, fault_of, finish,
    generate_input, has_stopped, print_generated, print_shown, read_input, without_engine,
};
use script::Script;
use shared_lists::SharedLists;
use std::alloc::Global;
use std::marker::Brand;
use std::sync::Wait;
use std::thread::Threads;
use std::time::Clock as Timer;
use store_api::{Clock, Disk, Gate, Sink, Source};

/// Makes the files of a database; or reads the script, plays it on an engine over the files, and prints what the sessions were
/// answered; or prints the database as SQL, or what is counted in it; or prints a generated script, or plays it and prints what
/// it has done.
pub fn run<D, S, K, C, G, R>(
    rt: &R,
    alloc: Global,
    words: &[Bytes],
    script: &mut S,
    disk: D,
    out: &mut K,
    clock: &C,
    gate: &G,
) -> Outcome<D>
where
    D: Disk + Send,
    S: Source,
    K: Sink,
    C: Clock + Sync,
    G: Gate + Sync,
    R: Threads + Wait + Timer + Sync,
    // What is recorded is one legal history.
    ensures recorded { IsRecorded (D.past disk) (D.past result.disk) result.fault result.history.past }

    // What was printed is its text, unless the words ask for something else.
    ensures prints { PrintsHistory words.now
        → Prints Report.Transcript result.fault (K.taken out.old) (K.taken out.new) (K.faults out.old) (K.faults out.new) result.history }

    // The sessions of the history are the script's, and do what it says, in which a tick may stand where they play in turn.
    ensures follows { NoLoad words.now
        → IfSome (S.left script.old) (λ bytes. Follows (way_in words.now) bytes result.history.names result.history.past) }

    // Every command but `init` keeps the database that the files stand for, whatever a crash leaves of them.
    ensures keeps { NoInit words.now → KeepsDatabase (D.past disk) (D.past result.disk) result.fault result.history.past }

    // Each fault has its cause.
    ensures usage { (result.fault ≡ Fault.Usage) ↔ (IsCommand words.now → ⊥) }
    ensures caused { HasCause disk result.disk (D.past disk) (D.past result.disk)
        (S.faults script.old) (S.faults script.new) (K.faults out.old) (K.faults out.new) result.fault }

    // What each command does.
    ensures unknown { (IsCommand words.now → ⊥)
        → DoesNothing disk result.disk script.old script.new out.old out.new result.history.past }
    ensures init { IsInitCommand words.now → DoesInit words.now (D.past disk) (D.past result.disk) result.fault result.history.past }
    ensures script { IsScriptCommand words.now
        → DoesScript words.now (S.left script.old) (S.faults script.old) (S.faults script.new) (K.faults out.old) (K.faults out.new)
        (D.past disk) (D.past result.disk) result.fault result.status result.history }
    ensures dump { IsDumpCommand words.now
        → DoesDump words.now (K.taken out.old) (K.taken out.new) (D.past disk) (D.past result.disk) result.fault result.history.past }
    ensures check { IsCheckCommand words.now
        → DoesCheck words.now (K.taken out.old) (K.taken out.new) (D.past disk) (D.past result.disk) result.fault result.history.past }
    ensures generate { IsGenCommand words.now
        → DoesGen words.now disk result.disk script.old script.new (K.taken out.old) (K.taken out.new) result.fault result.history.past }
    ensures load { IsLoadCommand words.now
        → DoesLoad words.now script.old script.new (K.taken out.old) (K.taken out.new) (K.faults out.old) (K.faults out.new)
        (D.past disk) (D.past result.disk) result.fault result.history }
{
    match command_of(words) {
        Command::Unknown => untouched(alloc, disk, Fault::Usage),
        Command::Init => make(alloc, disk),
        Command::Dump => show(alloc, disk, Shown::Sql, out),
        Command::Check => show(alloc, disk, Shown::Counts, out),
        Command::Gen(asked) => make_up(alloc, disk, asked, out),
        Command::Load(asked) => { load::<D, K, C, G, R>(rt, alloc, asked, disk, out, clock, gate) }
        Command::Script(way) => {
            play_source::<D, S, K, C, G, R>(rt, alloc, script, disk, out, clock, gate, way)
        }
    }
}

/// Reads the script, plays it on an engine over the files, and prints what the sessions were answered.
fn play_source<D, S, K, C, G, R>(
    rt: &R,
    alloc: Global,
    script: &mut S,
    disk: D,
    out: &mut K,
    clock: &C,
    gate: &G,
    way: Way,
) -> Outcome<D>
where
    D: Disk + Send,
    S: Source,
    K: Sink,
    C: Clock + Sync,
    G: Gate + Sync,
    R: Threads + Wait + Timer + Sync,
    ensures recorded { IsRecorded (D.past disk) (D.past result.disk) result.fault result.history.past }
    ensures prints { Prints Report.Transcript result.fault (K.taken out.old) (K.taken out.new) (K.faults out.old) (K.faults out.new) result.history }
    ensures keeps { KeepsDatabase (D.past disk) (D.past result.disk) result.fault result.history.past }
    ensures durable { HasClosed result.fault → HoldsAll (D.past disk) (D.past result.disk) result.history.past }
    ensures follows { IfSome (S.left script.old) (λ bytes. Follows way bytes result.history.names result.history.past) }
    ensures played { result.fault ≡ Fault.Nothing
        → IfSome (S.left script.old) (λ bytes. Plays way bytes result.history.names result.history.past) }
    ensures usage { result.fault ≡ Fault.Usage → ⊥ }
    ensures caused { HasCause disk result.disk (D.past disk) (D.past result.disk)
        (S.faults script.old) (S.faults script.new) (K.faults out.old) (K.faults out.new) result.fault }
    ensures judged { IfSome (S.left script.old) (Judges way result.fault) }
    ensures too_large { (bytes : List ℕ) (rows most : ℕ) → S.left script.old ≡ Some bytes → IsScript (allowed way) bytes
        → result.fault ≡ Fault.Limit 5 rows most → (most ≡ 1000000) × Now (HasTooMany rows) (D.past result.disk) }
    ensures complete { (bytes : List ℕ) → S.left script.old ≡ Some bytes → IsScript (allowed way) bytes
        → (Rose (S.faults script.old) (S.faults script.new) → ⊥) → (Rose (K.faults out.old) (K.faults out.new) → ⊥)
        → (Rose (D.past disk).faults (D.past result.disk).faults → ⊥) → SparesFiles result.fault → (result.status ≡ 0) ⊎ (result.status ≡ 8) }
{
    match read_input(alloc, script, way) {
        Ok(script) => {
            let report = Report::Transcript;
            serve::<D, Brand, K, C, G, R>(rt, alloc, &script, disk, out, clock, gate, way, report)
        }
        Err(fault) => untouched(alloc, disk, fault),
    }
}

/// Plays a generated script on an engine over the files, each session on a thread, and prints what it has done.
fn load<D, K, C, G, R>(
    rt: &R,
    alloc: Global,
    asked: Asked,
    disk: D,
    out: &mut K,
    clock: &C,
    gate: &G,
) -> Outcome<D>
where
    D: Disk + Send,
    K: Sink,
    C: Clock + Sync,
    G: Gate + Sync,
    R: Threads + Wait + Timer + Sync,
    ensures recorded { IsRecorded (D.past disk) (D.past result.disk) result.fault result.history.past }
    ensures prints { Prints (Report.Totals asked) result.fault (K.taken out.old) (K.taken out.new) (K.faults out.old) (K.faults out.new) result.history }
    ensures keeps { KeepsDatabase (D.past disk) (D.past result.disk) result.fault result.history.past }
    ensures durable { HasClosed result.fault → HoldsAll (D.past disk) (D.past result.disk) result.history.past }
    ensures plays { PlaysScript (script_of asked) result.fault result.history }
    ensures usage { result.fault ≡ Fault.Usage → ⊥ }
    ensures script_read { result.fault ≡ Fault.ScriptRead → ⊥ }
    ensures output_write { result.fault ≡ Fault.OutputWrite → Rose (K.faults out.old) (K.faults out.new) }
    ensures disk_fault { result.fault ≡ Fault.DiskFault → Rose (D.past disk).faults (D.past result.disk).faults }
    ensures before_disk { IsBeforeDisk result.fault → result.disk ≡ disk }
    ensures causes { IsLoadFault (passed asked.sessions asked.transfers) (D.past disk) (D.past result.disk) result.fault }
{
    match generate_input(alloc, asked) {
        Ok(script) => {
            let way = Way::OnThreads;
            let report = Report::Totals(asked);
            serve::<D, Brand, K, C, G, R>(rt, alloc, &script, disk, out, clock, gate, way, report)
        }
        Err(fault) => untouched(alloc, disk, fault),
    }
}

/// Prints a generated script. No disk is met.
fn make_up<D: Disk, K: Sink>(alloc: Global, disk: D, asked: Asked, out: &mut K) -> Outcome<D>
    ensures names { result.history.names ≡ [] }
    ensures empty { result.history.past ≡ [] }
    ensures disk { result.disk ≡ disk }
    ensures left { LeavesFiles (D.past disk) (D.past result.disk) }
    ensures printed { IsPrinted result.fault (K.taken out.old) (K.taken out.new) (generated_text asked) }
    ensures limited { IsGenerateFault (passed asked.sessions asked.transfers) result.fault }
    ensures kind { IsMadeUp result.fault }
    ensures output_write { result.fault ≡ Fault.OutputWrite → Rose (K.faults out.old) (K.faults out.new) }
{
    let fault = print_generated(alloc, asked, out);
    untouched(alloc, disk, fault)
}

/// Ends a run that met no disk: its files stand for what they stood for.
fn untouched<D: Disk>(alloc: Global, disk: D, fault: Fault) -> Outcome<D>
    ensures fault { result.fault ≡ fault }
    ensures disk { result.disk ≡ disk }
    ensures names { result.history.names ≡ [] }
    ensures past { result.history.past ≡ [] }
    ensures left { LeavesFiles (D.past disk) (D.past disk) }
{
    without_engine(alloc, disk, fault)
}

/// Makes the files of a database. Nothing is printed of it.
#[tactic(auto, using(crate::proofs::Causing::fault_told))]
fn make<D: Disk>(alloc: Global, disk: D) -> Outcome<D>
    ensures names { result.history.names ≡ [] }
    ensures empty { result.history.past ≡ [] }
    ensures crash { Now AreEmpty (D.past disk) → Meanwhile AreBeingMade (D.past disk) (D.past result.disk) }
    ensures made { result.fault ≡ Fault.Nothing → Now IsPageAlone (D.past result.disk) }
    ensures new { result.fault ≡ Fault.Nothing → Now IsAtRest (D.past disk) → Now AreNew (D.past result.disk) }
    ensures causes { IsMakeFault (D.past disk) (D.past result.disk) result.fault }
{
    let mut disk = disk;
    match init(&mut disk) {
        Ok(()) => without_engine(alloc, disk, Fault::Nothing),
        Err(bad) => without_engine(alloc, disk, fault_of(bad)),
    }
}

/// Prints what is to be shown of the database that the files stand for. No session runs, so there is no history.
fn show<D: Disk, K: Sink>(alloc: Global, disk: D, shown: Shown, out: &mut K) -> Outcome<D>
    ensures names { result.history.names ≡ [] }
    ensures empty { result.history.past ≡ [] }
    ensures printed { (db : Database) → Files (D.past disk) (D.past result.disk) db
        → IsPrinted result.fault (K.taken out.old) (K.taken out.new) (shown_text shown db) }
    ensures held { HasShown result.fault → (db : Database) × Had (HoldsDatabase db) (D.past disk) (D.past result.disk) × HasFewRows db
        × IsPrinted result.fault (K.taken out.old) (K.taken out.new) (shown_text shown db) }
    ensures quiet { result.fault ≡ Fault.DiskFault → K.taken out.new ≡ K.taken out.old }
    ensures crash { LeavesFiles (D.past disk) (D.past result.disk) }
    ensures output_write { result.fault ≡ Fault.OutputWrite → Rose (K.faults out.old) (K.faults out.new) }
    ensures causes { IsMountFault (D.past disk) (D.past result.disk) result.fault }
{
    let mut disk = disk;
    match file_zero::mount(alloc, &mut disk) {
        Ok(files) => {
            let fault = print_shown(alloc, &files.db, shown, out);
            drop(files);
            without_engine(alloc, disk, fault)
        }
        Err(bad) => without_engine(alloc, disk, fault_of(bad)),
    }
}

/// Plays a script on an engine over the files of the disk, and prints what is asked for of the history.
#[tactic(auto, using(crate::proofs::Causing::fault_told))]
fn serve<D, B, K, C, G, R>(
    rt: &R,
    alloc: Global,
    script: &Script,
    disk: D,
    out: &mut K,
    clock: &C,
    gate: &G,
    way: Way,
    report: Report,
) -> Outcome<D>
where
    D: Disk + Send,
    B: Root + Send,
    K: Sink,
    C: Clock + Sync,
    G: Gate + Sync,
    R: Threads + Wait + Timer + Sync,
    requires root { D.past disk ≡ B.root }
    requires playable { IsPlayable (allowed way) script.now }
    ensures recorded { IsRecorded (D.past disk) (D.past result.disk) result.fault result.history.past }
    ensures prints { Prints report result.fault (K.taken out.old) (K.taken out.new) (K.faults out.old) (K.faults out.new) result.history }
    ensures crash { KeepsFiles (D.past disk) (D.past result.disk) result.history.past }
    ensures durable { HasClosed result.fault → HoldsAll (D.past disk) (D.past result.disk) result.history.past }
    ensures plays { PlaysScript script.now result.fault result.history }
    ensures output_write { result.fault ≡ Fault.OutputWrite → Rose (K.faults out.old) (K.faults out.new) }
    ensures causes { IsPlayFault (D.past disk) (D.past result.disk) result.fault }
{
    match mount::<D, B>(alloc, disk) {
        Ok(engine) => play_on(rt, alloc, engine, script, out, clock, gate, way, report),
        Err((disk, bad)) => without_engine(alloc, disk, fault_of(bad)),
    }
}

/// Plays a script on an engine that nobody has joined, closes it, and prints what is asked for of the history.
fn play_on<D, B, L, K, C, G, R>(
    rt: &R,
    alloc: Global,
    engine: DurableEngine<D, B, L>,
    script: &Script,
    out: &mut K,
    clock: &C,
    gate: &G,
    way: Way,
    report: Report,
) -> Outcome<D>
where
    D: Disk + Send,
    B: Root + Send,
    L: SharedLists + Send,
    K: Sink,
    C: Clock + Sync,
    G: Gate + Sync,
    R: Threads + Wait + Timer + Sync,
    requires playable { IsPlayable (allowed way) script.now }
    requires opened { IsOpened engine }
    ensures recorded { IsRecorded B.root (D.past result.disk) result.fault result.history.past }
    ensures prints { Prints report result.fault (K.taken out.old) (K.taken out.new) (K.faults out.old) (K.faults out.new) result.history }
    ensures crash { KeepsFiles B.root (D.past result.disk) result.history.past }
    ensures durable { HasClosed result.fault → HoldsAll B.root (D.past result.disk) result.history.past }
    ensures plays { PlaysScript script.now result.fault result.history }
    ensures output_write { result.fault ≡ Fault.OutputWrite → Rose (K.faults out.old) (K.faults out.new) }
    ensures disk_fault { result.fault ≡ Fault.DiskFault → Rose B.root.faults (D.past result.disk).faults }
    ensures causes { IsPlayedFault result.fault }
{
    let (engine, sufficed) = play_script(rt, alloc, engine, script, clock, gate, way);
    let (disk, history, ended) = engine.close();
    let stopped = has_stopped(&history);
    let failed = stopped || ended.is_err();
    finish(alloc, disk, history, failed, sufficed, report, out)
}
