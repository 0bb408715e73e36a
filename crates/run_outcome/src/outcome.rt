//! What a run answers, and the parts of a run that meet no engine.
//! `script_runner` puts its commands together from these; whatever is printed goes to the sink by `print_bytes`.

ghost use Rattle.std.specs.Prelude.{◌≡◌, ◌⊎◌, [], IfOk, IfErr, IfSome, IsTrue, false};
ghost use Rattle.std.specs.List.{list_any};
ghost use Rattle.store_api.specs.Causes.{Rose};
ghost use Rattle.sql_history.specs.Counts as counts;
ghost use Rattle.script.specs.Script.{Spells, IsPlayable};
ghost use Rattle.run_outcome.specs.Replay.{OpensOnce};
ghost use Rattle.run_outcome.specs.Reports.{IsReported, IsReportedWhole};
ghost use Rattle.run_outcome.specs.Faults.{allowed, status_of, fault_of, told, IsInputFault, IsOutputFault, IsPlayedFault, IsPrinted, Refuses, answers_no_memory, stops};

use crate::generated::script_fault;
use crate::input::{ReadBad, read_all};
use crate::output::write_all;
use crate::reports::{Report, print_report};
use crate::words::Way;
use inno_model::{Event, History};
use inno_types::Reply;
use script::{Directives, Limited, Script, read_script};
use std::alloc::Global;
use store_api::{Failed, MOST_ROWS, MountBad, Sink, Source};

/// Why a run is no full success.
#[derive(Clone, Copy, Debug, PartialEq, Eq)]
pub enum Fault {
    Nothing,
    Usage,
    ScriptBad { line: u32 },
    ScriptRead,
    OutputWrite,
    DiskFault,
    File(MountBad),
    Limit { what: u8, found: u64, most: u64 },
    /// None was found for the script, for the files or for what was to be printed: nothing is printed.
    NoMemory,
    /// None was found while the script was played. What its sessions were answered is printed.
    LackedMemory,
}

impl Fault {
    /// The number with which the program ends.
    fn status(self) -> u8
        ensures { result ≡ status_of self }
    {
        match self {
            Fault::Nothing => 0,
            Fault::Usage => 1,
            Fault::ScriptBad { .. } => 2,
            Fault::ScriptRead => 3,
            Fault::OutputWrite => 4,
            Fault::DiskFault => 5,
            Fault::File(_) => 6,
            Fault::Limit { .. } => 7,
            Fault::NoMemory | Fault::LackedMemory => 8,
        }
    }
}

/// What a run leaves. Its history is empty where no engine was mounted.
#[derive(Drop)]
pub struct Outcome<D> {
    pub status: u8,
    pub fault: Fault,
    pub history: History,
    pub disk: D,
    ghost told: { status ≡ status_of fault },
}

/// The outcome of a run that mounted no engine.
pub fn without_engine<D>(alloc: Global, disk: D, fault: Fault) -> Outcome<D>
    ensures fault { result.fault ≡ fault }
    ensures disk { result.disk ≡ disk }
    ensures names { result.history.names ≡ [] }
    ensures past { result.history.past ≡ [] }
{
    Outcome {
        status: fault.status(),
        fault,
        history: History::new(alloc),
        disk,
    }
}

/// Which directives a script may have that is played so.
fn allowed(way: Way) -> Directives
    ensures { result ≡ allowed way }
{
    match way {
        Way::InTurn => Directives {
            signals: true,
            ticks: true,
        },
        Way::OnThreads => Directives {
            signals: true,
            ticks: false,
        },
    }
}

/// Reads the script, all of the source, as one that is to be played so.
pub fn read_input<S: Source>(alloc: Global, source: &mut S, way: Way) -> Result<Script, Fault>
    ensures script { IfOk result (λ script. IfSome (S.left source.old) (λ bytes. Spells (allowed way) bytes script)) }
    ensures playable { IfOk result (IsPlayable (allowed way)) }
    ensures read { result ≡ Err Fault.ScriptRead → Rose (S.faults source.old) (S.faults source.new) }
    ensures judged { IfErr result (λ fault. IfSome (S.left source.old) (Refuses way fault)) }
    ensures causes { IfErr result IsInputFault }
{
    let bytes = match read_all(alloc, source) {
        Ok(bytes) => bytes,
        Err(ReadBad::Failed) => return Err(Fault::ScriptRead),
        Err(ReadBad::NoMemory) => return Err(Fault::NoMemory),
    };
    match read_script(alloc, bytes.as_slice(), allowed(way)) {
        Ok(script) => Ok(script),
        Err(bad) => Err(script_fault(bad)),
    }
}

/// The fault of files that are refused.
pub fn fault_of(bad: MountBad) -> Fault
    ensures { result ≡ fault_of bad }
{
    match bad {
        MountBad::Disk => Fault::DiskFault,
        MountBad::NoMemory => Fault::NoMemory,
        MountBad::TooLarge { rows } => Fault::Limit {
            what: Limited::Rows as u8,
            found: rows,
            most: MOST_ROWS,
        },
        MountBad::NotInitialised
        | MountBad::Version { .. }
        | MountBad::Damaged { .. }
        | MountBad::Malformed { .. }
        | MountBad::NotEmpty { .. } => Fault::File(bad),
    }
}

/// Prints what an engine leaves. A fault of the disk is told before one of the sink; want of memory before is told where
/// nothing else is.
pub fn finish<D, K: Sink>(
    alloc: Global,
    disk: D,
    history: History,
    failed: bool,
    sufficed: bool,
    report: Report,
    out: &mut K,
) -> Outcome<D>
    requires { OpensOnce history.past }
    ensures disk { result.disk ≡ disk }
    ensures history { result.history ≡ history }
    ensures printed { IsReported report result.fault (K.taken out.old) (K.taken out.new) history }
    ensures whole { result.fault ≡ Fault.DiskFault → (Rose (K.faults out.old) (K.faults out.new) → ⊥)
        → IsReportedWhole report (K.taken out.old) (K.taken out.new) history }
    ensures failed { result.fault ≡ Fault.DiskFault → IsTrue failed }
    ensures tells { IsTrue failed → (result.fault ≡ Fault.DiskFault) ⊎ (result.fault ≡ Fault.NoMemory) }
    ensures sufficed { result.fault ≡ Fault.Nothing → IsTrue sufficed }
    ensures served { result.fault ≡ Fault.Nothing → failed ≡ false }
    ensures replied { result.fault ≡ Fault.Nothing → list_any answers_no_memory history.past ≡ false }
    ensures output_write { result.fault ≡ Fault.OutputWrite → Rose (K.faults out.old) (K.faults out.new) }
    ensures causes { IsPlayedFault result.fault }
{
    let printed = print_report(alloc, &history, report, out);
    let replied = !has_lacked_memory(&history);
    let fault = told_fault(failed, sufficed && replied, printed);
    Outcome {
        status: fault.status(),
        fault,
        history,
        disk,
    }
}

/// Whether the history says that the engine stopped.
pub fn has_stopped(history: &History) -> bool
    ensures { result ≡ counts.has_stopped history.now.past }
{
    let events = history.events();
    any_stops(events)
}

fn any_stops(events: &[Event]) -> bool
    ensures { result ≡ list_any stops events.now }
{
    events.iter().any(|event| stops(event))
}

fn stops(event: &Event) -> bool
    ensures { result ≡ stops event.now }
{
    matches!(event, Event::Stopped { .. })
}

/// Whether a reply of the history says that memory was lacking.
fn has_lacked_memory(history: &History) -> bool
    ensures { result ≡ list_any answers_no_memory history.now.past }
{
    let events = history.events();
    any_lacks_memory(events)
}

fn any_lacks_memory(events: &[Event]) -> bool
    ensures { result ≡ list_any answers_no_memory events.now }
{
    events.iter().any(|event| answers_no_memory(event))
}

fn answers_no_memory(event: &Event) -> bool
    ensures { result ≡ answers_no_memory event.now }
{
    matches!(
        event,
        Event::Ended {
            reply: Reply::NoMemory,
            ..
        }
    )
}

fn told_fault(failed: bool, sufficed: bool, printed: Fault) -> Fault
    ensures { result ≡ told failed sufficed printed }
{
    match printed {
        Fault::NoMemory => Fault::NoMemory,
        _ if failed => Fault::DiskFault,
        Fault::Nothing if !sufficed => Fault::LackedMemory,
        other => other,
    }
}

pub(crate) fn print_bytes<K: Sink>(bytes: &[u8], out: &mut K) -> Fault
    ensures printed { IsPrinted result (K.taken out.old) (K.taken out.new) bytes.now }
    ensures output_write { result ≡ Fault.OutputWrite → Rose (K.faults out.old) (K.faults out.new) }
    ensures causes { IsOutputFault result }
{
    match write_all(out, bytes) {
        Ok(()) => Fault::Nothing,
        Err(Failed) => Fault::OutputWrite,
    }
}
