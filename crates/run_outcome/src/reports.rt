//! What is printed of a history: what its sessions were answered, or what a generated script has done.
//! `finish` of `outcome` alone prints one, when the engine is gone; the history is only read.

ghost use Rattle.std.specs.Prelude.{◌≡◌};
ghost use Rattle.store_api.specs.Causes.{Rose};
ghost use Rattle.inno_db.specs.Keyed.{IsKeyed};
ghost use Rattle.inno_model.specs.Past.{opening};
ghost use Rattle.inno_model.specs.Text.{text};
ghost use Rattle.run_outcome.specs.Replay.{OpensOnce};
ghost use Rattle.run_outcome.specs.Faults.{IsOutputFault, IsPrinted};
ghost use Rattle.run_outcome.specs.Reports.{IsReported, totals_text};

use crate::outcome::{Fault, print_bytes};
use crate::report;
use crate::words::Asked;
use inno_model::History;
use script::transcript;
use std::alloc::Global;
use store_api::{NoMemory, Sink};

/// What is printed of a history.
#[derive(Clone, Copy)]
pub enum Report {
    Transcript,
    Totals(Asked),
}

/// Prints what is asked for of a history.
pub(crate) fn print_report<K: Sink>(
    alloc: Global,
    history: &History,
    report: Report,
    out: &mut K,
) -> Fault
    requires { OpensOnce history.now.past }
    ensures printed { IsReported report result (K.taken out.old) (K.taken out.new) history.now }
    ensures output_write { result ≡ Fault.OutputWrite → Rose (K.faults out.old) (K.faults out.new) }
    ensures causes { IsOutputFault result }
{
    match report {
        Report::Transcript => print_transcript(alloc, history, out),
        Report::Totals(asked) => print_totals(alloc, history, asked, out),
    }
}

/// Prints the text of a history.
fn print_transcript<K: Sink>(alloc: Global, history: &History, out: &mut K) -> Fault
    ensures printed { IsPrinted result (K.taken out.old) (K.taken out.new) (text history.now) }
    ensures output_write { result ≡ Fault.OutputWrite → Rose (K.faults out.old) (K.faults out.new) }
    ensures causes { IsOutputFault result }
{
    match transcript(alloc, history) {
        Ok(bytes) => print_bytes(bytes.as_slice(), out),
        Err(NoMemory) => Fault::NoMemory,
    }
}

/// Prints what the script of these numbers has done.
fn print_totals<K: Sink>(alloc: Global, history: &History, asked: Asked, out: &mut K) -> Fault
    requires { OpensOnce history.now.past }
    ensures printed { IsKeyed (opening history.now.past) → IsPrinted result (K.taken out.old) (K.taken out.new) (totals_text asked history.now) }
    ensures output_write { result ≡ Fault.OutputWrite → Rose (K.faults out.old) (K.faults out.new) }
    ensures causes { IsOutputFault result }
{
    match report(alloc, history, asked.sessions, asked.transfers) {
        Ok(line) => print_bytes(line.as_bytes(), out),
        Err(NoMemory) => Fault::NoMemory,
    }
}
