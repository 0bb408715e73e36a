//! The text of a script that is generated.
//! `script_runner` prints it, or plays the same script; it is made of the command's numbers alone.

ghost use Rattle.std.specs.Prelude.{◌≡◌, None, IfOk, IfErr};
ghost use Rattle.store_api.specs.Causes.{Rose};
ghost use Rattle.script.specs.Writing.{script_text};
ghost use Rattle.script.specs.Script.{IsPlayable};
ghost use Rattle.script_generator.specs.Generated.{generated, passed};
ghost use Rattle.run_outcome.specs.Faults.{allowed, IsInputFault, IsOutputFault, IsPrinted};
ghost use Rattle.run_outcome.specs.declared.words.Way.TheVariants.{OnThreads};
ghost use Rattle.run_outcome.specs.Generating as spelled;

use crate::outcome::{Fault, print_bytes};
use crate::words::Asked;
use script::{Directives, Script, ScriptBad, WriteBad, write_script};
use script_generator::generate;
use std::alloc::Global;
use store_api::Sink;

/// Prints the script that is asked for.
#[tactic(auto, using(crate::proofs::Limits::refused_printed, crate::proofs::Limits::refused))]
pub fn print_generated<K: Sink>(alloc: Global, asked: Asked, out: &mut K) -> Fault
    ensures printed { IsPrinted result (K.taken out.old) (K.taken out.new) (spelled.generated_text asked) }
    ensures output_write { result ≡ Fault.OutputWrite → Rose (K.faults out.old) (K.faults out.new) }
    ensures causes { spelled.IsGenerateFault (passed asked.sessions asked.transfers) result }
{
    match generate(alloc, asked.number, asked.sessions, asked.transfers) {
        Ok(script) => print_script(alloc, script, out),
        Err(bad) => script_fault(bad),
    }
}

/// The script that is asked for, as one that threads play.
#[tactic(auto, using(crate::proofs::Limits::refused, crate::proofs::Limits::of_input))]
pub fn generate_input(alloc: Global, asked: Asked) -> Result<Script, Fault>
    ensures script { IfOk result (λ script. script ≡ generated asked.number asked.sessions asked.transfers) }
    ensures within { IfOk result (λ script. passed asked.sessions asked.transfers ≡ None) }
    ensures playable { IfOk result (IsPlayable (allowed OnThreads)) }
    ensures causes { IfErr result (spelled.IsGenerateFault (passed asked.sessions asked.transfers)) }
    ensures kind { IfErr result IsInputFault }
{
    match generate(alloc, asked.number, asked.sessions, asked.transfers) {
        Ok(script) => Ok(script),
        Err(bad) => Err(script_fault(bad)),
    }
}

/// Prints a script. A text that would be read as another one is none; a generated script has no such text.
fn print_script<K: Sink>(alloc: Global, script: Script, out: &mut K) -> Fault
    ensures printed { IsPrinted result (K.taken out.old) (K.taken out.new) (script_text script) }
    ensures output_write { result ≡ Fault.OutputWrite → Rose (K.faults out.old) (K.faults out.new) }
    ensures causes { IsOutputFault result }
{
    let allowed = Directives {
        signals: false,
        ticks: false,
    };
    let written = write_script(alloc, &script, allowed);
    drop(script);
    match written {
        Ok(bytes) => print_bytes(bytes.as_slice(), out),
        Err(WriteBad::Unreadable | WriteBad::NoMemory) => Fault::NoMemory,
    }
}

/// The fault of a script that can't be read or made.
pub(crate) fn script_fault(bad: ScriptBad) -> Fault
    ensures { result ≡ spelled.script_fault bad }
{
    match bad {
        ScriptBad::Line { line } => Fault::ScriptBad { line },
        ScriptBad::Limit { what, found, most } => Fault::Limit { what, found, most },
        ScriptBad::NoMemory => Fault::NoMemory,
    }
}
