//! Makes the files of a database; or runs scripts of SQL on the storage engine over them, and prints what each session was
//! answered; or prints the database as SQL, or what is counted in it; or prints a generated script, or plays it and prints what
//! it has done. All that it does there is `script_runner::run`. Of words that are no command it says what `clap` does (`advice`).
#![tactic(auto)]

mod advice;
mod streams;

use advice::advice;
use disk_file::{FileDisk, FileSource, FreeGate, StdSink, SystemClock};
use inno_types::{Bytes, Listed};
use script_runner::{Fault, cause_line, run};
use std::alloc::{AllocError, Global};
use std::process::ExitCode;
use std::{env, io};
use store_api::NoMemory;
use streams::Places;

fn main(rt: HostRuntime) -> io::Result<ExitCode> {
    // They are kept until the program ends.
    let _places = Places::take(&rt);
    let words = match words_of(&rt) {
        Ok(words) => words,
        Err(error) if error.kind() == io::ErrorKind::InvalidData => {
            return ended(&rt, Fault::Usage, 1, &[], "", "");
        }
        Err(error) => return Err(error),
    };
    let file = word_at(&words, 2);
    let script = word_at(&words, 3);
    let Ok((bytes, disk, mut source)) = objects(&rt, &words, file, script) else {
        return ended(&rt, Fault::NoMemory, 8, &words, file, script);
    };
    let mut sink = StdSink::new(&rt);
    let clock = SystemClock::new(&rt);
    let outcome = run(
        &rt,
        rt.alloc(),
        &bytes,
        &mut source,
        disk,
        &mut sink,
        &clock,
        &FreeGate,
    );
    let (fault, status) = (outcome.fault, outcome.status);
    drop(outcome);
    ended(&rt, fault, status, &words, file, name_of_script(&words))
}

/// The program's words. One that is no UTF-8 is an error, of invalid data.
fn words_of(rt: &HostRuntime) -> io::Result<Vec<String>> {
    let mut words = Vec::new(rt.alloc());
    for word in env::args(rt)? {
        words.push(word)?;
    }
    Ok(words)
}

/// Says why the run ended without success, if it did, and with which status.
fn ended(
    rt: &HostRuntime,
    fault: Fault,
    status: u8,
    words: &[String],
    file: &str,
    script: &str,
) -> io::Result<ExitCode> {
    match fault {
        Fault::Usage => advise(rt, words)?,
        _ => tell(rt, fault, file, script)?,
    }
    if status != 0 {
        eprintln!(rt; "innod: status {status}")?;
    }
    Ok(ExitCode::from(status))
}

fn word_at(words: &[String], place: usize) -> &str {
    match words.get(place) {
        Some(word) => word.as_str(),
        None => "",
    }
}

/// What the script is called where a cause names it.
fn name_of_script(words: &[String]) -> &str {
    match word_at(words, 1) {
        "gen" | "load" => "the generated script",
        _ => word_at(words, 3),
    }
}

/// The words as bytes, the disk over the files, and the source over the script. Where no script is named, as for `init` or
/// `dump`, the source has an empty name, and is never opened; nor is either under `gen`, or the source under `load`.
fn objects<'r>(
    rt: &'r HostRuntime,
    words: &[String],
    file: &str,
    script: &str,
) -> Result<
    (
        Vec<Bytes>,
        FileDisk<&'r HostRuntime>,
        FileSource<&'r HostRuntime>,
    ),
    NoMemory,
> {
    let alloc = rt.alloc();
    let bytes = all_bytes(alloc, words)?;
    let (file, script) = (bytes_of(alloc, file)?, bytes_of(alloc, script)?);
    let disk = FileDisk::new(rt, alloc, &file)?;
    let Ok(source) = FileSource::new(rt, alloc, &script) else {
        drop(disk);
        return Err(NoMemory);
    };
    Ok((bytes, disk, source))
}

/// Says what there is to say of words that are no command, or how they would be one.
fn advise(rt: &HostRuntime, words: &[String]) -> io::Result<()> {
    if words.is_empty() {
        return tell(rt, Fault::Usage, "", "");
    }
    match advice(rt.alloc(), words) {
        Some(said) => eprint!(rt; "{said}"),
        None => tell(rt, Fault::Usage, "", ""),
    }
}

/// Says the cause of a fault, if there is one.
fn tell(rt: &HostRuntime, fault: Fault, file: &str, script: &str) -> io::Result<()> {
    if matches!(fault, Fault::Nothing) {
        return Ok(());
    }
    match cause_line(rt.alloc(), fault, file, script) {
        Ok(line) => eprintln!(rt; "innod: {line}"),
        Err(AllocError) => eprintln!(rt; "innod: not enough memory"),
    }
}

fn all_bytes(alloc: Global, words: &[String]) -> Result<Vec<Bytes>, AllocError> {
    let mut all = Vec::new(alloc);
    for word in words {
        all.push(bytes_of(alloc, word.as_str())?)?;
    }
    Ok(all)
}

fn bytes_of(alloc: Global, word: &str) -> Result<Bytes, AllocError> {
    Ok(Listed::from_vec(Vec::from_slice(alloc, word.as_bytes())?))
}
