//! Why a run ends without success, as a line for whoever started it. What is said of a cause stands in
//! specs/Causes.antt. Nothing here chooses a fault.

ghost use Rattle.std.specs.Prelude.{◌≡◌, IfOk};
ghost use Rattle.std.specs.String.{string_bytes};
ghost use Rattle.run_outcome.specs.Causes as spelled;

use crate::outcome::Fault;
use script::Limited;
use std::alloc::{AllocError, Global};
use store_api::{Area, MountBad};

/// The cause of a fault, over the words that name the files and the script.
pub fn cause_line(
    alloc: Global,
    fault: Fault,
    file: &str,
    script: &str,
) -> Result<String, AllocError>
    ensures { IfOk result (λ line. string_bytes line ≡ spelled.cause_text file.now script.now fault) }
{
    match fault {
        Fault::Nothing => Ok(String::new(alloc)),
        Fault::Usage => String::from_str(alloc, USAGE),
        Fault::ScriptBad { line } => script_bad_line(alloc, script, line),
        Fault::ScriptRead => format!(in alloc; "{script}: cannot be read"),
        Fault::OutputWrite => String::from_str(alloc, "standard output: cannot be written"),
        Fault::DiskFault => disk_fault_line(alloc, file),
        Fault::File(bad) => file_line(alloc, file, bad),
        Fault::Limit { what, found, most } => {
            limit_line(alloc, whose(what, file, script), what, found, most)
        }
        Fault::NoMemory | Fault::LackedMemory => String::from_str(alloc, "not enough memory"),
    }
}

const USAGE: &str =
    "usage: innod init, dump or check FILE, innod run or play FILE SCRIPT, innod gen NUMBER SESSIONS TXNS, or innod load FILE NUMBER SESSIONS TXNS";

fn script_bad_line(alloc: Global, script: &str, line: u32) -> Result<String, AllocError>
    ensures { IfOk result (λ text. string_bytes text ≡ spelled.script_bad_text script.now line) }
{
    format!(in alloc;
        "{script}, line {line}: no directive, or a text, a quoted name or a comment that does not end"
    )
}

fn disk_fault_line(alloc: Global, file: &str) -> Result<String, AllocError>
    ensures { IfOk result (λ text. string_bytes text ≡ spelled.disk_fault_text file.now) }
{
    format!(in alloc;
        "{file}: one of the files .log, .dbl and .pag cannot be read, written or synced"
    )
}

/// What passes the limit of this number: the files, which have too many rows, or the script.
fn whose<'a>(what: u8, file: &'a str, script: &'a str) -> &'a str
    ensures { result.now ≡ spelled.whose what file.now script.now }
{
    if what == Limited::Rows as u8 {
        file
    } else {
        script
    }
}

/// What is limited, what was found, and the most.
fn limit_line(
    alloc: Global,
    name: &str,
    what: u8,
    found: u64,
    most: u64,
) -> Result<String, AllocError>
    ensures { IfOk result (λ text. string_bytes text ≡ spelled.limit_text name.now what found most) }
{
    let unit = limited(what);
    format!(in alloc; "{name}: {found}{unit}, at most {most}")
}

/// What the limit of this number limits.
fn limited(what: u8) -> &'static str
    ensures { result.now ≡ spelled.limited what }
{
    if what == Limited::Sessions as u8 {
        " sessions"
    } else if what == Limited::Items as u8 {
        " items"
    } else if what == Limited::Statement as u8 {
        " bytes of a statement"
    } else if what == Limited::Script as u8 {
        " bytes"
    } else {
        " rows"
    }
}

/// What is wrong with the files.
fn file_line(alloc: Global, file: &str, bad: MountBad) -> Result<String, AllocError>
    ensures { IfOk result (λ text. string_bytes text ≡ spelled.file_text file.now bad) }
{
    match bad {
        MountBad::Disk => format!(in alloc; "{file}: cannot be read, written or synced"),
        MountBad::NotInitialised => format!(in alloc; "{file}: no database was made there"),
        MountBad::Version { found } => {
            format!(in alloc; "{file}: a format of another version: {found}")
        }
        MountBad::Damaged {
            area,
            place,
            stored,
            computed,
        } => damage_line(alloc, file, area, place, stored, computed),
        MountBad::NoMemory => format!(in alloc; "{file}: not enough memory"),
        MountBad::Malformed { page, rule } => {
            format!(in alloc; "{file}: page {page} breaks rule {rule}")
        }
        MountBad::NotEmpty { bytes } => format!(in alloc; "{file}: not empty, bytes: {bytes}"),
        MountBad::TooLarge { rows } => format!(in alloc; "{file}: too many rows: {rows}"),
    }
}

fn damage_line(
    alloc: Global,
    file: &str,
    area: Area,
    place: u64,
    stored: u64,
    computed: u64,
) -> Result<String, AllocError>
    ensures { IfOk result (λ text. string_bytes text ≡ spelled.damage_text file.now area place stored computed) }
{
    let part = damaged(area);
    format!(in alloc; "{file}: {part}{place}, stored sum {stored}, computed sum {computed}")
}

/// What is damaged, before its place.
fn damaged(area: Area) -> &'static str
    ensures { result.now ≡ spelled.damaged area }
{
    match area {
        Area::Log => "damaged block of the log: ",
        Area::Double => "damaged copy of a page: ",
        Area::Pages => "damaged page: ",
    }
}
