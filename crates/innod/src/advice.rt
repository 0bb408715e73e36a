//! The table of commands, and what `clap` says by it of words that are none: the help that they ask for, the usage of the command
//! that they begin, or the nearest name. Which words are a command is not decided here, but by `script_runner::run`.

use clap::{Arg, Command, Error, value_parser};
use std::alloc::{AllocError, Global};

/// A command: its name, the words behind it, and what it does.
#[derive(Clone, Copy)]
struct Row {
    name: &'static str,
    operands: &'static [Operand],
    about: &'static str,
}

/// What a word behind a command's name stands for.
#[derive(Clone, Copy)]
enum Operand {
    File,
    Script,
    Number,
    Sessions,
    Transactions,
}

const FILE: &[Operand] = &[Operand::File];

const FILE_AND_SCRIPT: &[Operand] = &[Operand::File, Operand::Script];

const NUMBERS: &[Operand] = &[Operand::Number, Operand::Sessions, Operand::Transactions];

const FILE_AND_NUMBERS: &[Operand] = &[
    Operand::File,
    Operand::Number,
    Operand::Sessions,
    Operand::Transactions,
];

/// In the order of README.
const COMMANDS: [Row; 7] = [
    Row {
        name: "init",
        operands: FILE,
        about: "Makes a database without tables in FILE.pag and FILE.log",
    },
    Row {
        name: "run",
        operands: FILE_AND_SCRIPT,
        about: "Plays a script of several sessions, each on a thread, and prints what each was answered",
    },
    Row {
        name: "play",
        operands: FILE_AND_SCRIPT,
        about: "Makes the same steps on one thread, in the order of the script",
    },
    Row {
        name: "dump",
        operands: FILE,
        about: "Prints the database as SQL, a script that makes it anew",
    },
    Row {
        name: "check",
        operands: FILE,
        about: "Prints what is counted in the database",
    },
    Row {
        name: "gen",
        operands: NUMBERS,
        about: "Prints a script of transfers between accounts, drawn from the number as its seed",
    },
    Row {
        name: "load",
        operands: FILE_AND_NUMBERS,
        about: "Plays that script, and prints what was committed and what the accounts hold",
    },
];

/// What there is to say of these words; nothing where `clap` would take them.
pub fn advice(alloc: Global, words: &[String]) -> Option<Error> {
    match refused(alloc, words) {
        Ok(()) => None,
        Err(error) => Some(error),
    }
}

fn refused<'a>(alloc: Global, words: &'a [String]) -> Result<(), Error> {
    let program: Command<'a> = program(alloc)?;
    drop(program.try_get_matches_from(words)?);
    Ok(())
}

fn program<'a>(alloc: Global) -> Result<Command<'a>, AllocError> {
    let mut program = Command::new(alloc, "innod")
        .bin_name("innod")?
        .about("A storage engine for SQL, over the files FILE.pag, FILE.log and FILE.dbl")
        .subcommand_required(true)
        .arg_required_else_help(true);
    for row in COMMANDS {
        program = program.subcommand(command(alloc, row)?)?;
    }
    Ok(program)
}

fn command<'a>(alloc: Global, row: Row) -> Result<Command<'a>, AllocError> {
    let mut command = Command::new(alloc, row.name).about(row.about);
    for operand in row.operands {
        command = command.arg(argument(alloc, *operand).required(true))?;
    }
    Ok(command)
}

fn argument<'a>(alloc: Global, operand: Operand) -> Arg<'a> {
    match operand {
        Operand::File => Arg::new(alloc, "FILE").help(
            "The database's files, without .pag, .log or .dbl",
        ),
        Operand::Script => Arg::new(alloc, "SCRIPT").help(
            "The file of the script (docs/SCRIPTS.md)",
        ),
        Operand::Number => {
            Arg::new(alloc, "NUMBER")
                .help("From 0 to 2^64 - 1")
                .value_parser(value_parser!(u64))
        }
        Operand::Sessions => {
            Arg::new(alloc, "SESSIONS")
                .help("From 1 to 64")
                .value_parser(value_parser!(u32).range(1..=64))
        }
        Operand::Transactions => {
            Arg::new(alloc, "TXNS")
                .help("From 1 to 25000, for each session")
                .value_parser(value_parser!(u32).range(1..=25_000))
        }
    }
}
