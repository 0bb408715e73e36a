//! The words of a command. `script_runner` asks once (`command_of`), before it opens anything. Words are only compared
//! here.

ghost use Rattle.std.specs.Prelude.{◌≡◌, ◌↔◌, ◌<◌, ◌^◌, ◌==◌, IsTrue, All, MatchOption, slice_index, codes, bytes_eq};
ghost use Rattle.std.specs.Bool.{MatchBool};
ghost use Rattle.run_outcome.specs.Words.{IsScriptCommand, IsInitCommand, IsDumpCommand, IsCheckCommand, IsGenCommand, IsLoadCommand};
ghost use Rattle.run_outcome.specs.Words.{IsText, IsKnown, IsInit, IsDump, IsCheck, IsGen, IsLoad, IsOperand};
ghost use Rattle.run_outcome.specs.Words.{IsNumber, IsCount, AreNumbers, Tells, IsAlone, value_of, word_at, asked_in, way_in};

use inno_types::Bytes;
use std::str;
use store_api::MOST_SESSIONS_OF_SCRIPT;

const MOST_TRANSFERS: u64 = 25_000;

/// The number of a generated script, its sessions, and the transactions of each.
#[derive(Clone, Copy)]
pub struct Asked {
    pub number: u64,
    pub sessions: u32,
    pub transfers: u32,
}

/// How the sessions of a script play.
#[derive(Clone, Copy)]
pub enum Way {
    InTurn,
    OnThreads,
}

/// What the words ask for.
#[derive(Clone, Copy)]
pub enum Command {
    /// They are no command.
    Unknown,
    Init,
    Script(Way),
    Dump,
    Check,
    Gen(Asked),
    Load(Asked),
}

/// Which command the words are, after whatever name the program has.
pub fn command_of(words: &[Bytes]) -> Command
    ensures tells { Tells result words.now }
    ensures alone { IsAlone result words.now }
{
    if !are_texts(words) {
        return Command::Unknown;
    }
    if let Some(asked) = generates(words) {
        return Command::Gen(asked);
    }
    if let Some(asked) = loads(words) {
        return Command::Load(asked);
    }
    if makes(words) {
        return Command::Init;
    }
    if dumps(words) {
        return Command::Dump;
    }
    if checks(words) {
        return Command::Check;
    }
    if plays(words) {
        return Command::Script(way_of(words));
    }
    Command::Unknown
}

/// Under `run` each session has a thread; under `play` they take turns.
fn way_of(words: &[Bytes]) -> Way
    ensures { result ≡ way_in words.now }
{
    if is_run(words) {
        Way::OnThreads
    } else {
        Way::InTurn
    }
}

fn is_run(words: &[Bytes]) -> bool
    ensures { result ≡ bytes_eq (word_at 1 words.now) (codes "run") }
{
    match words {
        [_, command, ..] => command.as_slice() == "run".as_bytes(),
        _ => false,
    }
}

fn are_texts(words: &[Bytes]) -> bool
    ensures { MatchBool result (All IsText words.now) (All IsText words.now → ⊥) }
{
    for word in words {
        if !is_text(word.as_slice()) {
            return false;
        }
    }
    true
}

fn is_text(word: &[u8]) -> bool
    ensures { MatchBool result (IsText word.now) (IsText word.now → ⊥) }
{
    match str::from_utf8(word) {
        Ok(_) => true,
        Err(_) => false,
    }
}

fn plays(words: &[Bytes]) -> bool
    ensures { IsTrue result ↔ IsScriptCommand words.now }
{
    match words {
        [_, command, file, script] => {
            plays_script(command.as_slice())
                && is_operand(file.as_slice())
                && is_operand(script.as_slice())
        }
        _ => false,
    }
}

fn makes(words: &[Bytes]) -> bool
    ensures { IsTrue result ↔ IsInitCommand words.now }
{
    match words {
        [_, command, file] => makes_files(command.as_slice()) && is_operand(file.as_slice()),
        _ => false,
    }
}

fn dumps(words: &[Bytes]) -> bool
    ensures { IsTrue result ↔ IsDumpCommand words.now }
{
    match words {
        [_, command, file] => dumps_files(command.as_slice()) && is_operand(file.as_slice()),
        _ => false,
    }
}

fn checks(words: &[Bytes]) -> bool
    ensures { IsTrue result ↔ IsCheckCommand words.now }
{
    match words {
        [_, command, file] => checks_files(command.as_slice()) && is_operand(file.as_slice()),
        _ => false,
    }
}

fn checks_files(word: &[u8]) -> bool
    ensures { IsTrue result ↔ IsCheck word.now }
{
    word == "check".as_bytes()
}

fn plays_script(word: &[u8]) -> bool
    ensures { IsTrue result ↔ IsKnown word.now }
{
    if word == "run".as_bytes() {
        return true;
    }
    word == "play".as_bytes()
}

fn makes_files(word: &[u8]) -> bool
    ensures { IsTrue result ↔ IsInit word.now }
{
    word == "init".as_bytes()
}

/// The numbers of a script that is to be generated, where the words ask for that.
fn generates(words: &[Bytes]) -> Option<Asked>
    ensures { MatchOption result (IsGenCommand words.now → ⊥) (λ asked. IsGenCommand words.now × (asked ≡ asked_in 2 words.now)) }
{
    match words {
        [_, command, number, sessions, transfers] if generates_script(command.as_slice()) => {
            numbers_of(number.as_slice(), sessions.as_slice(), transfers.as_slice())
        }
        _ => None,
    }
}

fn generates_script(word: &[u8]) -> bool
    ensures { IsTrue result ↔ IsGen word.now }
{
    word == "gen".as_bytes()
}

/// The numbers of a script that is to run, where the words ask for that.
fn loads(words: &[Bytes]) -> Option<Asked>
    ensures { MatchOption result (IsLoadCommand words.now → ⊥) (λ asked. IsLoadCommand words.now × (asked ≡ asked_in 3 words.now)) }
{
    match words {
        [_, command, file, number, sessions, transfers]
            if loads_script(command.as_slice()) && is_operand(file.as_slice()) => {
            numbers_of(number.as_slice(), sessions.as_slice(), transfers.as_slice())
        }
        _ => None,
    }
}

fn loads_script(word: &[u8]) -> bool
    ensures { IsTrue result ↔ IsLoad word.now }
{
    word == "load".as_bytes()
}

/// What the three words say, where each is a number within its limits.
fn numbers_of(number: &[u8], sessions: &[u8], transfers: &[u8]) -> Option<Asked>
    ensures { MatchOption result (AreNumbers number.now sessions.now transfers.now → ⊥)
        (λ asked. AreNumbers number.now sessions.now transfers.now
        × (asked ≡ record { number = value_of number.now; sessions = value_of sessions.now; transfers = value_of transfers.now })) }
{
    let number = number_of(number, 20)?;
    let sessions = count_of(sessions, u64::from(MOST_SESSIONS_OF_SCRIPT))?;
    let transfers = count_of(transfers, MOST_TRANSFERS)?;
    Some(Asked {
        number,
        sessions,
        transfers,
    })
}

/// A number from 1 to the most.
fn count_of(word: &[u8], most: u64) -> Option<u32>
    requires { most < 2 ^ 32 }
    ensures { MatchOption result (IsCount most word.now → ⊥) (λ n. IsCount most word.now × (n ≡ value_of word.now)) }
{
    let number = number_of(word, 5)?;
    if number == 0 || number > most {
        return None;
    }
    Some(number as u32)
}

/// A number of 64 bits, in so many digits at most.
fn number_of(word: &[u8], most: usize) -> Option<u64>
    ensures { MatchOption result (IsNumber most word.now → value_of word.now < 2 ^ 64 → ⊥)
        (λ n. IsNumber most word.now × (n ≡ value_of word.now)) }
{
    if word.len() > most || has_plus(word) {
        return None;
    }
    match str::from_utf8(word) {
        Ok(text) => text.parse::<u64>().ok(),
        Err(_) => None,
    }
}

fn has_plus(word: &[u8]) -> bool
    ensures { result ≡ (slice_index word.now 0 == 43) }
{
    match word {
        [] => false,
        [first, ..] => *first == b'+',
    }
}

fn dumps_files(word: &[u8]) -> bool
    ensures { IsTrue result ↔ IsDump word.now }
{
    word == "dump".as_bytes()
}

fn is_operand(word: &[u8]) -> bool
    ensures { IsTrue result ↔ IsOperand word.now }
{
    match word {
        [] => false,
        [first, ..] => *first != b'-',
    }
}
