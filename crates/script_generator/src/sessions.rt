//! The script of a number: sixteen accounts, and sessions that transfer between them.
//! Others call `generate` alone; the same numbers give the same script each time.

ghost use Rattle.std.specs.Prelude.{◌≡◌, ◌⊎◌, ◌++◌, IfOk, IfErr, OnOk, Some, None, nat_lt, codes};
ghost use Rattle.script.specs.declared.script.ScriptBad.TheVariants.{NoMemory};
ghost use Rattle.std.specs.Fmt.{decimal};
ghost use Rattle.script.specs.Reading as limits;
ghost use Rattle.script_generator.specs.Generated as spelled;

use crate::accounts::push_setup;
use crate::transfer::{draw, push_transaction};
use inno_types::{Bytes, Listed};
use rand_core::SeedableRng;
use rand_xoshiro::SplitMix64;
use script::{Limited, Script, ScriptBad, ScriptItem};
use std::alloc::{AllocError, Global};
use store_api::{MOST_ITEMS, MOST_SESSIONS_OF_SCRIPT};

const SETUP_ITEMS: u32 = 2;

const ITEMS_OF_TRANSFER: u64 = 4;

/// The script of the number, with so many sessions and so many transfers each.
pub fn generate(
    alloc: Global,
    number: u64,
    sessions: u32,
    transfers: u32,
) -> Result<Script, ScriptBad>
    ensures script { IfOk result (λ script. (script ≡ spelled.generated number sessions transfers) × (spelled.passed sessions transfers ≡ None)) }
    ensures limit { IfErr result (λ bad. (spelled.passed sessions transfers ≡ Some bad) ⊎ ((bad ≡ NoMemory) × (spelled.passed sessions transfers ≡ None))) }
{
    if let Some(bad) = passed(sessions, transfers) {
        return Err(bad);
    }
    let mut items = Listed::new(alloc);
    push_setup(alloc, &mut items)?;
    push_sessions(alloc, &mut items, number, sessions, transfers)?;
    Ok(Script {
        names: names_to(alloc, sessions)?,
        items,
        ticks: Listed::new(alloc),
    })
}

/// The limit that such a script passes first.
fn passed(sessions: u32, transfers: u32) -> Option<ScriptBad>
    ensures { result ≡ spelled.passed sessions transfers }
{
    if sessions > MOST_SESSIONS_OF_SCRIPT && !has_many_items(MOST_SESSIONS_OF_SCRIPT, transfers) {
        return Some(over(Limited::Sessions, MOST_SESSIONS_OF_SCRIPT));
    }
    if has_many_items(sessions, transfers) {
        Some(over(Limited::Items, MOST_ITEMS))
    } else {
        None
    }
}

/// Whether there are more items than a script may have.
fn has_many_items(sessions: u32, transfers: u32) -> bool
    ensures { result ≡ nat_lt MOST_ITEMS (spelled.count_items sessions transfers) }
{
    let count = u64::from(sessions).saturating_mul(u64::from(transfers));
    count > u64::from(MOST_ITEMS - SETUP_ITEMS) / ITEMS_OF_TRANSFER
}

/// One more than this limit allows.
fn over(what: Limited, most: u32) -> ScriptBad
    ensures { result ≡ limits.over what most }
{
    let most = u64::from(most);
    ScriptBad::Limit {
        what: what as u8,
        found: most + 1,
        most,
    }
}

/// The names of the setup part and of so many sessions.
#[tactic(auto, using(crate::proofs::Steps::names_none, crate::proofs::Steps::names_next))]
fn names_to(alloc: Global, sessions: u32) -> Result<Listed<Bytes>, AllocError>
    ensures { IfOk result (λ names. names ≡ spelled.names_to sessions) }
{
    let mut names = Listed::new(alloc);
    names.push(name_of(alloc, "setup")?)?;
    for s in 0..sessions {
        names.push(session_name(alloc, s + 1)?)?;
    }
    Ok(names)
}

fn name_of(alloc: Global, name: &str) -> Result<Bytes, AllocError>
    ensures { IfOk result (λ bytes. bytes ≡ name.now) }
{
    Ok(Listed::from_vec(Vec::from_slice(alloc, name.as_bytes())?))
}

fn session_name(alloc: Global, s: u32) -> Result<Bytes, AllocError>
    ensures { IfOk result (λ name. name ≡ codes "s" ++ decimal s) }
{
    let mut name = Vec::from_slice(alloc, "s".as_bytes())?;
    name.extend_from_slice(s.to_string(alloc)?.as_bytes())?;
    Ok(Listed::from_vec(name))
}

fn push_sessions(
    alloc: Global,
    items: &mut Listed<ScriptItem>,
    number: u64,
    sessions: u32,
    transfers: u32,
) -> Result<(), AllocError>
    ensures { OnOk result (items.new ≡ items.old ++ spelled.all_sessions transfers sessions number) }
{
    let mut words = SplitMix64::seed_from_u64(number);
    for s in 0..sessions {
        push_session(alloc, items, s + 1, transfers, &mut words)?;
    }
    Ok(())
}

fn push_session(
    alloc: Global,
    items: &mut Listed<ScriptItem>,
    s: u32,
    transfers: u32,
    words: &mut SplitMix64,
) -> Result<(), AllocError>
    ensures items { OnOk result (items.new ≡ items.old ++ spelled.session_items s transfers words.old) }
    ensures words { OnOk result (words.new ≡ spelled.after_transfers transfers words.old) }
{
    for _turn in 0..transfers {
        let transfer = draw(words);
        push_transaction(alloc, items, s, &transfer)?;
    }
    Ok(())
}
