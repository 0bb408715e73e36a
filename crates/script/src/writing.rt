//! Writes a script as a text, and sees that the text is read again as the same script.
//! Whoever prints a generated script asks here (`run_outcome`); what would be read otherwise is refused.

ghost use Rattle.std.specs.Prelude.{◌≡◌, ◌<◌, ◌≤◌, ◌++◌, ◌^◌, IfOk, IfErr, OnOk, length, Err, take, drop, codes};
ghost use Rattle.std.specs.Bool.{MatchBool};
ghost use Rattle.std.specs.List.{flat_map};
ghost use Rattle.script.specs.Script.{Spells};
ghost use Rattle.script.specs.Writing as spelled;
ghost use Rattle.script.specs.declared.script.WriteBad.TheVariants.{Unreadable, NoMemory};

use crate::printing::{push_numbered, push_text};
use crate::reading::read_script;
use crate::script::{Directives, Script, ScriptBad, Tick, WriteBad};
use inno_types::{Bytes, Item, Listed};
use std::alloc::{AllocError, Global};

/// Writes a script. What is written is read again as the same script, or else refused: a script that nobody read may
/// have a name with a space, a statement that doesn't end, or more items than a script has.
pub fn write_script(alloc: Global, script: &Script, allowed: Directives) -> Result<Bytes, WriteBad>
    ensures text { IfOk result (λ bytes. bytes ≡ spelled.script_text script.now) }
    ensures again { IfOk result (λ bytes. Spells allowed bytes script.now) }
    ensures unreadable { result ≡ Err Unreadable → Spells allowed (spelled.script_text script.now) script.now → ⊥ }
{
    let mut out = Vec::new(alloc);
    push_script(alloc, &mut out, script)?;
    if is_read_as(alloc, out.as_slice(), allowed, script)? {
        Ok(Listed::from_vec(out))
    } else {
        drop(out);
        Err(WriteBad::Unreadable)
    }
}

/// Whether the bytes are read as this script.
fn is_read_as(
    alloc: Global,
    bytes: &[u8],
    allowed: Directives,
    script: &Script,
) -> Result<bool, WriteBad>
    ensures same { IfOk result (λ same. MatchBool same (Spells allowed bytes.now script.now) (Spells allowed bytes.now script.now → ⊥)) }
    ensures memory { IfErr result (λ bad. bad ≡ NoMemory) }
{
    match read_script(alloc, bytes, allowed) {
        Ok(read) => {
            let is_same = read.is_same(script);
            drop(read);
            Ok(is_same)
        }
        Err(ScriptBad::NoMemory) => Err(WriteBad::NoMemory),
        Err(ScriptBad::Line { .. } | ScriptBad::Limit { .. }) => Ok(false),
    }
}

fn push_script(alloc: Global, out: &mut Vec<u8>, script: &Script) -> Result<(), AllocError>
    ensures { OnOk result (out.new.items ≡ out.old.items ++ spelled.script_text script.now) }
{
    let names = script.names.as_slice();
    let mut ticks = script.ticks.as_slice();
    let mut named = 1;
    let mut last = 0;
    for (count, x) in script.items.as_slice().iter().enumerate() {
        let (now, later) = ticks.split_at(count_due(count, ticks));
        push_ticks(alloc, out, now)?;
        ticks = later;
        let s = x.s as usize;
        push_names(out, changed_names(names, named, last, s))?;
        push_item(out, &x.item)?;
        last = s;
        named = named_then(named, s);
    }
    push_ticks(alloc, out, ticks)?;
    push_names(out, behind(names, named))
}

/// How many of the ticks come before the next item, behind so many.
#[tactic(auto, using(crate::proofs::Written::runs))]
fn count_due(items: usize, ticks: &[Tick]) -> usize
    ensures value { result ≡ spelled.due items ticks.now }
    ensures within { result ≤ length ticks.now }
{
    ticks.iter().take_while(|tick| tick.items <= items).count()
}

/// How many names have a line once the session's items follow.
fn named_then(named: usize, s: usize) -> usize
    requires { s < 2 ^ 32 }
    ensures { result ≡ spelled.named_then named s }
{
    if named <= s { s + 1 } else { named }
}

/// The names of the lines after which the session's items follow.
fn changed_names(names: &[Bytes], named: usize, last: usize, s: usize) -> &[Bytes]
    requires { s < 2 ^ 32 }
    ensures { result.now ≡ spelled.changed_names names.now named last s }
{
    if named <= s {
        front(behind(names, named), s + 1 - named)
    } else if s == last {
        &[]
    } else {
        front(behind(names, s), 1)
    }
}

fn front(names: &[Bytes], count: usize) -> &[Bytes]
    ensures { result.now ≡ take count names.now }
{
    if count < names.len() {
        &names[..count]
    } else {
        names
    }
}

fn behind(names: &[Bytes], count: usize) -> &[Bytes]
    ensures { result.now ≡ drop count names.now }
{
    if count < names.len() {
        &names[count..]
    } else {
        &[]
    }
}

fn push_ticks(alloc: Global, out: &mut Vec<u8>, ticks: &[Tick]) -> Result<(), AllocError>
    ensures { OnOk result (out.new.items ≡ out.old.items ++ flat_map spelled.tick_text ticks.now) }
{
    for tick in ticks {
        push_numbered(alloc, out, "@tick ", u64::from(tick.seconds), "\n")?;
    }
    Ok(())
}

fn push_names(out: &mut Vec<u8>, names: &[Bytes]) -> Result<(), AllocError>
    ensures { OnOk result (out.new.items ≡ out.old.items ++ flat_map spelled.session_text names.now) }
{
    for name in names {
        push_line(out, "@session ", name.as_slice())?;
    }
    Ok(())
}

fn push_item(out: &mut Vec<u8>, item: &Item) -> Result<(), AllocError>
    ensures { OnOk result (out.new.items ≡ out.old.items ++ spelled.item_text item.now) }
{
    match item {
        Item::Sql(text) => push_statement(out, text.as_slice()),
        Item::Signal(name) => push_line(out, "@signal ", name.as_slice()),
        Item::Await(name) => push_line(out, "@await ", name.as_slice()),
    }
}

fn push_statement(out: &mut Vec<u8>, text: &[u8]) -> Result<(), AllocError>
    ensures { OnOk result (out.new.items ≡ out.old.items ++ spelled.statement_text text.now) }
{
    if text.starts_with(b"@") {
        push_text(out, " ")?;
    }
    out.extend_from_slice(text)?;
    push_text(out, ";\n")
}

/// A directive's word with the space behind it, and a name.
fn push_line(out: &mut Vec<u8>, word: &str, name: &[u8]) -> Result<(), AllocError>
    ensures { OnOk result (out.new.items ≡ out.old.items ++ (word.now ++ (name.now ++ codes "\n"))) }
{
    push_text(out, word)?;
    out.extend_from_slice(name)?;
    push_text(out, "\n")
}
