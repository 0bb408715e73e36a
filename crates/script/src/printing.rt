//! The text of a history. Others call `transcript` alone, which reads a history; `writing` spells words and numbers by
//! the same functions.

ghost use Rattle.std.specs.Prelude.{◌≡◌, ◌++◌, ◌∷◌, [], IfOk, OnOk, ◌≢◌, reverse};
ghost use Rattle.std.specs.List.{flat_map};
ghost use Rattle.std.specs.Bool.{MatchBool};
ghost use Rattle.std.specs.Fmt.{decimal, signed_decimal};
ghost use Rattle.inno_model.specs.Text.{byte_text, value_text, row_text, reply_text, answer_text, answers, section, text, items};

use inno_model::{Event, History};
use inno_types::{Bytes, Listed, Reply, Row, Value};
use std::alloc::{AllocError, Global};
use store_api::NoMemory;

/// The text of a history: the replies to the items of each session that has one.
pub fn transcript(alloc: Global, history: &History) -> Result<Bytes, NoMemory>
    ensures { IfOk result (λ bytes. bytes ≡ text history.now) }
{
    let mut out = Vec::new(alloc);
    let events = history.events();
    for (s, name) in history.names().iter().enumerate() {
        push_section(alloc, &mut out, s, name, events)?;
    }
    Ok(Listed::from_vec(out))
}

fn push_section(
    alloc: Global,
    out: &mut Vec<u8>,
    s: usize,
    name: &Bytes,
    events: &[Event],
) -> Result<(), AllocError>
    ensures { OnOk result (out.new.items ≡ out.old.items ++ section s name.now (reverse events.now)) }
{
    if !has_items(s, events) {
        return Ok(());
    }
    push_text(out, "@session ")?;
    out.extend_from_slice(name.as_slice())?;
    push_text(out, "\n")?;
    push_answers(alloc, out, s, events)
}

fn has_items(s: usize, events: &[Event]) -> bool
    ensures { MatchBool result (items s (reverse events.now) ≢ []) (items s (reverse events.now) ≡ []) }
{
    for event in events {
        if let Event::Started { s: t, .. } = event
            && *t as usize == s
        {
            return true;
        }
    }
    false
}

fn push_answers(
    alloc: Global,
    out: &mut Vec<u8>,
    s: usize,
    events: &[Event],
) -> Result<(), AllocError>
    ensures { OnOk result (out.new.items ≡ out.old.items ++ flat_map answer_text (answers s (reverse events.now))) }
{
    for event in events {
        if let Event::Ended { s: t, j, reply } = event
            && *t as usize == s
        {
            push_answer(alloc, out, *j, reply)?;
        }
    }
    Ok(())
}

fn push_answer(alloc: Global, out: &mut Vec<u8>, j: u32, reply: &Reply) -> Result<(), AllocError>
    ensures { OnOk result (out.new.items ≡ out.old.items ++ answer_text (j, reply.now)) }
{
    push_number(alloc, out, u64::from(j))?;
    push_text(out, "> ")?;
    push_reply(alloc, out, reply)
}

fn push_reply(alloc: Global, out: &mut Vec<u8>, reply: &Reply) -> Result<(), AllocError>
    ensures { OnOk result (out.new.items ≡ out.old.items ++ reply_text reply.now) }
{
    match reply {
        Reply::Done => push_text(out, "OK\n"),
        Reply::Count(n) => push_numbered(alloc, out, "OK ", *n, "\n"),
        Reply::Rows(rows) => {
            push_numbered(alloc, out, "ROWS ", rows.len() as u64, "\n")?;
            push_rows(alloc, out, rows.as_slice())
        }
        Reply::Fail(error) => {
            push_numbered(alloc, out, "ERROR ", u64::from(error.code()), " (")?;
            push_text(out, error.state())?;
            push_text(out, ")\n")
        }
        Reply::RunLimit { .. } => push_text(out, "RUN LIMIT\n"),
        Reply::NotSignalled { .. } => push_text(out, "NOT SIGNALLED\n"),
        Reply::Stopped => push_text(out, "STOPPED\n"),
        Reply::NoMemory => push_text(out, "NO MEMORY\n"),
    }
}

fn push_rows(alloc: Global, out: &mut Vec<u8>, rows: &[Row]) -> Result<(), AllocError>
    ensures { OnOk result (out.new.items ≡ out.old.items ++ flat_map row_text rows.now) }
{
    for row in rows {
        push_row(alloc, out, row.as_slice())?;
    }
    Ok(())
}

/// The values of a row, with TAB between them.
fn push_row(alloc: Global, out: &mut Vec<u8>, row: &[Value]) -> Result<(), AllocError>
    ensures { OnOk result (out.new.items ≡ out.old.items ++ row_text row.now) }
{
    if let [first, others @ ..] = row {
        push_value(alloc, out, first)?;
        for value in others {
            out.push(b'\t')?;
            push_value(alloc, out, value)?;
        }
    }
    out.push(b'\n')?;
    Ok(())
}

fn push_value(alloc: Global, out: &mut Vec<u8>, value: &Value) -> Result<(), AllocError>
    ensures { OnOk result (out.new.items ≡ out.old.items ++ value_text value.now) }
{
    match value {
        Value::Null => push_text(out, "NULL"),
        Value::Int(n) => {
            let digits = n.to_string(alloc)?;
            push_text(out, digits.as_str())
        }
        Value::Text(bytes) => push_escaped(out, bytes.as_slice()),
    }
}

fn push_escaped(out: &mut Vec<u8>, bytes: &[u8]) -> Result<(), AllocError>
    ensures { OnOk result (out.new.items ≡ out.old.items ++ flat_map byte_text bytes.now) }
{
    for b in bytes {
        push_byte(out, *b)?;
    }
    Ok(())
}

fn push_byte(out: &mut Vec<u8>, b: u8) -> Result<(), AllocError>
    ensures { OnOk result (out.new.items ≡ out.old.items ++ byte_text b) }
{
    match b {
        0 => push_text(out, "\\0"),
        b'\t' => push_text(out, "\\t"),
        b'\n' => push_text(out, "\\n"),
        b'\\' => push_text(out, "\\\\"),
        _ => Ok(out.push(b)?),
    }
}

/// A number between two texts.
pub(crate) fn push_numbered(
    alloc: Global,
    out: &mut Vec<u8>,
    before: &str,
    n: u64,
    after: &str,
) -> Result<(), AllocError>
    ensures { OnOk result (out.new.items ≡ out.old.items ++ (before.now ++ (decimal n ++ after.now))) }
{
    push_text(out, before)?;
    push_number(alloc, out, n)?;
    push_text(out, after)
}

fn push_number(alloc: Global, out: &mut Vec<u8>, n: u64) -> Result<(), AllocError>
    ensures { OnOk result (out.new.items ≡ out.old.items ++ decimal n) }
{
    let digits = n.to_string(alloc)?;
    push_text(out, digits.as_str())
}

pub(crate) fn push_text(out: &mut Vec<u8>, text: &str) -> Result<(), AllocError>
    ensures { OnOk result (out.new.items ≡ out.old.items ++ text.now) }
{
    out.extend_from_slice(text.as_bytes())
}
