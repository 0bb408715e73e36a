//! What a script's sessions print of each kind of reply.
//! The history is made up: no engine answers here.

use crate::scripts::bytes;
use inno_model::{Event, History};
use inno_types::{Bytes, Item, Listed, Reply, Rows, SqlError, Value};
use script::transcript;
use std::alloc::{AllocError, Global};
use std::test::Fail;
use store_api::NoMemory;

/// The first item of a session is under way.
fn start(alloc: Global, history: &mut History, s: u32) -> Result<(), AllocError> {
    let item = Item::Sql(bytes(alloc, "x")?);
    history.reserve(1)?;
    history.add(Event::Started { s, j: 1, item });
    Ok(())
}

/// The reply to an item of session 1.
fn end(history: &mut History, j: u32, reply: Reply) -> Result<(), AllocError> {
    history.reserve(1)?;
    history.add(Event::Ended { s: 1, j, reply });
    Ok(())
}

fn rows_of_each_kind(alloc: Global) -> Result<Rows, AllocError> {
    let text = Value::Text(bytes(alloc, "a\0\t\n\\b")?);
    let row = Listed::from_vec(vec![in alloc; Value::Null, Value::Int(-7), text]?);
    Ok(Listed::from_vec(vec![in alloc; row, Listed::new(alloc)]?))
}

fn add_names(alloc: Global, history: &mut History) -> Result<(), AllocError> {
    for name in ["setup", "a", "b", "c"] {
        history.add_name(bytes(alloc, name)?)?;
    }
    Ok(())
}

fn add_all(alloc: Global, history: &mut History) -> Result<(), AllocError> {
    add_names(alloc, history)?;
    start(alloc, history, 1)?;
    end(history, 1, Reply::Done)?;
    end(history, 2, Reply::Count(18446744073709551615))?;
    end(history, 3, Reply::Rows(rows_of_each_kind(alloc)?))?;
    end(history, 4, Reply::Fail(SqlError::NoTable))?;
    end(history, 5, Reply::RunLimit { rows: 1 })?;
    end(history, 6, Reply::NotSignalled { waited: 50 })?;
    end(history, 7, Reply::Stopped)?;
    end(history, 8, Reply::NoMemory)?;
    start(alloc, history, 3)
}

fn printed(alloc: Global) -> Result<Bytes, NoMemory> {
    let mut history = History::new(alloc);
    let added = add_all(alloc, &mut history);
    let text = transcript(alloc, &history);
    drop(history);
    added?;
    text
}

const PRINTED: &str = "@session a
1> OK
2> OK 18446744073709551615
3> ROWS 2
NULL\t-7\ta\\0\\t\\n\\\\b

4> ERROR 1146 (42S02)
5> RUN LIMIT
6> NOT SIGNALLED
7> STOPPED
8> NO MEMORY
@session c
";

#[test]
fn prints_each_reply(rt: HostRuntime) -> Result<(), Fail> {
    let is_printed = printed(rt.alloc())?.as_slice() == PRINTED.as_bytes();
    assert!(rt; is_printed);
    Ok(())
}
