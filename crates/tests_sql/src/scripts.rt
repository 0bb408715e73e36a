//! Scripts that are read and written again, and texts that are none, each with the line that is bad or the limit that
//! it passes. Only the crate `script` is tried: no statement of a script is parsed or run.

use inno_types::{Bytes, Item, Listed};
use script::{Directives, Script, ScriptBad, ScriptItem, WriteBad, read_script, write_script};
use std::alloc::{AllocError, Global};
use std::fmt::Write;
use std::test::Fail;

const STATEMENTS: Directives = Directives {
    signals: false,
    ticks: false,
};

pub const ALL: Directives = Directives {
    signals: true,
    ticks: true,
};

pub fn bytes(alloc: Global, text: &str) -> Result<Bytes, AllocError> {
    Ok(Listed::from_vec(Vec::from_slice(alloc, text.as_bytes())?))
}

/// Scripts, and what is written of them.
const WRITTEN: [(&str, &str); 8] = [
    ("", ""),
    (
        "INSERT INTO t\n VALUES (1,10) ;;-- end\n@session a\nBEGIN;SELECT * FROM t",
        "INSERT INTO t\n VALUES (1,10);\n@session a\nBEGIN;\nSELECT * FROM t;\n",
    ),
    (
        "@session a\n@session b\nBEGIN;\n@session a\n@session b\nCOMMIT;\n@session c",
        "@session a\n@session b\nBEGIN;\nCOMMIT;\n@session c\n",
    ),
    (
        "@session b\nBEGIN;\n@session a\nBEGIN;\n@session b\nBEGIN;",
        "@session b\nBEGIN;\n@session a\nBEGIN;\n@session b\nBEGIN;\n",
    ),
    (
        "@tick 00007\nBEGIN;\n@session a\n@await go\n@tick 1\n@tick 2\n@session b\n@signal go\n@tick 50",
        "@tick 7\nBEGIN;\n@session a\n@await go\n@tick 1\n@tick 2\n@session b\n@signal go\n@tick 50\n",
    ),
    (
        "@session a\n @tick 1;\n;@session a;",
        "@session a\n @tick 1;\n @session a;\n",
    ),
    (
        "SELECT 'a;\n@session b' /* ; */ -- ;\n , `;``` FROM t --;%;--",
        "SELECT 'a;\n@session b' /* ; */ -- ;\n , `;``` FROM t --;\n%;\n",
    ),
    (
        "\n -- a;\nBEGIN ; ; %;SELECT *\r\n FROM t # ;\n;@session c;\r\n@session b  \r\n\t@tick 1;\n'a;''\\'' -- \n@session a_1\n;\n@session a_1\nCOMMIT # no more",
        "BEGIN;\n%;\nSELECT *\r\n FROM t;\n @session c;\n@session b\n @tick 1;\n'a;''\\'' -- \n@session a_1;\n@session a_1\nCOMMIT;\n",
    ),
];

/// Whether that is written of the script that a text is.
fn is_written(alloc: Global, text: &str, wanted: &str) -> Result<bool, WriteBad> {
    let Ok(script) = read_script(alloc, text.as_bytes(), ALL) else {
        return Ok(false);
    };
    let written = write_script(alloc, &script, ALL);
    drop(script);
    Ok(written?.as_slice() == wanted.as_bytes())
}

#[test]
fn writes_what_is_read_again(rt: HostRuntime) -> Result<(), Fail> {
    for (text, wanted) in &WRITTEN {
        assert!(rt; is_written(rt.alloc(), text, wanted)?, "after {text}");
    }
    Ok(())
}

/// A script of one session and one statement.
fn of_one_item(alloc: Global, name: &str, text: &str) -> Result<Script, AllocError> {
    let item = Item::Sql(bytes(alloc, text)?);
    Ok(Script {
        names: Listed::from_vec(vec![in alloc; bytes(alloc, "setup")?, bytes(alloc, name)?]?),
        items: Listed::from_vec(vec![in alloc; ScriptItem { s: 1, item }]?),
        ticks: Listed::new(alloc),
    })
}

/// Whether the script of this session and this statement can't be written so that it is read again.
fn is_unreadable(alloc: Global, name: &str, text: &str) -> Result<bool, AllocError> {
    let script = of_one_item(alloc, name, text)?;
    let written = write_script(alloc, &script, ALL);
    drop(script);
    Ok(written.is_err_and(|bad| bad == WriteBad::Unreadable))
}

#[test]
fn refuses_what_is_not_read_again(rt: HostRuntime) -> Result<(), Fail> {
    assert!(rt; !is_unreadable(rt.alloc(), "a", "BEGIN")?);
    assert!(rt; is_unreadable(rt.alloc(), "a b", "BEGIN")?);
    for text in "BEGIN;|SELECT 'a|BEGIN -- now| BEGIN|".split("|") {
        assert!(rt; is_unreadable(rt.alloc(), "a", text)?, "after {text}");
    }
    Ok(())
}

/// The line at which a text is no script, 0 where it is one, and 1,000 times the number of a limit that it passes.
fn bad_line(alloc: Global, text: &[u8], allowed: Directives) -> u32 {
    match read_script(alloc, text, allowed) {
        Ok(_) => 0,
        Err(ScriptBad::Line { line }) => line,
        Err(ScriptBad::Limit { what, .. }) => 1000 * u32::from(what),
        Err(ScriptBad::NoMemory) => u32::MAX,
    }
}

/// Texts that are scripts, or bad at their first, second or third line. A bar stands between two.
const GOOD: &str = "BEGIN|@session a|@session a1234567890123456789012345678901\n";

const BAD_AT_ONCE: &str =
    "@session setup\n|@session a b\n|@session  a\n|@session \n|@session a\t\n|@session a\r|@session a;\n|@session a12345678901234567890123456789012\n";

const BAD_AT_TWO: &str =
    "BEGIN;\n/* ; \n|@session a\n@signal go\n|@session a\n@tick 1\n|@session a\n@purge\n";

const BAD_AT_THREE: &str = "BEGIN;\n\n@sesion a\n|BEGIN;\nSELECT\n'a\n;|`a\n`;\n\"a\\\";";

/// The same where signals and ticks are allowed.
const BAD_WITH_TICKS: &str = "@signal go\n|@await go\n|@tick 123456\n|@tick -1\n";

#[test]
fn finds_the_first_bad_line(rt: HostRuntime) -> Result<(), Fail> {
    for (texts, allowed, line) in [
        (GOOD, STATEMENTS, 0),
        (BAD_AT_ONCE, STATEMENTS, 1),
        (BAD_AT_TWO, STATEMENTS, 2),
        (BAD_AT_THREE, STATEMENTS, 3),
        (BAD_WITH_TICKS, ALL, 1),
        ("@session a\n@await go\n@purge\n", ALL, 3),
    ] {
        for text in texts.split("|") {
            let found = bad_line(rt.alloc(), text.as_bytes(), allowed);
            assert_eq!(rt; found, line, "after {text}");
        }
    }
    Ok(())
}

/// Where so many times the text and then an end are no script.
fn bad_line_of_many(alloc: Global, text: &str, times: u32, end: &str) -> Result<u32, AllocError> {
    let mut all = Vec::new(alloc);
    for _ in 0..times {
        all.extend_from_slice(text.as_bytes())?;
    }
    all.extend_from_slice(end.as_bytes())?;
    Ok(bad_line(alloc, &all, STATEMENTS))
}

/// Texts, how often each is repeated, what stands behind, and where that is no script.
const LIMITS: [(&str, u32, &str, u32); 8] = [
    ("x", 4096, " \n;", 0),
    ("x", 4097, " \n;", 3000),
    ("x ", 2048, ";", 0),
    ("x ", 2048, "y;", 3000),
    ("x ", 2048, "'y;", 1),
    ("x;", 100_000, ";;", 0),
    ("x;", 100_000, "y;\n@sesion a", 2000),
    ("x;", 100_000, "'y;", 1),
];

/// Where a line for each of so many sessions is no script.
fn bad_line_of_sessions(alloc: Global, count: u32) -> Result<u32, AllocError> {
    let mut lines = String::new(alloc);
    for number in 0..count {
        writeln!(lines, "@session s{number}")?;
    }
    Ok(bad_line(alloc, lines.as_bytes(), STATEMENTS))
}

#[test]
fn keeps_to_limits(rt: HostRuntime) -> Result<(), Fail> {
    for (text, times, end, wanted) in &LIMITS {
        let found = bad_line_of_many(rt.alloc(), text, *times, end)?;
        assert_eq!(rt; found, *wanted, "{times} times {text} and {end}");
    }
    assert_eq!(rt; bad_line_of_sessions(rt.alloc(), 64)?, 0);
    assert_eq!(rt; bad_line_of_sessions(rt.alloc(), 65)?, 1000);
    Ok(())
}
