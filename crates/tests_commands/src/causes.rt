//! The line that is said of a fault on standard error.
//! No command runs here: each fault is made up.

use script_runner::{Fault, cause_line};
use std::test::Fail;

#[test]
fn each_cause_has_its_line(rt: HostRuntime) -> Result<(), Fail> {
    let cases = [
        (
            Fault::ScriptBad { line: 3 },
            "s.sql, line 3: no directive, or a text, a quoted name or a comment that does not end",
        ),
        (Fault::ScriptRead, "s.sql: cannot be read"),
        (Fault::OutputWrite, "standard output: cannot be written"),
        (
            Fault::DiskFault,
            "base: one of the files .log, .dbl and .pag cannot be read, written or synced",
        ),
        (
            Fault::Limit {
                what: 1,
                found: 65,
                most: 64,
            },
            "s.sql: 65 sessions, at most 64",
        ),
        (
            Fault::Limit {
                what: 5,
                found: 1_000_001,
                most: 1_000_000,
            },
            "base: 1000001 rows, at most 1000000",
        ),
        (Fault::NoMemory, "not enough memory"),
    ];
    for (fault, line) in cases {
        let told = cause_line(rt.alloc(), fault, "base", "s.sql")?;
        assert_eq!(rt; told.as_str(), line);
    }
    Ok(())
}
