//! Standard streams that are closed as the program begins. A file that is opened takes the lowest number that is free; were that the
//! number of a stream, what is printed would go into a file of the database. So such numbers are taken before any file is opened.

use std::fs::File;

/// Files that take no part in anything. They have the numbers of the streams that are closed, so that printing there fails.
#[derive(Drop)]
pub struct Places {
    first: Option<File>,
    second: Option<File>,
    third: Option<File>,
}

impl Places {
    /// Takes the numbers of up to three streams. Where they are all open, the files have numbers of their own.
    pub fn take(rt: &HostRuntime) -> Places {
        Places {
            first: File::open(rt, "/dev/null").ok(),
            second: File::open(rt, "/dev/null").ok(),
            third: File::open(rt, "/dev/null").ok(),
        }
    }
}
