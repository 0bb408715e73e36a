//! A crash at each moment of a run, with each of the images that a crash may leave: what the files hold then.
//! The disk in memory tells what each crash may leave; no file is touched.

use crate::program::{Ran, SCRIPT, acknowledged, held, made, played};
use disk_mem::{MemDisk, Pick};
use inno_types::Ids;
use script_runner::Fault;
use std::alloc::Global;
use std::process::Abort;
use std::sync::Wait;
use std::test::Fail;
use std::thread::Threads;
use std::time::Clock as Timer;
use store_api::Disk;

/// The image of a moment holds the first so many commits, with all that were acknowledged by then, and still does after it
/// was opened, and opened again.
fn opens_again<R: Abort + Threads + Wait + Timer + Sync>(
    rt: &R,
    alloc: Global,
    disk: &MemDisk,
    moment: u64,
    pick: Pick,
    least: usize,
) -> Result<usize, Fail> {
    assert!(rt; moment <= disk.moment());
    let image = disk.image(moment, pick)?;
    let (first, image) = held(rt, alloc, image)?;
    let (second, image) = held(rt, alloc, image)?;
    drop(image);
    assert_eq!(rt; first, second, "at {moment}");
    let Some(count) = first else {
        assert!(rt; first.is_some(), "no database at {moment}");
        return Ok(0);
    };
    assert!(rt;
        least <= count,
        "{count} of {least} acknowledged at {moment}"
    );
    Ok(count)
}

#[test]
fn a_crash_at_any_moment_leaves_a_prefix_of_the_commits(rt: HostRuntime) -> Result<(), Fail> {
    let alloc = rt.alloc();
    let files = made(&rt, alloc, MemDisk::new(alloc, Ids::new(alloc))?)?;
    assert_eq!(rt; files.fault, Fault::Nothing);
    let Ran {
        fault: _,
        status: _,
        history: _,
        printed: _,
        disk,
    } = files;
    let begun = disk.moment();
    let Ran {
        fault,
        status: _,
        history,
        printed: _,
        disk,
    } = played(&rt, alloc, disk, SCRIPT)?;
    assert_eq!(rt; fault, Fault::Nothing);
    assert_eq!(rt; acknowledged(&history, disk.moment()), 4);
    let mut lost = 0;
    let mut kept = 0;
    for moment in begun..disk.moment().saturating_add(1) {
        let least = acknowledged(&history, moment);
        let now_lost = opens_again(&rt, alloc, &disk, moment, Pick::Lost, least)?;
        let torn = opens_again(&rt, alloc, &disk, moment, Pick::Torn, least)?;
        let now_kept = opens_again(&rt, alloc, &disk, moment, Pick::Kept, least)?;
        assert!(rt;
            lost <= now_lost && now_lost <= torn && torn <= now_kept && kept <= now_kept,
            "at {moment}"
        );
        lost = now_lost;
        kept = now_kept;
    }
    drop(history);
    drop(disk);
    assert_eq!(rt; [lost, kept], [4, 4]);
    Ok(())
}
