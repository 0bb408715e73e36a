//! Latches, as those who work on pages ask for them. Memory is ample here.
//! Only `latch_table` is tried: there are no pages here.

ghost use Rattle.std.specs.Prelude.{◌<◌};

use inno_types::Mode;
use latch_table::{LatchTable, Latched, Latches, Target};
use std::process::Abort;
use std::test::Fail;

const PAGE: Target = Target::Page(30);

fn ask(rt: &impl Abort, table: &mut LatchTable, actor: u32, mode: Mode) -> Latched
    requires { actor < 71 }
{
    assert!(rt; table.held_by(actor).len() < 64);
    table.try_latch(actor, PAGE, mode)
}

#[test]
fn readers_share_a_page_and_a_writer_has_it_alone(rt: HostRuntime) -> Result<(), Fail> {
    let mut table = LatchTable::new(rt.alloc())?;
    let together = [
        ask(&rt, &mut table, 1, Mode::S),
        ask(&rt, &mut table, 2, Mode::S),
        ask(&rt, &mut table, 3, Mode::X),
    ];
    table.release(1, PAGE);
    table.release(2, PAGE);
    let alone = [
        ask(&rt, &mut table, 3, Mode::X),
        ask(&rt, &mut table, 1, Mode::S),
    ];
    let held = table.held_by(3).as_slice() == [PAGE].as_slice();
    drop(table);
    assert_eq!(rt;
        together,
        [Latched::Granted, Latched::Granted, Latched::Held { by: 1 }]
    );
    assert_eq!(rt; alone, [Latched::Granted, Latched::Held { by: 3 }]);
    assert!(rt; held);
    Ok(())
}
