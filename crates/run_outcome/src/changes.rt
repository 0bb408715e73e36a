//! Changes of a database that were not looked at before.
//! `commits` and `copies` alone make them, of a database that is being built and that nobody else has.

ghost use Rattle.std.specs.Prelude.{◌≡◌, OnOk};
ghost use Rattle.inno_db.specs.Changes.{apply_one};
ghost use Rattle.inno_model.specs.Past.{changed};

use inno_db::{Change, Db};
use std::alloc::Global;
use store_api::NoMemory;

/// Makes the changes, the last of them first. One that can't be made is answered as out of memory.
pub(crate) fn make_from_back(
    alloc: Global,
    db: &mut Db,
    changes: Vec<Change>,
) -> Result<(), NoMemory>
    ensures { OnOk result (db.new ≡ changed db.old changes.items) }
{
    let mut left = changes;
    while let Some(change) = left.pop() {
        make_change(alloc, db, change)?;
    }
    Ok(())
}

/// Makes a change of a table that is there, or another table where there is room for one.
fn make_change(alloc: Global, db: &mut Db, change: Change) -> Result<(), NoMemory>
    ensures { OnOk result (db.new ≡ apply_one db.old change) }
{
    if !db.can_apply(&change) {
        return Err(NoMemory);
    }
    db.apply(alloc, change)?;
    Ok(())
}
