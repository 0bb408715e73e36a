//! The history's entry of a change, and the id that its transaction has from its first one on.
//! `record_change` alone calls it, when the record is in place; the room for the entry was taken before.

ghost use Rattle.std.specs.Prelude.{◌≡◌, true, OnOk, IsOk};
ghost use Rattle.world.specs.State.{Session, Work, IsSession, HasWork};
ghost use Rattle.world.specs.Sessions.{change_added};
ghost use Rattle.row_changes.specs.Records.{IsListed};
ghost use Rattle.row_changes.specs.Edits.{change_of, rows_put};
ghost use Rattle.row_changes.specs.Entering.{Enters, GivesId};

use crate::row_edit::RowEdit;
use store_api::NoMemory;
use world::World;

/// Enters what has become of a row. The history has room for it.
pub fn enter<W: World>(world: &mut W, s: u32, table: u8, edit: RowEdit)
    requires { (session : Session) × (work : Work) × HasWork s session work (W.state world.old) × IsListed s work (W.state world.old) × (session.can_change ≡ true) }
    ensures { (session : Session) (work : Work) → HasWork s session work (W.state world.old) → Enters s (change_of table edit) (rows_put edit) session work (W.state world.old) (W.state world.new) }
{
    give_id(world, s);
    match add(world, s, table, edit) {
        Ok(()) => {}
        Err(_) => unreachable!(),
    }
}

/// Adds the history's entry.
fn add<W: World>(world: &mut W, s: u32, table: u8, edit: RowEdit) -> Result<(), NoMemory>
    requires { (session : Session) × (work : Work) × HasWork s session work (W.state world.old) }
    ensures ok { OnOk result ((session : Session) (work : Work) → HasWork s session work (W.state world.old) → W.state world.new ≡ change_added s (change_of table edit) (rows_put edit) session work (W.state world.old)) }
    ensures sure { (session : Session) → IsSession s session (W.state world.old) → session.can_change ≡ true → IsOk result }
{
    match edit {
        RowEdit::Put(row) => world.add_put(s, table, row),
        RowEdit::Remove(key) => world.add_remove(s, table, key),
    }
}

/// Gives the session's transaction its id, where it has none.
fn give_id<W: World>(world: &mut W, s: u32)
    requires { (session : Session) × (work : Work) × HasWork s session work (W.state world.old) × IsListed s work (W.state world.old) }
    ensures { (session : Session) (work : Work) → HasWork s session work (W.state world.old) → GivesId s session work (W.state world.old) (W.state world.new) }
{
    let standing = world.session(s);
    if standing.id != 0 {
        return;
    }
    if let Some(txn) = standing.txn {
        let _ = world.give_id(txn);
    }
}
