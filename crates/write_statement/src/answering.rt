//! A statement that knows enough rows of its table asks what its part does to them.
//! `searching` comes here with the rows that it found; the other steps refuse and give up by these functions.

ghost use Rattle.std.specs.Prelude.{◌≡◌, ◌<◌, ◌+◌, ◌*◌, ℕ, [], length};
ghost use Rattle.shared_lists.specs.Tasks.{Idle};
ghost use Rattle.shared_lists.specs.State.{task_of};
ghost use Rattle.sql_lists.specs.Steps.{Steps};
ghost use Rattle.sql_lists.specs.Going.{left};
ghost use Rattle.write_statement.specs.Going.{IsNearer, advance_for};
ghost use Rattle.write_statement.specs.Parts.{of_part};
ghost use Rattle.write_statement.specs.Running.{IsChanging, AreEnough, IsRunning};
ghost use Rattle.giving_up.specs.Leaving.{given_up, given_up_for};

use crate::machine::{Part, WriteStatement};
use crate::settling::{Settled, settle};
use giving_up::{Leaving, Work, reply_for};
use inno_types::{Reply, Rows};
use shared_lists::{Hindrance, SharedLists};
use sql_lists::{Advance, SqlLists};
use std::alloc::Global;

/// The part's reply and changes are known. One that is refused makes none of its changes, and those of the tuples before it are
/// taken back. Who may write meets no lock amid an UPDATE or DELETE, so what refuses one is all known here. Where each row was
/// locked only as its change comes, it would make the changes before its refusal and take them back.
pub fn answer<L: SharedLists>(
    alloc: Global,
    part: Part,
    rows: &Rows,
    session: u32,
    lists: &SqlLists<L>,
) -> (WriteStatement, Advance)
    requires changing { IsChanging lists.now.past lists.now.writer session part (of_part part) [] }
    requires idle { task_of session lists.now ≡ Idle }
    requires enough { AreEnough session part.stmt rows.now lists.now.past }
    ensures steps { Steps IsRunning session lists.now lists.now result.0 result.1 }
    ensures nears { (phases : ℕ) → 4 + 2 * length part.later.items < phases → (first second third : ℕ) → IsNearer (left phases first second third) session lists.now result.0 result.1 }
{
    match settle(alloc, lists.schemas(), part.table, rows, part.stmt.get()) {
        Ok(Settled::Todo(todo)) => (WriteStatement::Changing { part, todo }, Advance::Went),
        Ok(Settled::Refused { kept, given }) => (refuse(part, kept, given), Advance::Went),
        Err(_) => give_up(part),
    }
}

/// What was made of the whole statement is to be taken back.
pub fn refuse(part: Part, kept: Reply, given: Reply) -> WriteStatement
    ensures { result ≡ WriteStatement.Leaving (Leaving.BackingOut (record { alone = part.alone; before = part.before; kept = kept; given = given })) }
{
    let work = Work {
        alone: part.alone,
        before: part.before,
        kept,
        given,
    };
    drop(part);
    WriteStatement::Leaving(Leaving::BackingOut(work))
}

/// No memory was found, or no room.
pub fn give_up(part: Part) -> (WriteStatement, Advance)
    ensures state { result.0 ≡ WriteStatement.Leaving (Leaving.BackingOut (given_up part.alone part.before)) }
    ensures answer { result.1 ≡ Advance.NoMemory }
{
    let (alone, before) = (part.alone, part.before);
    drop(part);
    give_up_at(alone, before)
}

/// A change was hindered: what was made of the whole statement is to be taken back, and the reply names what was lacking.
pub fn give_up_for(why: Hindrance, part: Part) -> (WriteStatement, Advance)
    ensures state { result.0 ≡ WriteStatement.Leaving (Leaving.BackingOut (given_up_for why part.alone part.before)) }
    ensures answer { result.1 ≡ advance_for why }
{
    let answer = match why {
        Hindrance::NoMemory => Advance::NoMemory,
        Hindrance::Full { .. } | Hindrance::TooDeep => Advance::Went,
    };
    (refuse(part, reply_for(why), reply_for(why)), answer)
}

/// No memory was found, where no part is at work.
pub fn give_up_at(alone: bool, before: usize) -> (WriteStatement, Advance)
    ensures state { result.0 ≡ WriteStatement.Leaving (Leaving.BackingOut (given_up alone before)) }
    ensures answer { result.1 ≡ Advance.NoMemory }
{
    let work = Work::given_up(alone, before);
    (
        WriteStatement::Leaving(Leaving::BackingOut(work)),
        Advance::NoMemory,
    )
}
