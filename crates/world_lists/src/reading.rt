//! The parts of searches: how a reader sees rows, and a whole search of the newest rows.
//! `steps` alone calls these, for the search of one session.

ghost use Rattle.std.specs.Prelude.{◌≡◌, ◌≢◌, ℕ, ◌<◌, ◌≤◌, true, false, length, map, IfOk, IfSome, OnOk, Some};
ghost use Rattle.store_api.specs.declared.stepped.Stepped.TheVariants.{Went, Done, Hindered};
ghost use Rattle.shared_lists.specs.declared.answers.Hindrance.TheVariants as lists;
ghost use Rattle.row_versions.specs.Chains.{Chains};
ghost use Rattle.world.specs.State.{Session, IsSession};
ghost use Rattle.desks.specs.Desks.{is_quiet};
ghost use Rattle.desks.specs.Holding.{IsOwnView};
ghost use Rattle.law_held_steps.specs.Begun.{HasView};
ghost use Rattle.law_held_steps.specs.Leaving.{MovesPlaces};
ghost use Rattle.law_held_steps.specs.Begun.{TellsTable, AreRead};
ghost use Rattle.law_held_steps.specs.Begun.{MayStep, ComesAnew};

use desks::{Desk, Doing};
use inno_types::{Ids, Rows, Schema};
use read_view::ReadView;
use row_search::{Came, FoundRow, Hindrance, RowSearch, Sight};
use shared_lists::{Reading, Searched};
use sql_plan::Plan;
use std::alloc::Global;
use store_api::{Move, NoMemory, Stepped};
use world::EngineWorld;

/// Whether no change of a row is under way, so that all keys say what is there.
pub fn is_quiet(writer: Option<u32>, desks: &[Desk]) -> bool
    requires { IfSome writer (λ w. w < length desks.now) }
    ensures { result ≡ is_quiet writer desks.now }
{
    match writer {
        Some(w) => matches!(
            &desks[w as usize].doing,
            Doing::Nothing | Doing::Searching(_)
        ),
        None => true,
    }
}

/// How a session sees rows by the view of its transaction.
fn own_sight<W: EngineWorld>(alloc: Global, world: &W, session: u32) -> Result<Sight, NoMemory>
    requires { HasView session (W.state world.now) }
    ensures { IfOk result (λ sight. (view : _) × (reader : _) × (sight ≡ Sight.View view reader) × IsOwnView (W.state world.now) session view reader) }
{
    let mut active = Ids::new(alloc);
    match world.view(session, &mut active)? {
        // some id was the next one when it was taken
        Some(next) if next > 0 => {
            let view = ReadView::take(alloc, &active, 0, next)?;
            let own = world.session(session).id;
            Ok(Sight::View { view, own })
        }
        _ => Err(NoMemory),
    }
}

/// How a session sees rows that reads so.
pub fn sight_by<W: EngineWorld>(
    alloc: Global,
    world: &W,
    session: u32,
    reading: Reading,
) -> Result<Sight, NoMemory>
    requires { reading ≡ Reading.View → HasView session (W.state world.now) }
    ensures view { reading ≡ Reading.View → IfOk result (λ sight. (view : _) × (reader : _) × (sight ≡ Sight.View view reader) × IsOwnView (W.state world.now) session view reader) }
    ensures newest { reading ≡ Reading.Newest → IfOk result (λ sight. sight ≡ Sight.Newest) }
{
    match reading {
        Reading::View => own_sight(alloc, world, session),
        Reading::Newest => Ok(Sight::Newest),
    }
}

/// The search comes to its pair anew where older versions were dropped.
pub fn take_up(search: &mut RowSearch, is_anew: bool)
    ensures as_it_was { is_anew ≡ false → search.new ≡ search.old }
    ensures anew { is_anew ≡ true → ComesAnew search.old search.new }
{
    if is_anew {
        search.come_anew();
    }
}

/// The rows that were found.
pub fn rows_of(alloc: Global, found: Vec<FoundRow>) -> Result<Rows, NoMemory>
    ensures { IfOk result (λ rows. rows ≡ map (λ f. f.row) found.items) }
{
    let mut rows = Vec::new(alloc);
    for FoundRow { row, .. } in found {
        rows.push(row)?;
    }
    Ok(Rows::from_vec(rows))
}

/// What a search that is over answers.
pub fn found_rows(alloc: Global, found: Vec<FoundRow>) -> Searched
    ensures rows { (rows : _) → result ≡ Done rows → rows ≡ map (λ f. f.row) found.items }
    ensures over { result ≢ Went }
    ensures hindered { (why : _) → result ≡ Hindered why → why ≡ lists.NoMemory }
{
    match rows_of(alloc, found) {
        Ok(rows) => Stepped::Done(rows),
        Err(_) => Stepped::Hindered(shared_lists::Hindrance::NoMemory),
    }
}

/// A whole search of the newest rows of a table.
pub fn newest_rows<W: EngineWorld>(
    alloc: Global,
    world: &mut W,
    session: u32,
    table: u8,
    plan: Plan,
    schema: &Schema,
) -> Result<Vec<FoundRow>, NoMemory>
    requires { (chains : Chains) × TellsTable chains table plan schema.now (W.state world.old) }
    ensures moves { MovesPlaces session (W.state world.old) (W.state world.new) }
    ensures found { IfOk result (λ rows. (chains : Chains) → TellsTable chains table plan schema.now (W.state world.old) → AreRead chains table plan schema.now (W.state world.old) rows.items) }
{
    let mut search = RowSearch::new(alloc, table, plan, Sight::Newest);
    'reading: loop {
        match search.advance(alloc, world, session, schema) {
            Came::Went => {}
            Came::Done(found) => {
                drop(search);
                return Ok(found);
            }
            Came::Hindered(hindrance) => match hindrance {
                Hindrance::Call(why) => match why {
                    Move::NoMemory => return Err(give_up(world, session, search, schema)),
                    _ => unreachable!(),
                },
                Hindrance::Malformed => unreachable!(),
            },
        }
    }
}

/// Leaves the index that was searched.
fn give_up<W: EngineWorld>(
    world: &mut W,
    session: u32,
    search: RowSearch,
    schema: &Schema,
) -> NoMemory
    requires { MayStep session schema.now (W.state world.old) search }
    ensures { MovesPlaces session (W.state world.old) (W.state world.new) }
{
    search.give_up(world, session, schema);
    NoMemory
}
