//! One session's statements, each until it is answered.
//! Nothing here knows the database that the sessions were opened on.

ghost use Rattle.std.specs.Prelude.{◌≡◌};
ghost use Rattle.session_engine.specs.Seats.{IsWorking};
ghost use Rattle.tests_engine.specs.Alone.{IsAlone};

use inno_types::{Bytes, Item, Reply, Value};
use session_engine::SessionEngine;
use shared_lists::SharedLists;
use std::alloc::Global;
use store_api::{NoMemory, Progress};

/// The most steps that a statement of the tests makes.
const MOST_STEPS: u32 = 100_000;

/// What a statement was answered, with the sum of the numbers in the second column of its rows.
#[derive(Clone, Copy, Debug, PartialEq, Eq)]
pub enum Answer {
    Done,
    Count(u64),
    Rows { count: u64, sum: i64 },
    Refused(u16),
    Nothing,
}

/// A step of the only session's statement. A commit is acknowledged by a step of its own; here each is at moment 0.
#[tactic(auto, using(crate::proofs::Alone::alone_step, crate::proofs::Alone::alone_acknowledged))]
fn step<L: SharedLists>(engine: &mut SessionEngine<L>) -> Progress
    requires alone { IsAlone engine.old }
    requires working { IsWorking 0 engine.old }
    ensures alone { IsAlone engine.new }
    ensures works { result ≡ Progress.Went → IsWorking 0 engine.new }
{
    if engine.owes_ack(0) {
        engine.acknowledge(0, 0);
        return Progress::Went;
    }
    engine.step(0, 0)
}

/// The answer of the only session to a statement.
#[tactic(auto, using(crate::proofs::Alone::is_idle, crate::proofs::Alone::alone_started, crate::proofs::Alone::alone_same))]
pub fn asked<L: SharedLists>(
    alloc: Global,
    engine: &mut SessionEngine<L>,
    text: &str,
) -> Result<Answer, NoMemory>
    requires { IsAlone engine.old }
    ensures { IsAlone engine.new }
{
    if engine.is_working(0) || engine.left(0) {
        return Ok(Answer::Nothing);
    }
    let text = Bytes::from_vec(Vec::from_slice(alloc, text.as_bytes())?);
    engine.start(0, &Item::Sql(text))?;
    for _ in 0..MOST_STEPS {
        match step(engine) {
            Progress::Went => (),
            Progress::Done(reply) => return Ok(answer_of(&reply)),
            Progress::Latch { .. }
            | Progress::Waiting { .. }
            | Progress::NotYet
            | Progress::Idle
            | Progress::Stopped(_)
            | Progress::NoMemory => return Ok(Answer::Nothing),
        }
    }
    Ok(Answer::Nothing)
}

fn answer_of(reply: &Reply) -> Answer {
    match reply {
        Reply::Done => Answer::Done,
        Reply::Count(count) => Answer::Count(*count),
        Reply::Rows(rows) => Answer::Rows {
            count: rows.len() as u64,
            sum: sum_of(rows),
        },
        Reply::Fail(error) => Answer::Refused(error.code()),
        Reply::RunLimit { .. } | Reply::NotSignalled { .. } | Reply::Stopped | Reply::NoMemory =>
            Answer::Nothing,
    }
}

fn sum_of(rows: &inno_types::Rows) -> i64 {
    let mut sum = 0i64;
    for row in rows.as_slice() {
        if let Some(Value::Int(number)) = row.as_slice().get(1) {
            sum = sum.wrapping_add(*number);
        }
    }
    sum
}
