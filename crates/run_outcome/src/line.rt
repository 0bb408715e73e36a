//! The line that tells what a generated script has done.
//! `reports` prints it when such a script was played; a history is only read here.

ghost use Rattle.std.specs.Prelude.{◌≡◌, ◌<◌, ◌≤◌, ◌*◌, ◌^◌, IfOk};
ghost use Rattle.std.specs.String.{string_bytes};
ghost use Rattle.inno_db.specs.Keyed.{IsKeyed};
ghost use Rattle.inno_model.specs.Past.{opening};
ghost use Rattle.run_outcome.specs.Replay.{OpensOnce};
ghost use Rattle.run_outcome.specs.Report.{report_text};

use crate::commit_count::count_commits;
use crate::replayed_db;
use crate::total::total_of;
use inno_model::History;
use std::alloc::Global;
use store_api::NoMemory;

/// The line of a history of so many sessions with so many transactions each. Where rows at the opening don't stand at their
/// keys, nothing is said of it.
pub fn report(
    alloc: Global,
    history: &History,
    sessions: u32,
    transfers: u32,
) -> Result<String, NoMemory>
    requires { OpensOnce history.now.past }
    ensures { IfOk result (λ line. IsKeyed (opening history.now.past) → string_bytes line ≡ report_text sessions transfers history.now.past) }
{
    let db = replayed_db(alloc, history)?;
    let total = total_of(&db);
    drop(db);
    let total = total?;
    let committed = count_commits(history);
    let transactions = u64::from(sessions) * u64::from(transfers);
    let line = format!(in alloc;
        "sessions {sessions} transactions {transactions} committed {committed} total {total}\n"
    )?;
    Ok(line)
}
