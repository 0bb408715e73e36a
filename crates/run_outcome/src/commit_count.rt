//! The commits of a history, those of the setup part left out.
//! `line` alone asks; a history is only read here.

ghost use Rattle.std.specs.Prelude.{◌≡◌, nat_lt};
ghost use Rattle.std.specs.List.{count_by};
ghost use Rattle.run_outcome.specs.Report.{is_commit, count_commits};

use inno_model::{Event, History};

/// How many transactions the sessions behind the setup part have committed.
pub(crate) fn count_commits(history: &History) -> u64
    ensures { result ≡ count_commits history.now.past }
{
    let events = history.events();
    count_in(events) as u64
}

fn count_in(events: &[Event]) -> usize
    ensures { result ≡ count_by is_commit events.now }
{
    let mut count = 0;
    for event in events {
        if is_commit(event) {
            count += 1;
        }
    }
    count
}

fn is_commit(event: &Event) -> bool
    ensures { result ≡ is_commit event.now }
{
    match event {
        Event::Committed { s } => *s > 0,
        _ => false,
    }
}
