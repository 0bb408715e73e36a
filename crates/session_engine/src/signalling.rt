//! Items that are no statements: one gives a signal, another waits until one was given. A signal stays for good.
//! Only the sessions' steps make use of it.

ghost use Rattle.std.specs.Prelude.{◌≡◌, ◌<◌, length};
ghost use Rattle.std.specs.List.{list_any};
ghost use Rattle.shared_lists.specs.Tasks.{Idle as TaskIdle};
ghost use Rattle.shared_lists.specs.State.{task_of};
ghost use Rattle.session_engine.specs.Signals.{AreSpent, gives};
ghost use Rattle.session_engine.specs.Seats.{HasAsked};
ghost use Rattle.session_engine.specs.Calls.{EndsSignal, Signals};
ghost use Rattle.inno_types.specs.declared.reply.Reply.TheVariants.{NoMemory as NoMemoryReply};

use crate::seats::{Seat, SignalItem, Wait};
use inno_model::Event;
use inno_types::{Bytes, Reply};
use shared_lists::SharedLists;
use sql_lists::SqlLists;
use store_api::{LONGEST_WAIT, Progress};

/// A step of an item that gives a signal or awaits one, at a moment.
pub fn signal<L: SharedLists>(
    s: u32,
    item: SignalItem,
    now: u64,
    lists: &mut SqlLists<L>,
) -> (Seat, Progress)
    requires joined { s < length lists.old.names }
    requires asked { HasAsked s item lists.old.past }
    requires spent { AreSpent lists.old.past }
    requires idle { task_of s lists.old ≡ TaskIdle }
    ensures { Signals s now item lists.old lists.new result.0 result.1 }
{
    match item {
        SignalItem::Gives(name) => give(s, name, lists),
        SignalItem::Awaits(wait) => look(s, wait, now, lists),
    }
}

/// Gives the signal, and ends the item.
fn give<L: SharedLists>(s: u32, name: Bytes, lists: &mut SqlLists<L>) -> (Seat, Progress)
    requires joined { s < length lists.old.names }
    requires asked { HasAsked s (SignalItem.Gives name) lists.old.past }
    requires spent { AreSpent lists.old.past }
    requires idle { task_of s lists.old ≡ TaskIdle }
    ensures { Signals s 0 (SignalItem.Gives name) lists.old lists.new result.0 result.1 }
{
    let _ = lists.history();
    let Ok(given) = name.copied() else {
        return give_none(s, name, lists);
    };
    if lists.signal(s, given).is_err() {
        return give_none(s, name, lists);
    }
    lists.end_signal(s);
    (Seat::Idle, Progress::Done(Reply::Done))
}

/// Ends the item, for which no memory was found: the signal isn't given.
fn give_none<L: SharedLists>(s: u32, name: Bytes, lists: &mut SqlLists<L>) -> (Seat, Progress)
    requires joined { s < length lists.old.names }
    requires asked { HasAsked s (SignalItem.Gives name) lists.old.past }
    requires idle { task_of s lists.old ≡ TaskIdle }
    ensures ends { EndsSignal s NoMemoryReply lists.old lists.new }
    ensures seat { result.0 ≡ Seat.Idle }
    ensures answer { result.1 ≡ Progress.Done NoMemoryReply }
{
    drop(name);
    lists.end(s, Reply::NoMemory);
    (Seat::Idle, Progress::Done(Reply::NoMemory))
}

/// Looks for the signal among the entries that have come since the last look. Where it isn't there, the item waits on, for as
/// long as it may.
fn look<L: SharedLists>(s: u32, wait: Wait, now: u64, lists: &mut SqlLists<L>) -> (Seat, Progress)
    requires joined { s < length lists.old.names }
    requires asked { HasAsked s (SignalItem.Awaits wait) lists.old.past }
    requires idle { task_of s lists.old ≡ TaskIdle }
    ensures { Signals s now (SignalItem.Awaits wait) lists.old lists.new result.0 result.1 }
{
    let entries = lists.history().events();
    let seen = entries.len();
    if any_gives(&entries[wait.seen..], wait.name.as_slice()) {
        lists.end_signal(s);
        return (Seat::Idle, Progress::Done(Reply::Done));
    }
    let since = wait.since.unwrap_or(now);
    let waited = now.saturating_sub(since);
    if waited >= LONGEST_WAIT {
        lists.end(s, Reply::NotSignalled { waited });
        return (Seat::Idle, Progress::Done(Reply::NotSignalled { waited }));
    }
    let later = Wait {
        name: wait.name,
        seen,
        since: Some(since),
    };
    (
        Seat::Signalling(SignalItem::Awaits(later)),
        Progress::NotYet,
    )
}

/// Whether one of the entries gives the signal.
fn any_gives(entries: &[Event], name: &[u8]) -> bool
    ensures { result ≡ list_any (gives name.now) entries.now }
{
    entries.iter().any(|entry| gives(entry, name))
}

fn gives(entry: &Event, name: &[u8]) -> bool
    ensures { result ≡ gives name.now entry.now }
{
    match entry {
        Event::Signal { name: given } => given.as_slice() == name,
        _ => false,
    }
}
