//! A script in memory, and why bytes are none.
//! Whoever reads, writes or plays scripts takes these types from here.

ghost use Rattle.std.specs.Prelude.{◌≡◌};
ghost use Rattle.std.specs.Bool.{MatchBool};

use inno_types::{Bytes, Item, Listed};
use std::alloc::AllocError;

/// An item, and the number of the session to which it belongs.
#[derive(Drop)]
pub struct ScriptItem {
    pub s: u32,
    pub item: Item,
}

/// So many seconds pass behind the first items of the script.
#[derive(Clone, Copy, PartialEq, Eq)]
pub struct Tick {
    pub items: usize,
    pub seconds: u32,
}

/// The names of the sessions, in order of their first line behind the setup part's, the items of all of them, and
/// where time passes.
#[derive(Drop)]
pub struct Script {
    pub names: Listed<Bytes>,
    pub items: Listed<ScriptItem>,
    pub ticks: Listed<Tick>,
}

impl Script {
    /// Whether two scripts are the same.
    pub fn is_same(&self, other: &Script) -> bool
        ensures { MatchBool result (self.now ≡ other.now) (self.now ≡ other.now → ⊥) }
    {
        if !same_names(self.names.as_slice(), other.names.as_slice()) {
            return false;
        }
        if !same_items(self.items.as_slice(), other.items.as_slice()) {
            return false;
        }
        same_ticks(self.ticks.as_slice(), other.ticks.as_slice())
    }
}

fn same_names(names: &[Bytes], others: &[Bytes]) -> bool
    ensures { MatchBool result (names.now ≡ others.now) (names.now ≡ others.now → ⊥) }
{
    if names.len() != others.len() {
        return false;
    }
    for (i, name) in names.iter().enumerate() {
        if !same_bytes(name, &others[i]) {
            return false;
        }
    }
    true
}

fn same_bytes(bytes: &Bytes, other: &Bytes) -> bool
    ensures { MatchBool result (bytes.now ≡ other.now) (bytes.now ≡ other.now → ⊥) }
{
    bytes.as_slice() == other.as_slice()
}

fn same_items(items: &[ScriptItem], others: &[ScriptItem]) -> bool
    ensures { MatchBool result (items.now ≡ others.now) (items.now ≡ others.now → ⊥) }
{
    if items.len() != others.len() {
        return false;
    }
    for (i, item) in items.iter().enumerate() {
        if !item.is_same(&others[i]) {
            return false;
        }
    }
    true
}

fn same_ticks(ticks: &[Tick], others: &[Tick]) -> bool
    ensures { MatchBool result (ticks.now ≡ others.now) (ticks.now ≡ others.now → ⊥) }
{
    if ticks.len() != others.len() {
        return false;
    }
    for (i, tick) in ticks.iter().enumerate() {
        if !same_tick(*tick, others[i]) {
            return false;
        }
    }
    true
}

fn same_tick(tick: Tick, other: Tick) -> bool
    ensures { MatchBool result (tick ≡ other) (tick ≡ other → ⊥) }
{
    tick.items == other.items && tick.seconds == other.seconds
}

impl ScriptItem {
    fn is_same(&self, other: &ScriptItem) -> bool
        ensures { MatchBool result (self.now ≡ other.now) (self.now ≡ other.now → ⊥) }
    {
        self.s == other.s && same_item(&self.item, &other.item)
    }
}

fn same_item(item: &Item, other: &Item) -> bool
    ensures { MatchBool result (item.now ≡ other.now) (item.now ≡ other.now → ⊥) }
{
    match (item, other) {
        (Item::Sql(a), Item::Sql(b)) => a.as_slice() == b.as_slice(),
        (Item::Signal(a), Item::Signal(b)) => a.as_slice() == b.as_slice(),
        (Item::Await(a), Item::Await(b)) => a.as_slice() == b.as_slice(),
        (Item::Sql(_), Item::Signal(_) | Item::Await(_)) => false,
        (Item::Signal(_), Item::Sql(_) | Item::Await(_)) => false,
        (Item::Await(_), Item::Sql(_) | Item::Signal(_)) => false,
    }
}

/// Which directives a script may have besides those that name a session.
#[derive(Clone, Copy)]
pub struct Directives {
    pub signals: bool,
    pub ticks: bool,
}

/// What a limit limits. It stands for the number that a fault has for it, which `as u8` gives.
#[derive(Clone, Copy)]
pub enum Limited {
    /// The sessions of a script.
    Sessions = 1,
    /// Its items.
    Items = 2,
    /// The bytes of a statement.
    Statement = 3,
    /// The bytes of a script.
    Script = 4,
    /// The rows of a database.
    Rows = 5,
}

/// Why bytes are no script. Lines count from 1, and a limit has its number (`Limited`).
#[derive(Clone, Copy, Debug, PartialEq, Eq)]
pub enum ScriptBad {
    Line { line: u32 },
    Limit { what: u8, found: u64, most: u64 },
    NoMemory,
}

impl From<AllocError> for ScriptBad {
    ghost use Rattle.std.specs.Prelude.{◌≡◌};
    ghost use Rattle.script.specs.declared.script.ScriptBad.TheVariants.{NoMemory};

    ghost from_gives = { λ _ e. e ≡ NoMemory };

    fn from(_: AllocError) -> ScriptBad {
        ScriptBad::NoMemory
    }
}

/// Why a script isn't written. What would be written of an unreadable one is no script, or another one.
#[derive(Clone, Copy, Debug)]
pub enum WriteBad {
    Unreadable,
    NoMemory,
}

impl From<AllocError> for WriteBad {
    ghost use Rattle.std.specs.Prelude.{◌≡◌};
    ghost use Rattle.script.specs.declared.script.WriteBad.TheVariants.{NoMemory};

    ghost from_gives = { λ _ e. e ≡ NoMemory };

    fn from(_: AllocError) -> WriteBad {
        WriteBad::NoMemory
    }
}
