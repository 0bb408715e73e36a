//! The rules by which statements are to take locks: which case each is for, and the lock that it gives there.
//! Definitions of histories cite these words, and the lock table asks for the rules' numbers, which a lock's reason
//! shows. No engine asks yet.

ghost use Rattle.std.specs.Prelude.{◌≡◌, ◌∷◌, take, length, is_some, Some, IfSome, IfNone, None, ℕ, option_copied};
ghost use Rattle.inno_types.specs.Ranges as keys;
ghost use Rattle.lock_rules.specs.Ranges as ranges;
ghost use Rattle.lock_rules.specs.Rules as spec;

use crate::conflict::{is_upper, same_kind, same_mode, same_reason, same_spot};
use inno_db::INDEXES_OF_TABLE;
use inno_types::{Bound, Bytes, Level, Lock, LockKind, Mode, Range, Reason, Spot};
use std::cmp::Ordering;

/// Why a lock is taken. The first five are for REPEATABLE READ and SERIALIZABLE, `LowerSearch` for the other levels.
#[derive(Clone, Copy, Debug, PartialEq, Eq)]
pub enum Rule {
    /// A unique search finds its row, which isn't marked.
    UniqueFound,
    /// A unique search finds a marked record.
    UniqueMarked,
    /// A unique search finds no record.
    UniqueAbsent,
    /// Each record of a range or of a whole scan.
    RangeRecord,
    /// The first record past a range, or the supremum.
    PastRange,
    /// The clustered record of an unmarked entry that a search locked.
    ClusteredOfEntry,
    /// A record or entry is to be inserted before this one.
    ToInsert,
    /// The record or entry was inserted.
    Inserted,
    /// INSERT finds a record with its key.
    DuplicateCheck,
    /// INSERT puts its row in a marked record, or an entry is marked or unmarked.
    Changed,
    /// Each record of a search at the lower levels.
    LowerSearch,
    /// What became of a lock when its record went.
    RecordWent,
    /// A copy made when a record was inserted.
    CopiedOnInsert,
}

/// Where the spot of a case stands: in the range of the search (of `ClusteredOfEntry`, its entry does), first past it,
/// or where a change is made.
#[derive(Clone, Copy)]
pub enum Place {
    Within,
    Past,
    New,
}

/// A moment at which a lock is due: the rule's number, the level of the transaction, its item, the index and range of
/// the search, the mode that the search asks for (of `RecordWent` and `CopiedOnInsert` that of the old lock), the spot,
/// whether its record (of `ClusteredOfEntry`, the entry) is marked, and where it stands.
#[derive(Drop)]
pub struct Case {
    pub rule: u8,
    pub level: Level,
    pub item: u32,
    pub index: u32,
    pub range: Range,
    pub mode: Mode,
    pub spot: Spot,
    pub marked: bool,
    pub place: Place,
}

impl Rule {
    /// What a lock's reason shows.
    pub fn number(self) -> u8
        ensures { result ≡ spec.number_of self }
    {
        match self {
            Rule::UniqueFound => 1,
            Rule::UniqueMarked => 2,
            Rule::UniqueAbsent => 3,
            Rule::RangeRecord => 4,
            Rule::PastRange => 5,
            Rule::ClusteredOfEntry => 6,
            Rule::ToInsert => 7,
            Rule::Inserted => 8,
            Rule::DuplicateCheck => 9,
            Rule::Changed => 10,
            Rule::LowerSearch => 11,
            Rule::RecordWent => 12,
            Rule::CopiedOnInsert => 13,
        }
    }

    pub fn from_number(number: u8) -> Option<Rule>
        ensures { result ≡ spec.rule_of number }
    {
        match number {
            1 => Some(Rule::UniqueFound),
            2 => Some(Rule::UniqueMarked),
            3 => Some(Rule::UniqueAbsent),
            4 => Some(Rule::RangeRecord),
            5 => Some(Rule::PastRange),
            6 => Some(Rule::ClusteredOfEntry),
            7 => Some(Rule::ToInsert),
            8 => Some(Rule::Inserted),
            9 => Some(Rule::DuplicateCheck),
            10 => Some(Rule::Changed),
            11 => Some(Rule::LowerSearch),
            12 => Some(Rule::RecordWent),
            13 => Some(Rule::CopiedOnInsert),
            _ => None,
        }
    }

    fn is_for(self, level: Level) -> bool
        ensures { result ≡ spec.is_for self level }
    {
        match self {
            Rule::UniqueFound
            | Rule::UniqueMarked
            | Rule::UniqueAbsent
            | Rule::RangeRecord
            | Rule::PastRange => is_upper(level),
            Rule::LowerSearch => !is_upper(level),
            _ => true,
        }
    }

    /// The kind of lock that the rule gives.
    pub fn kind(self) -> LockKind
        ensures { result ≡ spec.rule_kind self }
    {
        match self {
            Rule::UniqueMarked | Rule::RangeRecord => LockKind::NextKey,
            Rule::UniqueAbsent | Rule::PastRange | Rule::RecordWent | Rule::CopiedOnInsert => {
                LockKind::Gap
            }
            Rule::ToInsert => LockKind::Intent,
            _ => LockKind::Rec,
        }
    }

    /// The mode of the rule's lock where the search asks for this one.
    pub fn mode(self, asked: Mode) -> Mode
        ensures { result ≡ spec.rule_mode self asked }
    {
        match self {
            Rule::ToInsert | Rule::Inserted | Rule::Changed => Mode::X,
            Rule::DuplicateCheck => Mode::S,
            _ => asked,
        }
    }

    /// Whether the case is one of this rule.
    fn is_of(self, case: &Case) -> bool
        ensures { result ≡ spec.is_case_of self case.now }
    {
        match self {
            Rule::UniqueFound => case.is_unique() && case.is_visited() && !case.marked,
            Rule::UniqueMarked => case.is_unique() && case.is_visited() && case.marked,
            Rule::UniqueAbsent => case.is_unique() && case.is_passed(),
            Rule::RangeRecord => !case.is_unique() && case.is_visited(),
            Rule::PastRange => !case.is_unique() && case.is_passed(),
            Rule::LowerSearch => case.is_visited(),
            Rule::ClusteredOfEntry => case.is_clustered_of_entry() && !case.marked,
            Rule::ToInsert => case.is_changed(),
            Rule::Inserted | Rule::DuplicateCheck | Rule::Changed => {
                case.is_changed() && case.spot.key.is_some()
            }
            Rule::RecordWent | Rule::CopiedOnInsert => case.spot.index == case.index,
        }
    }

    fn gives(self, lock: &Lock, case: &Case) -> bool
        ensures { result ≡ spec.gives self lock.now case.now }
    {
        self.is_for(case.level)
            && self.is_of(case)
            && same_spot(&lock.spot, &case.spot)
            && same_kind(lock.kind, self.kind())
            && same_mode(lock.mode, self.mode(case.mode))
            && same_reason(lock.reason, case.reason())
    }
}

impl Case {
    /// Whether the search is one of the clustered index for one key.
    fn is_unique(&self) -> bool
        ensures { result ≡ spec.is_unique self.now }
    {
        self.index % INDEXES_OF_TABLE == 0 && is_single(&self.range)
    }

    fn is_visited(&self) -> bool
        ensures { result ≡ spec.is_visited self.now self.now.place }
    {
        match self.place {
            Place::Within => self.spot.index == self.index
                && is_within(&self.range, &self.spot.key),
            Place::Past | Place::New => false,
        }
    }

    fn is_passed(&self) -> bool
        ensures { result ≡ spec.is_passed self.now self.now.place }
    {
        match self.place {
            Place::Past => self.spot.index == self.index && is_past(&self.range, &self.spot.key),
            Place::Within | Place::New => false,
        }
    }

    fn is_changed(&self) -> bool
        ensures { result ≡ spec.is_changed self.now self.now.place }
    {
        match self.place {
            Place::New => self.spot.index == self.index,
            Place::Within | Place::Past => false,
        }
    }

    fn is_clustered_of_entry(&self) -> bool
        ensures { result ≡ spec.is_clustered_of self.now self.now.place }
    {
        match self.place {
            Place::Within => {
                self.index % INDEXES_OF_TABLE != 0
                    && self.spot.index == self.index / INDEXES_OF_TABLE * INDEXES_OF_TABLE
                    && self.spot.key.is_some()
            }
            Place::Past | Place::New => false,
        }
    }

    fn reason(&self) -> Reason
        ensures { result ≡ spec.reason_of self.now }
    {
        Reason {
            rule: self.rule,
            item: self.item,
            level: self.level,
        }
    }
}

/// As many of the key's first bytes as the bound has, beside the bound.
fn beside(key: &[u8], bound: &Bytes) -> Ordering
    ensures { result ≡ keys.beside key.now bound.now }
{
    let bound = bound.as_slice();
    let front = key.get(..bound.len()).unwrap_or(key);
    front.cmp(bound)
}

fn is_from(low: &Bound, key: &[u8]) -> bool
    ensures { result ≡ keys.is_from low.now key.now }
{
    match low {
        Bound::Open => true,
        Bound::With(bound) => beside(key, bound).is_ge(),
        Bound::Without(bound) => beside(key, bound).is_gt(),
    }
}

fn is_up_to(high: &Bound, key: &[u8]) -> bool
    ensures { result ≡ keys.is_up_to high.now key.now }
{
    match high {
        Bound::Open => true,
        Bound::With(bound) => beside(key, bound).is_le(),
        Bound::Without(bound) => beside(key, bound).is_lt(),
    }
}

fn is_within(range: &Range, key: &Option<Bytes>) -> bool
    ensures { result ≡ ranges.is_within range.now key.now }
{
    match key {
        None => false,
        Some(key) => {
            let key = key.as_slice();
            !range.empty && is_from(&range.low, key) && is_up_to(&range.high, key)
        }
    }
}

fn is_past(range: &Range, key: &Option<Bytes>) -> bool
    ensures { result ≡ ranges.is_past range.now key.now }
{
    match key {
        None => !range.empty,
        Some(key) => !range.empty && !is_up_to(&range.high, key.as_slice()),
    }
}

fn includes(bound: &Bound, value: &Bytes) -> bool
    ensures { result ≡ ranges.includes bound.now value.now }
{
    match bound {
        Bound::With(bound) => bound.as_slice() == value.as_slice(),
        Bound::Open | Bound::Without(_) => false,
    }
}

fn is_single(range: &Range) -> bool
    ensures { result ≡ ranges.is_single range.now }
{
    match &range.low {
        Bound::With(value) => includes(&range.high, value),
        Bound::Open | Bound::Without(_) => false,
    }
}

/// The reason of the lock that is due.
pub fn rule_for(case: Case) -> Reason
    ensures { result ≡ spec.reason_of case }
{
    case.reason()
}

/// Whether the rule of the case gives this lock in it.
pub fn fits(lock: &Lock, case: Case) -> bool
    ensures { result ≡ spec.fits lock.now case }
{
    let is_given = match Rule::from_number(case.rule) {
        Some(rule) => rule.gives(lock, &case),
        None => false,
    };
    drop(case);
    is_given
}
