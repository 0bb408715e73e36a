//! An index in memory and one in a tree, of which three actors make the same calls in turn: each call is answered the same,
//! and in the end both have the same pairs.

ghost use Rattle.std.specs.Prelude.{◌≡◌, ◌<◌, ◌≤◌, length, IfOk, IfSome, vec_capacity};
ghost use Rattle.tests_trees.specs.Wide.{AreWide};

use btree::Tree;
use entries::{Entries, ListIndex, PairBuffers};
use inno_types::Bytes;
use mtr::ListedPages;
use std::alloc::{AllocError, Global};
use std::test::Fail;
use store_api::{Move, NoMemory};
use stored_pages::read_u32;
use tree_use::TreeUse;

/// Records of 200 bytes, of which a leaf has room for 19, and of 64 on the levels above.
const TREE: Tree = Tree {
    index: 8,
    root: 21,
    key_len: 60,
    value_len: 140,
};

/// How many pages the file has in which both grow.
const PAGES: u8 = 250;

/// How many calls are made, or pairs of calls.
const CALLS: u32 = 20_000;

/// How many keys there are.
const KEYS: u32 = 2_000;

/// A change of one key.
#[derive(Clone, Copy)]
enum Change {
    Insert,
    Replace,
    Remove,
    Tidy,
}

/// Numbers that look as if they were chosen by chance.
#[derive(Clone, Copy)]
struct Chance {
    state: u64,
}

impl Chance {
    /// A number below another one.
    fn below(&mut self, end: u32) -> u32
        requires { 0 < end }
        ensures { result < end }
    {
        self.state = self
            .state
            .wrapping_mul(6_364_136_223_846_793_005)
            .wrapping_add(1_442_695_040_888_963_407);
        ((self.state >> 33) as u32) % end
    }
}

/// A key that begins with this number.
fn key_of(alloc: Global, number: u32) -> Result<Bytes, AllocError>
    ensures { IfOk result (λ key. length key ≡ 60) }
{
    let mut bytes = [0; 60];
    bytes[..4].copy_from_slice(&number.to_be_bytes());
    Ok(Bytes::from_vec(Vec::from_slice(alloc, &bytes)?))
}

/// A value that begins with this number.
fn value_of(alloc: Global, number: u32) -> Result<Bytes, AllocError>
    ensures { IfOk result (λ value. length value ≡ 140) }
{
    let mut bytes = [0; 140];
    bytes[..4].copy_from_slice(&number.to_be_bytes());
    Ok(Bytes::from_vec(Vec::from_slice(alloc, &bytes)?))
}

/// Whether two calls were answered the same.
fn same(answer: &Move, other: &Move) -> bool {
    match (answer, other) {
        (Move::At(key, value), Move::At(other_key, other_value)) => {
            key.as_slice() == other_key.as_slice() && value.as_slice() == other_value.as_slice()
        }
        (Move::End, Move::End) | (Move::Done, Move::Done) => true,
        (Move::Latch { by }, Move::Latch { by: other_by }) => by == other_by,
        _ => false,
    }
}

/// A change by an actor.
fn make_change<E: Entries>(
    index: &mut E,
    actor: u32,
    change: Change,
    key: &Bytes,
    value: &Bytes,
) -> Move
    requires key { length key.now ≡ 60 }
    requires value { length value.now ≡ 140 }
    requires width { AreWide (E.index index.old) }
    ensures width { AreWide (E.index index.new) }
    ensures place { (E.index index.new).place ≡ (E.index index.old).place }
{
    match change {
        Change::Insert => index.insert(actor, key, value),
        Change::Replace => index.replace(actor, key, value),
        Change::Remove => index.remove(actor, key),
        Change::Tidy => index.tidy(actor),
    }
}

/// What is asked of both: a change alone; one between the two calls of another actor's walk; one that is kept off, since
/// another actor is awaited; or a value.
#[derive(Clone, Copy)]
enum Kind {
    Alone,
    AmidAWalk,
    KeptOff,
    Fetch,
}

/// Calls that are made of both.
#[derive(Drop)]
struct Calls {
    kind: Kind,
    change: Change,
    actor: u32,
    other: u32,
    key: Bytes,
    value: Bytes,
    ghost key_width: { length key ≡ 60 },
    ghost value_width: { length value ≡ 140 },
}

/// What they were answered.
#[derive(Drop)]
struct Answers {
    first: Move,
    second: Move,
    third: Move,
}

impl Calls {
    /// The calls of that number.
    fn by_chance(alloc: Global, number: u32, chance: &mut Chance) -> Result<Calls, AllocError> {
        let kind = match chance.below(8) {
            0 => Kind::AmidAWalk,
            1 => Kind::KeptOff,
            2 => Kind::Fetch,
            _ => Kind::Alone,
        };
        let change = match chance.below(8) {
            0 => Change::Replace,
            1 | 2 | 3 => Change::Remove,
            4 => Change::Tidy,
            _ => Change::Insert,
        };
        Ok(Calls {
            kind,
            change,
            actor: 1 + number % 3,
            other: 1 + chance.below(3),
            key: key_of(alloc, chance.below(KEYS))?,
            value: value_of(alloc, chance.below(1000))?,
        })
    }
}

/// A change between the two calls of a walk.
fn walk<E: Entries>(index: &mut E, calls: &Calls, buffers: &mut PairBuffers) -> Answers
    requires width { AreWide (E.index index.old) }
    ensures width { AreWide (E.index index.new) }
{
    match index.seek(calls.actor, &calls.key, buffers) {
        Move::At(key, value) => {
            let second = make_change(index, calls.other, calls.change, &calls.key, &calls.value);
            let third = index.following(calls.actor, buffers);
            Answers {
                first: Move::At(key, value),
                second,
                third,
            }
        }
        first => Answers {
            first,
            second: make_change(index, calls.other, calls.change, &calls.key, &calls.value),
            third: Move::End,
        },
    }
}

/// A change while another actor is awaited, who leaves then.
fn keep_off<E: Entries>(index: &mut E, calls: &Calls, into: &mut Vec<u8>) -> Answers
    requires width { AreWide (E.index index.old) }
    requires room { 67 ≤ vec_capacity into.old }
    ensures width { AreWide (E.index index.new) }
    ensures room { vec_capacity into.old ≤ vec_capacity into.new }
{
    let first = index.next_key(calls.actor, &calls.key, into);
    let second = make_change(index, calls.other, calls.change, &calls.key, &calls.value);
    index.leave(calls.actor);
    Answers {
        first,
        second,
        third: Move::End,
    }
}

/// Makes the calls.
fn make<E: Entries>(
    index: &mut E,
    calls: &Calls,
    into: &mut Vec<u8>,
    buffers: &mut PairBuffers,
) -> Answers
    requires width { AreWide (E.index index.old) }
    requires room { 1024 ≤ vec_capacity into.old }
    ensures width { AreWide (E.index index.new) }
    ensures room { vec_capacity into.old ≤ vec_capacity into.new }
{
    match calls.kind {
        Kind::AmidAWalk => walk(index, calls, buffers),
        Kind::KeptOff => keep_off(index, calls, into),
        Kind::Alone => Answers {
            first: make_change(index, calls.actor, calls.change, &calls.key, &calls.value),
            second: Move::End,
            third: Move::End,
        },
        Kind::Fetch => Answers {
            first: index.fetch(calls.actor, &calls.key, into),
            second: Move::End,
            third: Move::End,
        },
    }
}

/// An empty leaf of the tree, without fences and without a neighbour.
fn empty_leaf() -> [u8; 4096] {
    let mut page = [0; 4096];
    page[20] = 3;
    page[27] = 8;
    page[33] = 200;
    page[34] = 255;
    page[35] = 255;
    page
}

/// So many pages of a file, of which those up to the root are in use; the root is an empty leaf.
fn file_of(alloc: Global, count: u8) -> Result<Vec<[u8; 4096]>, AllocError> {
    let mut header = [0; 4096];
    header[47] = count;
    let mut map = [0; 4096];
    map[32] = 255;
    map[33] = 255;
    map[34] = 63;
    let mut pages = Vec::with_capacity(alloc, usize::from(count))?;
    pages.push(header)?;
    pages.push([0; 4096])?;
    pages.push(map)?;
    for _ in 0..18 {
        pages.push([0; 4096])?;
    }
    pages.push(empty_leaf())?;
    for _ in 22..count {
        pages.push([0; 4096])?;
    }
    Ok(pages)
}

/// An index in a tree over these pages, if they hold one that was just made.
fn begin(alloc: Global, pages: Vec<[u8; 4096]>) -> Result<Option<TreeUse<ListedPages>>, NoMemory>
    ensures { IfOk result (λ made. IfSome made (λ t. AreWide (⟦<TreeUse<ListedPages> as Entries>⟧.index t))) }
{
    match pages.first() {
        None => return Ok(None),
        Some(header) => {
            if read_u32(header, 44) as usize > pages.len() {
                return Ok(None);
            }
        }
    }
    let m = ListedPages::new(alloc, pages, 131_072)?;
    TreeUse::begin(alloc, TREE, m)
}

/// Makes calls of both by chance, and answers whether each was answered the same.
fn play(alloc: Global, list: &mut ListIndex, tree: &mut TreeUse<ListedPages>) -> Result<bool, Fail>
    requires list { AreWide (⟦<ListIndex as Entries>⟧.index list.old) }
    requires tree { AreWide (⟦<TreeUse<ListedPages> as Entries>⟧.index tree.old) }
    ensures list { AreWide (⟦<ListIndex as Entries>⟧.index list.new) }
    ensures tree { AreWide (⟦<TreeUse<ListedPages> as Entries>⟧.index tree.new) }
{
    let mut chance = Chance { state: 11 };
    let mut buffers = PairBuffers::new(alloc);
    let mut of_list = Vec::with_capacity(alloc, 1024)?;
    let mut of_tree = Vec::with_capacity(alloc, 1024)?;
    for number in 0..CALLS {
        let calls = Calls::by_chance(alloc, number, &mut chance)?;
        let listed = make(list, &calls, &mut of_list, &mut buffers);
        let found = make(tree, &calls, &mut of_tree, &mut buffers);
        let alike = same(&listed.first, &found.first)
            && same(&listed.second, &found.second)
            && same(&listed.third, &found.third)
            && of_list == of_tree;
        drop(calls);
        drop(listed);
        drop(found);
        if !alike {
            return Ok(false);
        }
    }
    Ok(true)
}

/// How many keys both have with the same value, and whether there is none that one has alone.
fn compare(
    alloc: Global,
    list: &mut ListIndex,
    tree: &mut TreeUse<ListedPages>,
) -> Result<(u32, bool), Fail> {
    let mut of_list = Vec::with_capacity(alloc, 1024)?;
    let mut of_tree = Vec::with_capacity(alloc, 1024)?;
    let mut count = 0u32;
    for number in 0..KEYS {
        let key = key_of(alloc, number)?;
        let listed = list.fetch(1, &key, &mut of_list);
        let found = tree.fetch(1, &key, &mut of_tree);
        if !same(&listed, &found) || of_list != of_tree {
            return Ok((count, false));
        }
        if let Move::Done = listed {
            count = count.saturating_add(1);
        }
    }
    Ok((count, true))
}

#[test]
fn a_tree_answers_three_actors_as_a_list_does(rt: HostRuntime) -> Result<(), Fail> {
    let mut list = ListIndex::new(rt.alloc())?;
    match begin(rt.alloc(), file_of(rt.alloc(), PAGES)?)? {
        None => assert!(rt; false),
        Some(mut tree) => {
            assert!(rt; play(rt.alloc(), &mut list, &mut tree)?);
            let (count, alike) = compare(rt.alloc(), &mut list, &mut tree)?;
            assert!(rt; alike);
            assert!(rt; count > 100);
        }
    }
    Ok(())
}

/// Fills the root, and answers what one row more is answered, and how many rows there are then.
fn fill_root(alloc: Global, tree: &mut TreeUse<ListedPages>) -> Result<(Move, u32), Fail>
    requires { AreWide (⟦<TreeUse<ListedPages> as Entries>⟧.index tree.old) }
{
    let value = value_of(alloc, 7)?;
    let mut count = 0u32;
    for number in 0..20 {
        let key = key_of(alloc, number)?;
        let answer = tree.insert(1, &key, &value);
        if let Move::Done = answer {
            count = count.saturating_add(1);
        } else {
            return Ok((answer, count));
        }
    }
    Ok((Move::End, count))
}

#[test]
fn a_full_root_stays_where_no_page_is_free(rt: HostRuntime) -> Result<(), Fail> {
    match begin(rt.alloc(), file_of(rt.alloc(), 22)?)? {
        None => assert!(rt; false),
        Some(mut tree) => {
            let (answer, count) = fill_root(rt.alloc(), &mut tree)?;
            assert!(rt; matches!(answer, Move::Full { need: 2, free: 0 }));
            assert_eq!(rt; count, 19);
            let mut into = Vec::with_capacity(rt.alloc(), 1024)?;
            let key = key_of(rt.alloc(), 19)?;
            assert!(rt; matches!(tree.fetch(1, &key, &mut into), Move::End));
        }
    }
    Ok(())
}
