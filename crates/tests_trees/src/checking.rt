//! A root over two leaves, laid out by hand, passes the check of a mount. With one byte turned it is refused, at the page that is
//! wrong and for the rule that it breaks.

use btree::Tree;
use page_format::PageBad;
use std::alloc::{AllocError, Global};
use std::test::Fail;
use sum64::fnv;
use tree_check::{NodeBad, PageFault, RowFault, SpaceFault, check_space, check_tree};

/// Keys of two bytes, and values of one.
const TREE: Tree = Tree {
    index: 8,
    root: 21,
    key_len: 2,
    value_len: 1,
};

/// How many pages the file has, of which page 0 counts each, and the map says that they are in use.
const PAGES: u8 = 24;

/// What a mount says of the pages of a file.
#[derive(Clone, Copy, Debug, PartialEq, Eq)]
enum Verdict {
    Passes,
    Space(SpaceFault),
    Tree(RowFault),
}

/// From its kind on: a page of level 1 without fences, two records of six bytes, the second child from 1, 20 on.
const ROOT: [u8; 16] = [4, 1, 0, 2, 0, 0, 0, 8, 0, 0, 0, 0, 0, 6, 255, 255];

const CHILDREN: [u8; 12] = [0, 0, 0, 0, 0, 22, 1, 20, 0, 0, 0, 23];

/// A leaf of two records of three bytes that ends at 1, 20.
const LEFT: [u8; 16] = [3, 0, 0, 2, 0, 0, 0, 8, 0, 0, 0, 23, 0, 3, 255, 2];

const LEFT_ROWS: [u8; 6] = [1, 10, 110, 1, 12, 112];

/// The last leaf, of one record, which begins there.
const RIGHT: [u8; 16] = [3, 0, 0, 1, 0, 0, 0, 8, 0, 0, 0, 0, 0, 3, 2, 255];

const RIGHT_ROWS: [u8; 3] = [1, 40, 140];

/// A page of the file without its sum.
fn page_of(number: u8) -> [u8; 4096] {
    let mut page = [0; 4096];
    page[11] = number;
    match number {
        0 => page[47] = PAGES,
        2 => page[32..35].copy_from_slice(&[255; 3]),
        21 => {
            page[20..36].copy_from_slice(&ROOT);
            page[208..220].copy_from_slice(&CHILDREN);
        }
        22 => {
            page[20..36].copy_from_slice(&LEFT);
            page[116..118].copy_from_slice(&[1, 20]);
            page[208..214].copy_from_slice(&LEFT_ROWS);
        }
        23 => {
            page[20..36].copy_from_slice(&RIGHT);
            page[36..38].copy_from_slice(&[1, 20]);
            page[208..211].copy_from_slice(&RIGHT_ROWS);
        }
        _ => {}
    }
    page
}

/// That page with so much added to a byte, and with its sum.
fn turned(number: u8, at: u16, by: u8) -> [u8; 4096] {
    let mut page = page_of(number);
    if at < 4096 {
        page[usize::from(at)] = page[usize::from(at)].wrapping_add(by);
    }
    let sum = fnv(&page[8..]);
    page[..8].copy_from_slice(&sum.to_be_bytes());
    page
}

/// What a mount says of the file.
fn mounted(pages: &[[u8; 4096]]) -> Verdict {
    match check_space(pages) {
        Ok(()) => {}
        Err(fault) => return Verdict::Space(fault),
    }
    match check_tree(pages, TREE) {
        Ok(()) => Verdict::Passes,
        Err(fault) => Verdict::Tree(fault),
    }
}

/// What it says once so much was added to one byte of a page.
fn judged(alloc: Global, page: u8, at: u16, by: u8) -> Result<Verdict, AllocError> {
    let mut pages = Vec::with_capacity(alloc, usize::from(PAGES))?;
    for number in 0..PAGES {
        pages.push(turned(number, at, if number == page { by } else { 0 }))?;
    }
    let verdict = mounted(&pages);
    drop(pages);
    Ok(verdict)
}

/// A page, a place on it, what is added to the byte there, and what is said then.
const TURNED: [(u8, u16, u8, Verdict); 15] = [
    (0, 0, 0, Verdict::Passes),
    // the file is said to have a page more than it has, or the root and no page behind it
    (0, 47, 1, Verdict::Space(SpaceFault::Count)),
    (
        0,
        47,
        254,
        Verdict::Tree(RowFault::Page {
            page: 22,
            fault: PageFault::Missing,
        }),
    ),
    // one of the first pages, and one of the tree's, is said to be free
    (2, 32, 254, Verdict::Space(SpaceFault::Free { page: 1 })),
    (
        2,
        34,
        224,
        Verdict::Tree(RowFault::Page {
            page: 21,
            fault: PageFault::Free,
        }),
    ),
    // the level of a page, its index, and its record's length
    (
        21,
        21,
        1,
        Verdict::Tree(RowFault::Page {
            page: 22,
            fault: PageFault::Wrong(NodeBad::Place),
        }),
    ),
    (
        22,
        27,
        1,
        Verdict::Tree(RowFault::Page {
            page: 22,
            fault: PageFault::Wrong(NodeBad::Place),
        }),
    ),
    (
        23,
        33,
        1,
        Verdict::Tree(RowFault::Page {
            page: 23,
            fault: PageFault::Wrong(NodeBad::Field),
        }),
    ),
    // the order of records, and the first key of an inner page
    (
        22,
        208,
        9,
        Verdict::Tree(RowFault::Page {
            page: 22,
            fault: PageFault::Unread(PageBad::Shape { rule: 2 }),
        }),
    ),
    (
        21,
        209,
        1,
        Verdict::Tree(RowFault::Page {
            page: 21,
            fault: PageFault::Wrong(NodeBad::First),
        }),
    ),
    // a low fence, the high fence of the page before, and a key in the parent
    (23, 37, 255, Verdict::Tree(RowFault::Child { page: 23 })),
    (22, 117, 1, Verdict::Tree(RowFault::Child { page: 23 })),
    (21, 215, 1, Verdict::Tree(RowFault::Child { page: 23 })),
    // a neighbour, and the number of a child
    (22, 31, 1, Verdict::Tree(RowFault::Neighbour { page: 22 })),
    (21, 219, 1, Verdict::Tree(RowFault::Neighbour { page: 22 })),
];

#[test]
fn a_byte_is_turned(rt: HostRuntime) -> Result<(), Fail> {
    for (page, at, by, verdict) in &TURNED {
        let found = judged(rt.alloc(), *page, *at, *by)?;
        assert_eq!(rt; found, *verdict, "page {page} at {at}");
    }
    Ok(())
}
