//! Pages are taken until none is free, one comes back, and it is taken again.
//! Only `space_map` is tried, over a list of pages; nothing here meets a disk.

use mtr::{ListedPages, Mtr};
use space_map::{free_count, give, take};
use std::alloc::Global;
use std::test::Fail;
use store_api::{NoMemory, SpaceBad, Visit};

/// 24 pages, of which the first 21 are used.
fn few_pages(alloc: Global) -> Result<ListedPages, NoMemory> {
    let mut header = [0; 4096];
    header[47] = 24;
    let mut map = [0; 4096];
    map[32] = 255;
    map[33] = 255;
    map[34] = 31;
    let mut pages = Vec::with_capacity(alloc, 24)?;
    pages.push(header)?;
    pages.push([0; 4096])?;
    pages.push(map)?;
    for _ in 3..24 {
        pages.push([0; 4096])?;
    }
    ListedPages::new(alloc, pages, 20)
}

fn free(m: &mut ListedPages) -> Result<u32, Visit> {
    m.give_up();
    free_count(m)
}

/// One page, in a mini-transaction of its own.
fn one(m: &mut ListedPages) -> Result<u32, SpaceBad> {
    m.give_up();
    let page = take(m)?;
    m.commit()?;
    Ok(page)
}

fn back(m: &mut ListedPages, page: u32) -> Result<(), Fail> {
    m.give_up();
    if mtr::capacity(m)? > page {
        give(m, page)?;
    }
    Ok(m.commit()?)
}

/// Takes the three free pages, and tells them with how many were free and are left.
fn take_all(m: &mut ListedPages) -> Result<(u32, [u32; 3], u32), Fail> {
    let before = free(m)?;
    let pages = [one(m)?, one(m)?, one(m)?];
    Ok((before, pages, free(m)?))
}

/// Whether no page is left to take. Then one comes back: how many are free, and which is taken next.
fn take_again(m: &mut ListedPages) -> Result<(bool, u32, u32), Fail> {
    let is_full = matches!(one(m), Err(SpaceBad::Full));
    back(m, 22)?;
    let free = free(m)?;
    Ok((is_full, free, one(m)?))
}

fn take_and_give(m: &mut ListedPages) -> Result<((u32, [u32; 3], u32), (bool, u32, u32)), Fail> {
    let taken = take_all(m)?;
    Ok((taken, take_again(m)?))
}

#[test]
fn taken_and_given_back(rt: HostRuntime) -> Result<(), Fail> {
    let mut m = few_pages(rt.alloc())?;
    let found = take_and_give(&mut m);
    drop(m);
    let (taken, again) = found?;
    assert_eq!(rt; taken, (3, [21, 22, 23], 0));
    assert_eq!(rt; again, (true, 1, 22));
    Ok(())
}
