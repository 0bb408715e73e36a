//! Pages whose room, sum and number are known from outside, and one whose records are edited.
//! Only `page_format` is tried; no page comes from a file.

ghost use Rattle.std.specs.Prelude.{◌≡◌, length, IfOk};
ghost use Rattle.page_format.specs.Shape.{HasTreeFields, AreRising};
ghost use Rattle.page_format.specs.Words.{records_of};

use page_format::{Page, PageBad};
use std::test::Fail;
use sum64::fnv;

/// A leaf of page 7 without fences. Each record begins with a number that rises by a step.
fn leaf(count: u16, record_len: u16, step: u8) -> [u8; 4096] {
    let mut bytes = [0; 4096];
    bytes[11] = 7;
    bytes[20] = 3;
    bytes[22..24].copy_from_slice(&count.to_be_bytes());
    bytes[32..34].copy_from_slice(&record_len.to_be_bytes());
    bytes[34..36].copy_from_slice(&[255, 255]);
    for i in 0..count.min(255) {
        let at = 208 + usize::from(i) * usize::from(record_len);
        if at < 4096 {
            bytes[at] = (i as u8).wrapping_mul(step);
        }
    }
    let sum = fnv(&bytes[8..]);
    bytes[..8].copy_from_slice(&sum.to_be_bytes());
    bytes
}

fn tree_of(bytes: &[u8], number: u32) -> Result<Page, PageBad>
    requires { length bytes.now ≡ 4096 }
    ensures fields { IfOk result HasTreeFields }
    ensures rising { IfOk result (λ page. AreRising (records_of page)) }
{
    let page = Page::read(bytes, number)?;
    if page.is_tree() {
        Ok(page)
    } else {
        Err(PageBad::Shape { rule: 1 })
    }
}

/// How many records the page has, and how much room.
fn count_and_room(bytes: &[u8]) -> Result<(u16, u16), PageBad>
    requires { length bytes.now ≡ 4096 }
{
    let page = tree_of(bytes, 7)?;
    Ok((page.count(), page.room()))
}

#[test]
fn room_of_full_leaves(rt: HostRuntime) -> Result<(), Fail> {
    for (count, record_len, room) in [(114, 34, 12), (216, 18, 0), (0, 34, 3888)] {
        assert_eq!(rt;
            count_and_room(&leaf(count, record_len, 1))?,
            (count, room),
            "{count} records of {record_len} bytes"
        );
    }
    Ok(())
}

/// A page whose second record is another now and whose first has a mark, split before the second.
fn edited() -> Result<(Page, Page), Fail> {
    let mut page = tree_of(&leaf(3, 4, 1), 7)?;
    if page.record_len() != 4 || page.count() != 3 {
        return Err("another page")?;
    }
    page.remove_at(1);
    if page.record_len() != 4 || page.count() != 2 {
        return Err("another page")?;
    }
    page.insert_at(1, &[1, 7, 7, 7]);
    if page.record_len() != 4 || page.count() != 3 {
        return Err("another page")?;
    }
    page.mark(0, 1, true);
    if page.record_len() != 4 || page.count() != 3 {
        return Err("another page")?;
    }
    let mut upper = page.split_at(1, 1, 9);
    upper.seal();
    page.seal();
    Ok((page, upper))
}

fn is_lower(page: &Page) -> bool {
    let bytes = page.as_bytes();
    &bytes[208..212] == [0, 1, 0, 0].as_slice() && bytes[35] == 1 && page.number() == 7
}

fn is_upper(page: &Page) -> bool {
    let bytes = page.as_bytes();
    &bytes[208..216] == [1, 7, 7, 7, 2, 0, 0, 0].as_slice() && page.number() == 9
}

/// How many records both pages have once they are read again.
fn counts_of_edited() -> Result<(u16, u16), Fail> {
    let (page, upper) = edited()?;
    if !is_lower(&page) || !is_upper(&upper) {
        return Err("other bytes")?;
    }
    let lower = Page::read(page.as_bytes(), 7)?;
    let upper = Page::read(upper.as_bytes(), 9)?;
    Ok((lower.count(), upper.count()))
}

#[test]
fn records_are_edited(rt: HostRuntime) -> Result<(), Fail> {
    assert_eq!(rt; counts_of_edited()?, (1, 2));
    Ok(())
}
