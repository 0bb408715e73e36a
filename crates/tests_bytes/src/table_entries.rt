//! An entry with two columns, one key and two roots is read and spelled again. Entries that are none are refused.
//! Only the entries of `catalog` are tried: no page has the entry.

use catalog::{EntryBad, get_entry, put_entry};
use std::alloc::Global;
use std::test::Fail;

/// Table `t` with the BIGINT column `id` and the VARBINARY(20) column `b`, the key `kb` on `b`, and roots 21 and 22.
const ENTRY: [u8; 29] = [
    1, 116, 2, 2, 105, 100, 1, 0, 1, 1, 98, 2, 20, 0, 0, 1, 2, 107, 98, 1, 0, 0, 0, 21, 0, 0, 0,
    22, 0,
];

/// What is read of the bytes, spelled again.
fn spelled_again(alloc: Global, bytes: &[u8]) -> Result<Vec<u8>, EntryBad> {
    let held = get_entry(alloc, bytes)?;
    let mut out = Vec::new(alloc);
    match put_entry(&held, &mut out) {
        Ok(()) => Ok(out),
        Err(_) => Err(EntryBad::NoMemory),
    }
}

fn is_spelled_again(alloc: Global, bytes: &[u8], want: &[u8]) -> Result<bool, EntryBad> {
    let spelled = spelled_again(alloc, bytes)?;
    Ok(spelled.as_slice() == want)
}

#[test]
fn read_and_spelled(rt: HostRuntime) -> Result<(), Fail> {
    let alloc = rt.alloc();
    assert!(rt; is_spelled_again(alloc, &ENTRY, &ENTRY[..28])?);
    let mut other_kind = ENTRY;
    other_kind[6] = 3;
    assert!(rt; matches!(spelled_again(alloc, &other_kind), Err(EntryBad::Shape)));
    assert!(rt; matches!(spelled_again(alloc, &ENTRY[..27]), Err(EntryBad::Shape)));
    Ok(())
}
