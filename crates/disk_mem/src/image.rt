//! What a crash leaves of an area in memory: the record of the calls is played again.
//! `MemDisk::image` alone asks; the disk itself stays as it is.

ghost use Rattle.std.specs.Prelude.{◌≡◌, IfOk, OnOk};
ghost use Rattle.store_api.specs.Areas.{Contents, Write, contents_of, write_of};
ghost use Rattle.disk_mem.specs.Left.{left_after, left_by};
ghost use Rattle.disk_mem.specs.Replay.{area_after, resting, state_after};
ghost use Rattle.disk_mem.specs.declared.areas.Areas.{Areas as AreasValue};

use crate::areas::overwrite;
use crate::call::Call;
use std::alloc::{AllocError, Global};
use store_api::Area;

/// What a crash makes of the writes since the last sync.
#[derive(Clone, Copy)]
pub enum Pick {
    /// Their old bytes.
    Lost,
    /// Their new bytes.
    Kept,
    /// Their new bytes in the first half of each.
    Torn,
}

/// A write as it is made: where it begins, and its bytes behind the zeros that fill up the area.
fn whole_write(
    alloc: Global,
    seen: &[u8],
    at: usize,
    bytes: &[u8],
) -> Result<(usize, Vec<u8>), AllocError>
    ensures { IfOk result (λ w. write_of seen.now at bytes.now ≡ record { at = w.0; bytes = w.1.items }) }
{
    let zeros = at.saturating_sub(seen.len());
    let mut whole = Vec::new(alloc);
    whole.resize(zeros, 0)?;
    whole.extend_from_slice(bytes)?;
    Ok((at.min(seen.len()), whole))
}

/// What a crash leaves after a write more.
fn leave(image: &mut Vec<u8>, at: usize, bytes: &[u8], pick: Pick) -> Result<(), AllocError>
    ensures { OnOk result (image.new.items ≡ left_after pick image.old.items (record { at = at; bytes = bytes.now })) }
{
    match pick {
        Pick::Lost => Ok(()),
        Pick::Kept => overwrite(image, at, bytes),
        Pick::Torn => overwrite(image, at, &bytes[..bytes.len() / 2]),
    }
}

fn pass(
    alloc: Global,
    seen: &mut Vec<u8>,
    image: &mut Vec<u8>,
    area: Area,
    call: &Call,
    pick: Pick,
) -> Result<(), AllocError>
    ensures seen { (c : Contents) → c.seen ≡ seen.old.items → OnOk result ((area_after area c call.now).seen ≡ seen.new.items) }
    ensures image { (c : Contents) → c.seen ≡ seen.old.items → left_by pick c ≡ image.old.items → OnOk result (left_by pick (area_after area c call.now) ≡ image.new.items) }
{
    match call {
        Call::Look => Ok(()),
        Call::Write(other, at, bytes, done) => {
            if *other != area {
                return Ok(());
            }
            let (start, whole) = whole_write(alloc, seen, *at as usize, bytes)?;
            leave(image, start, &whole, pick)?;
            if !*done {
                return Ok(());
            }
            overwrite(seen, *at as usize, bytes)
        }
        Call::Sync(other, done) => {
            if *other != area || !*done {
                return Ok(());
            }
            *image = Vec::from_slice(alloc, seen)?;
            Ok(())
        }
    }
}

/// What a crash after these calls leaves of an area.
pub fn image_of(
    alloc: Global,
    start: &[u8],
    area: Area,
    calls: &[Call],
    pick: Pick,
) -> Result<Vec<u8>, AllocError>
    ensures { (first : AreasValue) → (contents_of area (resting first)).seen ≡ start.now
        → IfOk result (λ image. left_by pick (contents_of area (state_after first calls.now)) ≡ image.items) }
{
    let mut seen = Vec::from_slice(alloc, start)?;
    let mut image = Vec::from_slice(alloc, start)?;
    for call in calls {
        pass(alloc, &mut seen, &mut image, area, call, pick)?;
    }
    Ok(image)
}
