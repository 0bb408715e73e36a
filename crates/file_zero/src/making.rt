//! New files: page 0, which says the first run, and nothing else.
//! Only empty files are written to.

ghost use Rattle.std.specs.Prelude.{◌≡◌, ◌+◌, ◌≤◌, ◌++◌, length, take, drop, IfOk, IfErr, OnOk};
ghost use Rattle.store_api.specs.Past.{Now, Meanwhile};
ghost use Rattle.stored_pages.specs.Reading.{IsGoodPage};
ghost use Rattle.law_crashes.specs.Header.{IsHeader};
ghost use Rattle.law_crashes.specs.Files.{IsAtRest};
ghost use Rattle.store_api.specs.Looks.{Looks, LeavesState};
ghost use Rattle.file_zero.specs.Looks.{Had};
ghost use Rattle.file_zero.specs.Making.{AreEmpty, AreNew, AreBeingMade, HasBytes, IsNotMade, IsPageAlone};

use big_endian::u64_bytes;
use store_api::{Area, Disk, MountBad};
use stored_pages::layout::{NUMBER, PAGE, SUM};
use sum64::fnv;

/// The fields of page 0 behind its sum: its number, which is 0; no group has changed it; it is a header; then `INNODPRF`,
/// version 0, 65,536 pages at most, run 1, 1 as the first LSN, and 1 as the bound of transaction ids.
const FIELDS: [u8; 64] = [
    0, 0, 0, 0, 0, 0, 0, 0, 0, 0, 0, 0, 1, 0, 0, 0, 0, 0, 0, 0, 0, 0, 0, 0, 73, 78, 78, 79, 68, 80,
    82, 70, 0, 0, 0, 0, 0, 1, 0, 0, 0, 0, 0, 0, 0, 0, 0, 1, 0, 0, 0, 0, 0, 0, 0, 1, 0, 0, 0, 0, 0,
    0, 0, 1,
];

/// Writes a piece over the bytes from a place on.
fn write_over(bytes: &mut [u8], at: usize, piece: &[u8])
    requires { at + length piece.now ≤ length bytes.old }
    ensures { bytes.new ≡ take at bytes.old ++ (piece.now ++ drop (at + length piece.now) bytes.old) }
{
    bytes[at..at + piece.len()].copy_from_slice(piece);
}

/// Page 0 of new files.
fn first_page() -> [u8; PAGE]
    ensures good { IsGoodPage 0 result }
    ensures header { IsHeader 1 1 result }
{
    let mut page = [0; PAGE];
    write_over(&mut page, NUMBER, &FIELDS);
    let sum = fnv(&page[NUMBER..]);
    write_over(&mut page, SUM, &u64_bytes(sum));
    page
}

/// How many bytes the three files have, counted up to 2^64 - 1.
fn bytes_in<D: Disk>(disk: &mut D) -> Result<u64, MountBad>
    ensures looks { Looks (D.past disk.old) (D.past disk.new) }
    ensures same { OnOk result (LeavesState (D.past disk.old) (D.past disk.new)) }
    ensures bytes { IfOk result (λ bytes. Now (HasBytes bytes) (D.past disk.new)) }
    ensures refused { IfErr result (IsNotMade (D.past disk.old) (D.past disk.new)) }
    ensures later { (D.past disk.old).faults ≤ (D.past disk.new).faults }
{
    let Ok(log) = disk.len(Area::Log) else {
        return Err(MountBad::Disk);
    };
    let Ok(double) = disk.len(Area::Double) else {
        return Err(MountBad::Disk);
    };
    let Ok(pages) = disk.len(Area::Pages) else {
        return Err(MountBad::Disk);
    };
    Ok(log.saturating_add(double).saturating_add(pages))
}

/// Writes page 0, and syncs.
fn write_first<D: Disk>(disk: &mut D) -> Result<(), MountBad>
    ensures new { OnOk result (Now AreEmpty (D.past disk.old) → Now AreNew (D.past disk.new)) }
    ensures made { OnOk result (Now (HasBytes 0) (D.past disk.old) → Now IsPageAlone (D.past disk.new)) }
    ensures empty { OnOk result (Now (HasBytes 0) (D.past disk.old) → Had (HasBytes 0) (D.past disk.old) (D.past disk.new)) }
    ensures crash { Now AreEmpty (D.past disk.old) → Meanwhile AreBeingMade (D.past disk.old) (D.past disk.new) }
    ensures refused { IfErr result (IsNotMade (D.past disk.old) (D.past disk.new)) }
    ensures later { (D.past disk.old).faults ≤ (D.past disk.new).faults }
{
    let Ok(()) = disk.write(Area::Pages, 0, &first_page()) else {
        return Err(MountBad::Disk);
    };
    let Ok(()) = disk.sync(Area::Pages) else {
        return Err(MountBad::Disk);
    };
    Ok(())
}

/// Makes the files of a database without tables, where all three are empty. It takes no memory.
pub fn init<D: Disk>(disk: &mut D) -> Result<(), MountBad>
    // The files were empty. If nothing was pending, they stand for that database from then on.
    ensures empty { OnOk result (Had (HasBytes 0) (D.past disk.old) (D.past disk.new)) }
    ensures made { OnOk result (Now IsPageAlone (D.past disk.new)) }
    ensures ok { OnOk result (Now IsAtRest (D.past disk.old) → Now AreNew (D.past disk.new)) }
    ensures refused { IfErr result (IsNotMade (D.past disk.old) (D.past disk.new)) }

    // At each moment of the call a crash leaves no page 0 to be read, or files that stand for that database.
    ensures crash { Now AreEmpty (D.past disk.old) → Meanwhile AreBeingMade (D.past disk.old) (D.past disk.new) }
    ensures later { (D.past disk.old).faults ≤ (D.past disk.new).faults }
{
    let bytes = bytes_in(disk)?;
    if bytes > 0 {
        return Err(MountBad::NotEmpty { bytes });
    }
    write_first(disk)
}
