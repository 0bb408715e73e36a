//! A page as it is read from the disk, and why it isn't fixed.
//! The pool calls this for a page that it doesn't have.

ghost use Rattle.std.specs.Prelude.{◌≡◌, ◌≤◌, ◌++◌, length, drop, is_ok, MatchResult};
ghost use Rattle.store_api.specs.Areas.{Within, Looked};
ghost use Rattle.store_api.specs.declared.disk.Area.TheVariants.{Pages};
ghost use Rattle.store_api.specs.Causes.{HasCause};
ghost use Rattle.store_api.specs.Past.{Now, Goes};
ghost use Rattle.page_format.specs.Shape.{IsPage};
ghost use Rattle.buffer_pool.specs.Fixing.{page_in, Looks, IsReadBad};

use page_format::{Page, PageBad};
use store_api::{Area, Disk, Failed};
use stored_pages::layout::PAGE;

/// Why a page isn't fixed.
#[derive(Clone, Copy, Debug, PartialEq, Eq)]
pub enum FixBad {
    /// The disk failed.
    Failed,
    /// The page isn't in the pool, and no frame is free to take it.
    Again,
    /// What stands in the page's place is no page of that number.
    Bad(PageBad),
}

impl From<Failed> for FixBad {
    ghost use Rattle.buffer_pool.specs.declared.fixing.FixBad.TheVariants.{Failed as DiskFailed};

    ghost from_gives = { λ _ e. e ≡ DiskFailed };

    fn from(_: Failed) -> FixBad {
        FixBad::Failed
    }
}

impl From<PageBad> for FixBad {
    ghost use Rattle.buffer_pool.specs.declared.fixing.FixBad.TheVariants.{Bad as NoPage};

    ghost from_gives = { λ why e. e ≡ NoPage why };

    fn from(why: PageBad) -> FixBad {
        FixBad::Bad(why)
    }
}

/// Writes a piece over the first bytes.
fn write_front(bytes: &mut [u8; PAGE], piece: &[u8])
    requires { length piece.now ≤ PAGE }
    ensures { bytes.new ≡ piece.now ++ drop (length piece.now) bytes.old }
{
    bytes[..piece.len()].copy_from_slice(piece);
}

/// The bytes of a page's place, zeros past the end of the area. Whether they are a page isn't looked at.
pub fn bytes_of_place<D: Disk>(disk: &mut D, page: u32) -> Result<[u8; PAGE], Failed>
    ensures bytes { MatchResult result (λ bytes. Now (λ s. bytes ≡ page_in page s.pages.seen) (D.past disk.old)) (λ _. Unit {0}) }
    ensures looks { Goes (Within Pages (Looked (is_ok result))) (D.past disk.old) (D.past disk.new) }
    ensures cause { HasCause (D.past disk.old).faults (D.past disk.new).faults result }
{
    let mut read = [0; PAGE];
    let count = disk.read(Area::Pages, PAGE as u64 * u64::from(page), &mut read)?;
    let mut bytes = [0; PAGE];
    write_front(&mut bytes, &read[..count]);
    Ok(bytes)
}

/// The page that stands in its place.
pub fn read_page<D: Disk>(disk: &mut D, page: u32) -> Result<Page, FixBad>
    ensures page { MatchResult result (λ read. IsPage page read × Now (λ s. read ≡ page_in page s.pages.seen) (D.past disk.old)) (λ why. IsReadBad page (D.past disk.old) (D.past disk.new) why) }
    ensures looks { Looks (D.past disk.old) (D.past disk.new) }
    ensures faults { (D.past disk.old).faults ≤ (D.past disk.new).faults }
{
    let bytes = bytes_of_place(disk, page)?;
    Ok(Page::read(&bytes, page)?)
}
