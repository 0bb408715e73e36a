//! A root that stands above one page alone, laid out from the bytes of the root before it. Nothing here asks for a
//! page. `raises` alone calls it, and puts the root into its place.

ghost use Rattle.std.specs.Prelude.{◌≡◌, ◌<◌, ◌≤◌, length};
ghost use Rattle.page_format.specs.declared.layout.TheConstants.{FENCE};
ghost use Rattle.page_format.specs.Shape.{HasTreeFields};
ghost use Rattle.btree_grow.specs.Raised.{IsRaised};

use big_endian::{u16_bytes, u32_bytes};
use btree_change::lay;
use page_format::layout::{CHILD, COUNT, INNER, KIND, RECORDS, WIDTH};
use stored_pages::layout::PAGE;

/// The root above the page of that number, on that level: its place is the same, and its one record begins with zeros.
pub fn raised_root(bytes: &[u8], key_len: u8, number: u32, level: u8) -> [u8; PAGE]
    requires size { length bytes.now ≡ PAGE }
    requires short { key_len ≤ FENCE }
    requires inner { 0 < level }
    requires low { level ≤ 7 }
    ensures { HasTreeFields bytes.now → IsRaised key_len number level bytes.now result }
{
    let mut root = [0; PAGE];
    lay(&mut root, 0, &bytes[..RECORDS]);
    lay(&mut root, KIND, &[INNER, level]);
    lay(&mut root, COUNT, &u16_bytes(1));
    lay(
        &mut root,
        WIDTH,
        &u16_bytes(u16::from(key_len) + CHILD as u16),
    );
    lay(
        &mut root,
        RECORDS + usize::from(key_len),
        &u32_bytes(number),
    );
    root
}
