//! What is put on a leaf when a record comes or goes: the bytes from its place on, and how many records there are then.
//! The bytes are worked out from the page as it is read; nothing here asks for a page.

ghost use Rattle.std.specs.Prelude.{◌≡◌, ℕ, ◌+◌, ◌*◌, ◌-◌, ◌<◌, ◌≤◌, ◌++◌, length, take, drop};
ghost use Rattle.stored_pages.specs.declared.layout.TheConstants.{PAGE};
ghost use Rattle.page_format.specs.declared.layout.TheConstants.{RECORDS};
ghost use Rattle.page_format.specs.Words.{count_of, record_len_of};

use page_format::layout::{COUNT, RECORDS, WIDTH};
use stored_pages::layout::PAGE;
use stored_pages::read_u16;

/// How many bytes of records a page has at most.
const MOST: usize = PAGE - RECORDS;

/// The bytes that are written over the leaf's from a place on, and its new count of records.
#[derive(Drop)]
pub struct Edit {
    pub at: u16,
    pub len: u16,
    pub count: u16,
    pub piece: [u8; MOST],
    ghost behind_fields: { RECORDS ≤ at },
    ghost inside: { at + len ≤ PAGE },
}

/// Where the record of that number begins.
pub fn begin_of(bytes: &[u8], i: u16) -> usize
    requires { length bytes.now ≡ PAGE }
    ensures { result ≡ RECORDS + i * record_len_of bytes.now }
{
    RECORDS + usize::from(i) * usize::from(read_u16(bytes, WIDTH))
}

/// Writes one more piece behind those that are there, and answers where it ends.
pub fn lay(into: &mut [u8], at: usize, piece: &[u8]) -> usize
    requires { at + length piece.now ≤ length into.old }
    ensures end { result ≡ at + length piece.now }
    ensures front { take result into.new ≡ take at into.old ++ piece.now }
    ensures whole { into.new ≡ take at into.old ++ (piece.now ++ drop (at + length piece.now) into.old) }
{
    let end = at + piece.len();
    into[at..end].copy_from_slice(piece);
    end
}

impl Edit {
    ghost use Rattle.btree_change.specs.Edits.{piece_of, IsInsertion, IsRemoval};

    /// The bytes that are put.
    pub fn bytes(&self) -> &[u8]
        ensures { result.now ≡ piece_of self.now }
    {
        &self.piece[..usize::from(self.len)]
    }

    /// A record is put in at a place.
    pub fn insertion(bytes: &[u8], i: u16, key: &[u8], value: &[u8]) -> Edit
        requires size { length bytes.now ≡ PAGE }
        requires place { i ≤ count_of bytes.now }
        requires some { 0 < length key.now }
        requires width { length key.now + length value.now ≡ record_len_of bytes.now }
        requires room { RECORDS + (count_of bytes.now + 1) * record_len_of bytes.now ≤ PAGE }
        ensures { IsInsertion i (key.now ++ value.now) bytes.now result }
    {
        let count = read_u16(bytes, COUNT);
        let at = begin_of(bytes, i);
        let end = begin_of(bytes, count);
        let mut piece = [0; MOST];
        let behind_key = lay(&mut piece, 0, key);
        let behind_value = lay(&mut piece, behind_key, value);
        let len = lay(&mut piece, behind_value, &bytes[at..end]);
        Edit {
            at: at as u16,
            len: len as u16,
            count: count + 1,
            piece,
        }
    }

    /// The record at a place is taken out, and zeros stand where the last one was.
    pub fn removal(bytes: &[u8], i: u16) -> Edit
        requires size { length bytes.now ≡ PAGE }
        requires place { i < count_of bytes.now }
        requires inside { RECORDS + count_of bytes.now * record_len_of bytes.now ≤ PAGE }
        ensures { IsRemoval i bytes.now result }
    {
        let count = read_u16(bytes, COUNT);
        let width = usize::from(read_u16(bytes, WIDTH));
        let at = begin_of(bytes, i);
        let end = begin_of(bytes, count);
        let mut piece = [0; MOST];
        let moved = lay(&mut piece, 0, &bytes[at + width..end]);
        Edit {
            at: at as u16,
            len: (moved + width) as u16,
            count: count - 1,
            piece,
        }
    }
}
