//! Edits of bytes: a piece that is written over, moved or cleared.
//! Nothing here knows what a page is.

ghost use Rattle.std.specs.Prelude.{◌≡◌, ℕ, ◌+◌, ◌-◌, ◌≤◌, ◌++◌, length, take, drop, replicate};

/// Writes a piece over the bytes from a place on.
pub fn write_over(bytes: &mut [u8], at: usize, piece: &[u8])
    requires { at + length piece.now ≤ length bytes.old }
    ensures { bytes.new ≡ take at bytes.old ++ (piece.now ++ drop (at + length piece.now) bytes.old) }
{
    bytes[at..at + piece.len()].copy_from_slice(piece);
}

/// Clears the bytes from one place to another.
pub fn clear(bytes: &mut [u8], from: usize, to: usize)
    requires order { from ≤ to }
    requires inside { to ≤ length bytes.old }
    ensures { bytes.new ≡ take from bytes.old ++ (replicate (to - from) 0 ++ drop to bytes.old) }
{
    for byte in bytes[from..to].iter_mut() {
        *byte = 0;
    }
}

/// Moves the bytes from one place to another, to begin elsewhere.
pub fn move_piece(bytes: &mut [u8], from: usize, to: usize, at: usize)
    requires order { from ≤ to }
    requires inside { to ≤ length bytes.old }
    requires room { at + (to - from) ≤ length bytes.old }
    ensures { bytes.new ≡ take at bytes.old ++ (take (to - from) (drop from bytes.old) ++ drop (at + (to - from)) bytes.old) }
{
    bytes.copy_within(from..to, at);
}

/// Puts a piece in, and moves the bytes from there to an end behind it.
pub fn insert_piece(bytes: &mut [u8], at: usize, end: usize, piece: &[u8])
    requires order { at ≤ end }
    requires room { end + length piece.now ≤ length bytes.old }
    ensures { bytes.new ≡ take at bytes.old
        ++ (piece.now ++ (take (end - at) (drop at bytes.old) ++ drop (end + length piece.now) bytes.old)) }
{
    move_piece(bytes, at, end, at + piece.len());
    write_over(bytes, at, piece);
}

/// Takes a piece out, moves the bytes from there to an end in its place, and clears what they leave.
pub fn remove_piece(bytes: &mut [u8], at: usize, end: usize, len: usize)
    requires order { at + len ≤ end }
    requires inside { end ≤ length bytes.old }
    ensures { bytes.new ≡ take at bytes.old
        ++ (take (end - (at + len)) (drop (at + len) bytes.old) ++ (replicate len 0 ++ drop end bytes.old)) }
{
    move_piece(bytes, at + len, end, at);
    clear(bytes, end - len, end);
}
