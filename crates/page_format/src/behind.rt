//! The bytes of a page behind one of its fields.
//! Nothing here knows what a page is.

ghost use Rattle.std.specs.Prelude.{◌≡◌, ◌+◌, ◌≤◌, length, drop};

/// The bytes from a place on.
pub fn behind(bytes: &[u8], at: usize) -> &[u8]
    requires { at ≤ length bytes.now }
    ensures value { result.now ≡ drop at bytes.now }
    ensures length { at + length result.now ≡ length bytes.now }
{
    bytes.split_at(at).1
}
