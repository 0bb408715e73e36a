//! Bytes that are handed out in memory that the caller has.
//! Stores and worlds call this, for answers that outlast the call.

ghost use Rattle.std.specs.Prelude.{◌≡◌, ◌≤◌, length, vec_capacity};

/// Puts these bytes in place of those that are there.
pub fn copy_into(bytes: &[u8], into: &mut Vec<u8>)
    requires { length bytes.now ≤ vec_capacity into.old }
    ensures items { into.new.items ≡ bytes.now }
    ensures room { vec_capacity into.old ≤ vec_capacity into.new }
{
    into.clear();
    let _ = into.extend_from_slice(bytes);
}
