//! Sums that are published for 64-bit FNV-1a.
//! Only `sum64` is tried.

use sum64::fnv;

#[test]
fn published_vectors(rt: HostRuntime) {
    assert_eq!(rt; fnv(b""), 0xcbf29ce484222325);
    assert_eq!(rt; fnv(b"a"), 0xaf63dc4c8601ec8c);
    assert_eq!(rt; fnv(b"foobar"), 0x85944171f73967e8);
}
