// Asserts in functions of their own: what has many of them in it is proved slowly.
use nx_records::{Rid, StoreError};
use std::process::Abort;

/// These bytes were found.
pub fn check_bytes(rt: &impl Abort, found: &[u8], expected: &[u8]) {
    assert_eq!(rt; found, expected);
}

/// So many were found.
pub fn check_count(rt: &impl Abort, found: u64, expected: u64) {
    assert_eq!(rt; found, expected);
}

/// A record stands there.
pub fn check_place(rt: &impl Abort, found: Rid, expected: Rid) {
    assert_eq!(rt; found, expected);
}

/// This was answered.
pub fn check_answer(
    rt: &impl Abort,
    found: Result<(), StoreError>,
    expected: Result<(), StoreError>,
) {
    assert_eq!(rt; found, expected);
}
