// What was found beside what was wanted, one function for each kind of value: an assert in a function with a type
// parameter takes long to be proved, and a call of one that has it takes nearly nothing.
use std::process::Abort;

pub(crate) fn check_bytes(rt: &impl Abort, found: &[u8], want: &[u8]) {
    assert_eq!(rt; found, want);
}

pub(crate) fn check_text(rt: &impl Abort, found: &str, want: &str) {
    assert_eq!(rt; found, want);
}

pub(crate) fn check_count(rt: &impl Abort, found: u32, want: u32) {
    assert_eq!(rt; found, want);
}

// The answer for a row of a table.
pub(crate) fn check_row(rt: &impl Abort, found: bool, want: bool, row: &[u8]) {
    assert_eq!(rt; found, want, "{row:?}");
}
