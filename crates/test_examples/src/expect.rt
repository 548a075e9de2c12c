// What a test asserts of an answer. Where there is no memory the process ends: a second way out of a function, past the
// values that it owns, is long to prove.
use std::alloc::AllocError;
use std::process::Abort;

/// Asserts that all is as expected.
pub fn expect_true(rt: &impl Abort, is_so: bool) {
    assert!(rt; is_so);
}

/// Asserts that a row of a table is as expected, by its number from 0.
pub fn expect_row(rt: &impl Abort, i: usize, is_so: bool) {
    assert!(rt; is_so, "row {i}");
}

/// Asserts that nothing is wrong: what was found else is its number.
pub fn expect_none(rt: &impl Abort, found: Result<Option<usize>, AllocError>) {
    let is_none = matches!(found, Ok(None));
    assert!(rt; is_none, "{found:?}");
}
