// Tables of rows of one shape each, and what a test asserts of an answer. A test that ends with a
// value and asserts one by one is several times as long to prove.
use crate::merged::{Merge, wrong_merge};
use std::alloc::{AllocError, Global};
use std::process::Abort;
use test_stage::{
    Case, Long, Made, Run, Verdict, wrong_case, wrong_long, wrong_made, wrong_run, wrong_sample,
    wrong_verdict, wrong_verdict_by, wrong_words,
};

/// Rows of one shape, with the words, the sample or the byte that they share.
#[derive(Clone, Copy, Drop)]
pub enum Table<'a> {
    Cases(&'a [Case<'a>]),
    Made(&'a [Made<'a>]),
    Runs(&'a [Run<'a>]),
    Merges(&'a [Merge<'a>]),
    Verdicts(&'a [Verdict<'a>]),
    VerdictsBy(&'a str, &'a [Verdict<'a>]),
    Words(&'a [u8], &'a [(&'a str, u8, &'a str)]),
    Samples(&'a str, &'a [(&'a [u8], u8, &'a str)]),
    Long(&'a str, u8, &'a [Long<'a>]),
}

// The number of the first row of a table, from 0, that isn't as it is to be.
fn wrong_row(alloc: Global, table: Table) -> Result<Option<usize>, AllocError> {
    match table {
        Table::Cases(rows) => wrong_case(alloc, rows),
        Table::Made(rows) => wrong_made(alloc, rows),
        Table::Runs(rows) => wrong_run(alloc, rows),
        Table::Merges(rows) => wrong_merge(alloc, rows),
        Table::Verdicts(rows) => wrong_verdict(alloc, rows),
        Table::VerdictsBy(words, rows) => wrong_verdict_by(alloc, words, rows),
        Table::Words(sample, rows) => wrong_words(alloc, sample, rows),
        Table::Samples(words, rows) => wrong_sample(alloc, words, rows),
        Table::Long(words, byte, rows) => wrong_long(alloc, words, byte, rows),
    }
}

/// Asserts that every row of a table is as it is to be.
pub fn expect_table(rt: &impl Abort, alloc: Global, table: Table) {
    expect_none(rt, wrong_row(alloc, table));
}

/// Asserts that nothing is wrong of a pair of tables: what was found else are its numbers in both.
pub fn expect_no_pair(rt: &impl Abort, found: Result<Option<(usize, usize)>, AllocError>) {
    let is_none = matches!(found, Ok(None));
    assert!(rt; is_none, "{found:?}");
}

/// Asserts that nothing is wrong: what was found else is its number.
pub fn expect_none(rt: &impl Abort, found: Result<Option<usize>, AllocError>) {
    let is_none = matches!(found, Ok(None));
    assert!(rt; is_none, "{found:?}");
}

/// Asserts that all is as expected.
pub fn expect_true(rt: &impl Abort, found: Result<bool, AllocError>) {
    let is_true = matches!(found, Ok(true));
    assert!(rt; is_true, "{found:?}");
}
