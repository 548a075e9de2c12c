// Runs that are refused: every file stays, and nothing is reported.
use crate::cases::{BEFORE, Case, holds};
use crate::rows::NO_CELL;
use crate::stage::Failing;
use std::alloc::{AllocError, Global};

/// Whether a run over one sample is refused with this status and this line.
pub fn refused<'a>(
    alloc: Global,
    words: &'a str,
    sample: &'a [u8],
    status: u8,
    line: &'a str,
) -> Result<bool, AllocError> {
    let case = Case {
        words,
        sample,
        second: NO_CELL,
        failing: Failing::Nothing,
        status,
        report: "",
        line,
        picture: BEFORE,
        map: BEFORE,
        record: BEFORE,
    };
    holds(alloc, &case)
}

/// The number of the first sample, from 0, that isn't refused with its status and its line.
pub fn wrong_sample(
    alloc: Global,
    words: &str,
    table: &[(&[u8], u8, &str)],
) -> Result<Option<usize>, AllocError> {
    for (i, (sample, status, line)) in table.iter().enumerate() {
        if !refused(alloc, words, *sample, *status, *line)? {
            return Ok(Some(i));
        }
    }
    Ok(None)
}

/// The number of the first words, from 0, that aren't refused with their status and their line.
pub fn wrong_words(
    alloc: Global,
    sample: &[u8],
    table: &[(&str, u8, &str)],
) -> Result<Option<usize>, AllocError> {
    for (i, (words, status, line)) in table.iter().enumerate() {
        if !refused(alloc, *words, sample, *status, *line)? {
            return Ok(Some(i));
        }
    }
    Ok(None)
}
