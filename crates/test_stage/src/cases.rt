// Runs that write a picture or clip, a map and a record: the words, what fails, and what is
// expected afterwards.
use crate::stage::{Failing, File, Stage};
use std::alloc::{AllocError, Global};

/// What the files of a run hold before it.
pub const BEFORE: &[u8] = b"as before";

/// A run over stores in memory, where every file of it stands: the words, the samples `s` and `t`, what fails, and
/// what is expected afterwards in `o`, `m` and `r`.
#[derive(Clone, Copy, Drop)]
pub struct Case<'a> {
    pub words: &'a str,
    pub sample: &'a [u8],
    pub second: &'a [u8],
    pub failing: Failing<'a>,
    pub status: u8,
    pub report: &'a str,
    pub line: &'a str,
    pub picture: &'a [u8],
    pub map: &'a [u8],
    pub record: &'a [u8],
}

// The files that a run may write, before it.
const OUTPUTS: &[File<'static>] = &[("o", BEFORE), ("m", BEFORE), ("r", BEFORE)];

// Sets both samples, and the files that a run may write.
fn put_before(stage: &mut Stage, sample: &[u8], second: &[u8]) -> Result<(), AllocError> {
    let put = stage.put_file("s", sample);
    let put = put.and(stage.put_file("t", second));
    put.and(stage.put_files(OUTPUTS))
}

// Runs a case over a stage without a file, and says whether the samples stay, and all else is as it
// is to be.
fn holds_on(stage: &mut Stage, case: &Case) -> Result<bool, AllocError> {
    put_before(stage, case.sample, case.second)?;
    stage.fail(case.failing, 0)?;
    let is_ended = stage.ends(case.words, case.status, case.report, case.line)?;
    Ok(
        is_ended
            & stage.has_file("s", case.sample)
            & stage.has_file("t", case.second)
            & stage.has_file("o", case.picture)
            & stage.has_file("m", case.map)
            & stage.has_file("r", case.record),
    )
}

/// Runs a case, and says whether all is as it is to be. The samples stay.
pub fn holds(alloc: Global, case: &Case) -> Result<bool, AllocError> {
    let mut stage = Stage::new(alloc);
    let found = holds_on(&mut stage, case);
    drop(stage);
    found
}

/// The number of the first case, from 0, that doesn't hold.
pub fn wrong_case(alloc: Global, cases: &[Case]) -> Result<Option<usize>, AllocError> {
    for (i, case) in cases.iter().enumerate() {
        if !holds(alloc, case)? {
            return Ok(Some(i));
        }
    }
    Ok(None)
}

/// A run that ends with status 0, and a second line of words, which has it checked: the words of both, the samples
/// `s` and `t`, the report, and the out file `o`.
#[derive(Clone, Copy, Drop)]
pub struct Made<'a> {
    pub words: &'a str,
    pub check: &'a str,
    pub sample: &'a [u8],
    pub second: &'a [u8],
    pub report: &'a str,
    pub picture: &'a [u8],
}

// Runs both lines over a stage without a file, and says whether all is as it is to be.
fn is_made_on(stage: &mut Stage, made: &Made) -> Result<bool, AllocError> {
    put_before(stage, made.sample, made.second)?;
    let is_reported = stage.reports(made.words, made.report)?;
    let is_written = stage.has_file("o", made.picture);
    let stands = stage.reports(made.check, "stands\n")?;
    Ok(is_reported & is_written & stands)
}

/// Runs both lines, and says whether the report and the out file are these, and the files stand.
pub fn is_made(alloc: Global, made: &Made) -> Result<bool, AllocError> {
    let mut stage = Stage::new(alloc);
    let found = is_made_on(&mut stage, made);
    drop(stage);
    found
}

/// The number of the first run, from 0, that doesn't leave what it is to leave.
pub fn wrong_made(alloc: Global, table: &[Made]) -> Result<Option<usize>, AllocError> {
    for (i, made) in table.iter().enumerate() {
        if !is_made(alloc, made)? {
            return Ok(Some(i));
        }
    }
    Ok(None)
}
