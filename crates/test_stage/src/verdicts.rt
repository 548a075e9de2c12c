// Runs of `check`: the files, some bytes of them changed, and what is said of them.
use crate::stage::{Failing, Stage};
use std::alloc::{AllocError, Global};

/// What is checked, and what is to be said: the sample `s`, the out file `o`, the map `m` and the record `r`, each other byte
/// of a file by its name and its place, and status, report and line.
#[derive(Clone, Copy, Drop)]
pub struct Verdict<'a> {
    pub sample: &'a [u8],
    pub picture: &'a [u8],
    pub map: &'a [u8],
    pub record: &'a [u8],
    pub bytes: &'a [(&'a str, usize, u8)],
    pub status: u8,
    pub report: &'a str,
    pub line: &'a str,
}

const FILES: &str = "check sample=s out=o map=m record=r";

// Sets a file that may neither be begun nor added to.
fn put_kept(stage: &mut Stage, name: &str, bytes: &[u8]) -> Result<(), AllocError> {
    let put = stage.put_file(name, bytes);
    let put = put.and(stage.fail(Failing::Begin(name), 0));
    put.and(stage.fail(Failing::Add(name, 0), 0))
}

// Sets a file with the other bytes of its name.
fn put_changed(
    alloc: Global,
    stage: &mut Stage,
    name: &str,
    file: &[u8],
    bytes: &[(&str, usize, u8)],
) -> Result<(), AllocError> {
    let mut all = Vec::from_slice(alloc, file)?;
    for (of, at, byte) in bytes {
        if *of == name
            && let Some(old) = all.get_mut(*at)
        {
            *old = *byte;
        }
    }
    let put = put_kept(stage, name, &all);
    drop(all);
    put
}

fn put_all(alloc: Global, stage: &mut Stage, of: &Verdict) -> Result<(), AllocError> {
    let put = put_changed(alloc, stage, "s", of.sample, of.bytes);
    let put = put.and(put_changed(alloc, stage, "o", of.picture, of.bytes));
    let put = put.and(put_changed(alloc, stage, "m", of.map, of.bytes));
    put.and(put_changed(alloc, stage, "r", of.record, of.bytes))
}

// Checks the files of a stage by these words, and says whether all is as it is to be.
fn is_judged_on(
    alloc: Global,
    stage: &mut Stage,
    words: &str,
    of: &Verdict,
) -> Result<bool, AllocError> {
    put_all(alloc, stage, of)?;
    let is_ended = stage.ends(words, of.status, of.report, of.line)?;
    Ok(is_ended & (stage.write_faults() == 0))
}

// Checks the files by these words, and says whether status, report and line are these, and no file is written.
fn is_judged_by(alloc: Global, words: &str, of: &Verdict) -> Result<bool, AllocError> {
    let mut stage = Stage::new(alloc);
    let found = is_judged_on(alloc, &mut stage, words, of);
    drop(stage);
    found
}

/// The number of the first files, from 0, of which something else is said by these words.
pub fn wrong_verdict_by(
    alloc: Global,
    words: &str,
    table: &[Verdict],
) -> Result<Option<usize>, AllocError> {
    for (i, of) in table.iter().enumerate() {
        if !is_judged_by(alloc, words, of)? {
            return Ok(Some(i));
        }
    }
    Ok(None)
}

/// The number of the first files, from 0, of which something else is said.
pub fn wrong_verdict(alloc: Global, table: &[Verdict]) -> Result<Option<usize>, AllocError> {
    wrong_verdict_by(alloc, FILES, table)
}
