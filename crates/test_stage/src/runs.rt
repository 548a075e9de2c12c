// One run over files in memory.
use crate::stage::{Failing, File, Stage};
use std::alloc::{AllocError, Global};

/// A run: its words, the files before it, what fails, how it ends, and the files after it. The first call of the kind
/// fails.
#[derive(Clone, Copy, Drop)]
pub struct Run<'a> {
    pub words: &'a str,
    pub before: &'a [File<'a>],
    pub failing: Failing<'a>,
    pub status: u8,
    pub report: &'a str,
    pub line: &'a str,
    pub after: &'a [File<'a>],
}

// The same over a stage without a file.
fn leaves_on(stage: &mut Stage, run: &Run) -> Result<bool, AllocError> {
    stage.put_files(run.before)?;
    stage.fail(run.failing, 0)?;
    let is_ended = stage.ends(run.words, run.status, run.report, run.line)?;
    Ok(is_ended & stage.has_files(run.after))
}

/// Whether a run ends so, and leaves these files.
pub fn leaves(alloc: Global, run: &Run) -> Result<bool, AllocError> {
    let mut stage = Stage::new(alloc);
    let found = leaves_on(&mut stage, run);
    drop(stage);
    found
}

/// The number of the first run, from 0, that ends otherwise or leaves other files.
pub fn wrong_run(alloc: Global, table: &[Run]) -> Result<Option<usize>, AllocError> {
    for (i, run) in table.iter().enumerate() {
        if !leaves(alloc, run)? {
            return Ok(Some(i));
        }
    }
    Ok(None)
}
