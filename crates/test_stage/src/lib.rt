//! The stage of the whole runs: a line of words is run over files in memory, and what is there afterwards is held against
//! what is expected.
//!
//! `test_runs` has whole runs of weave as tests, by what is here; `fuzz` runs its cases over a stage. No function has a
//! contract: each says whether all is as expected, or which row of a table is the first that isn't, and a test asserts that.
//! `stage` runs a line, `cases` has runs that write, `refusals` those that are refused, `verdicts` those of `check`, and
//! `rows` worked examples.
#![tactic(auto)]

mod bytes;
mod cases;
mod refusals;
mod rows;
mod runs;
mod stage;
mod verdicts;

pub use bytes::{Long, filled, wrong_long};
pub use cases::{BEFORE, Case, Made, holds, is_made, wrong_case, wrong_made};
pub use refusals::{refused, wrong_sample, wrong_words};
pub use rows::{
    FOUR_CELLS, NO_CELL, ONE_CELL, ONE_TURNED, ONE_TURNED_MAP, ONE_TURNED_RECORD, OVERLAP_MAP,
    OVERLAP_PICTURE, OVERLAP_RECORD, OVERLAPPING, SIX_CELLS,
};
pub use runs::{Run, leaves, wrong_run};
pub use stage::{Failing, File, Stage, is_file, ran};
pub use verdicts::{Verdict, wrong_verdict, wrong_verdict_by};
