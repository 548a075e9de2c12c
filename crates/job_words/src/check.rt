// The words of `check`.
ghost use Rattle.std.specs.Prelude.{IfOk};
ghost use Rattle.job_words.specs.Words as by;
ghost use Rattle.job_words.specs.Jobs.{IsJob, check_asked};

use crate::fields::{names_at, turns_at};
use crate::job::{Job, Names, WordFault};
use crate::keys::Key;
use crate::name::Name;
use crate::read::all_settings;
use crate::table::{Choice, Kind, Need, Row, Texts, file_row, sample_row, turns_row, with_files};
use std::alloc::Global;

/// Checking the files of a run.
#[derive(Drop)]
pub struct CheckJob {
    /// The files, all of which are read.
    pub names: Names,
    /// Whether the run was one over the turns of its samples.
    pub turns: bool,
}

const ROWS: [Row; 20] = with_files![turns_row!()];

/// The job of the words after the command, or their first refusal.
pub fn read_check(alloc: Global, words: &[Name]) -> Result<Job, WordFault>
    ensures exact { by.AnswersAs (check_asked words.now) result }
    ensures lawful { IfOk result IsJob }
{
    let settings = all_settings(alloc, &ROWS, words)?;
    let names = names_at(alloc, &settings)?;
    let turns = turns_at(&settings);
    Ok(Job::Check(CheckJob { names, turns }))
}
