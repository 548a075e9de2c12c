// The words of `quilt`.
ghost use Rattle.std.specs.Prelude.{IfOk};
ghost use Rattle.job_words.specs.Words as by;
ghost use Rattle.job_words.specs.Jobs.{IsJob, quilt_asked};

use crate::fields::{names_at, number_at};
use crate::job::{Job, Names, WordFault};
use crate::keys::Key;
use crate::name::Name;
use crate::read::all_settings;
use crate::settings::Setting;
use crate::table::{
    Choice, Kind, Need, Row, block_row, file_row, number_row, overlap_row, seed_row, tol_row,
    with_one_sample,
};
use limits::GREATEST_AXIS;
use std::alloc::Global;

/// Quilting an output from the blocks of one picture.
#[derive(Drop)]
pub struct QuiltJob {
    /// The files: there is no further sample.
    pub names: Names,
    /// The output's columns of cells: 1 to 4,096.
    pub w: u32,
    /// The output's rows of cells: 1 to 4,096.
    pub h: u32,
    /// How many cells a block has on an axis, cut to the sample and the output: 1 to 4,096.
    pub block: u32,
    /// How many cells neighbouring blocks share on an axis, cut to the block: 0 to 4,095.
    pub overlap: u32,
    /// By how much more than the best a pick may differ, in hundredths: 0 to 1,000.
    pub tol: u32,
    /// The seed of the draws.
    pub seed: u64,
}

const ROWS: [Row; 10] = with_one_sample![
    number_row!(Width, 1, GREATEST_AXIS as u64),
    number_row!(Height, 1, GREATEST_AXIS as u64),
    block_row!(),
    overlap_row!(5),
    tol_row!(),
    seed_row!(),
];

/// The job of the words after the command, or their first refusal.
pub fn read_quilt(alloc: Global, words: &[Name]) -> Result<Job, WordFault>
    ensures exact { by.AnswersAs (quilt_asked words.now) result }
    ensures lawful { IfOk result IsJob }
{
    let settings = all_settings(alloc, &ROWS, words)?;
    let values: &[Setting] = &settings;
    Ok(Job::Quilt(QuiltJob {
        names: names_at(alloc, values)?,
        w: number_at(values, Key::Width) as u32,
        h: number_at(values, Key::Height) as u32,
        block: number_at(values, Key::Block) as u32,
        overlap: number_at(values, Key::Overlap) as u32,
        tol: number_at(values, Key::Tol) as u32,
        seed: number_at(values, Key::Seed),
    }))
}
