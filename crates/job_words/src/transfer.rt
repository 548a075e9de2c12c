// The words of `transfer`.
ghost use Rattle.std.specs.Prelude.{IfOk};
ghost use Rattle.job_words.specs.Words as by;
ghost use Rattle.job_words.specs.TransferWords.{IsTransferJob, transfer_job_of};

use crate::fields::{name_at, names_at, number_at};
use crate::job::{Names, WordFault};
use crate::keys::Key;
use crate::name::Name;
use crate::read::all_settings;
use crate::settings::Setting;
use crate::table::{
    Choice, Kind, Need, Row, block_row, file_row, number_row, overlap_row, seed_row, tol_row,
};
use limits::GREATEST_ALPHA;
use std::alloc::Global;

/// Painting a target picture with blocks of another one.
#[derive(Drop)]
pub struct TransferJob {
    /// The files: there is no further sample.
    pub names: Names,
    /// The picture that is painted, whose size is the output's.
    pub target: Name,
    /// How many cells a block has on an axis, cut to the sample and the output: 1 to 4,096.
    pub block: u32,
    /// How many cells neighbouring blocks share on an axis, cut to the block: 0 to 4,095.
    pub overlap: u32,
    /// By how much more than the best a pick may differ, in hundredths: 0 to 1,000.
    pub tol: u32,
    /// What the overlap weighs beside the target, in hundredths: 0 to 100.
    pub alpha: u32,
    /// The seed of the draws.
    pub seed: u64,
}

const ROWS: [Row; 10] = [
    file_row!(Sample),
    file_row!(Target),
    file_row!(Out),
    file_row!(Map),
    file_row!(Record),
    block_row!(),
    overlap_row!(5),
    tol_row!(),
    number_row!(Alpha, 0, GREATEST_ALPHA as u64, 50),
    seed_row!(),
];

/// The job of the words after the command, or their first refusal.
pub fn read_transfer(alloc: Global, words: &[Name]) -> Result<TransferJob, WordFault>
    ensures exact { by.AnswersAs (transfer_job_of words.now) result }
    ensures lawful { IfOk result IsTransferJob }
{
    let settings = all_settings(alloc, &ROWS, words)?;
    let values: &[Setting] = &settings;
    Ok(TransferJob {
        target: name_at(alloc, values, Key::Target)?,
        names: names_at(alloc, values)?,
        block: number_at(values, Key::Block) as u32,
        overlap: number_at(values, Key::Overlap) as u32,
        tol: number_at(values, Key::Tol) as u32,
        alpha: number_at(values, Key::Alpha) as u32,
        seed: number_at(values, Key::Seed),
    })
}
