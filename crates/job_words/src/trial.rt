// The words of `trial`.
ghost use Rattle.std.specs.Prelude.{IfOk};
ghost use Rattle.job_words.specs.Words as by;
ghost use Rattle.job_words.specs.Jobs.{IsJob, trial_asked};

use crate::fields::{nth_at, number_at};
use crate::grow::{Place, place_nth};
use crate::job::{Job, WordFault};
use crate::keys::Key;
use crate::name::Name;
use crate::read::all_settings;
use crate::settings::Setting;
use crate::table::{
    Choice, Kind, Need, Row, Texts, number_row, overlap_row, place_row, rounds_row, seed_row,
    side_row, tol_row,
};
use cells::Size;
use limits::{GREATEST_AXIS, GREATEST_SAMPLE_NUMBER};
use std::alloc::Global;

/// Growing an output from a sample that is made of a number. What isn't described here is as in `GrowJob`.
#[derive(Drop)]
pub struct TrialJob {
    /// The number of the sample.
    pub n: u32,
    /// The output's size in cells: 1 to 4,096 columns and rows, and one frame.
    pub size: Size,
    pub place: Place,
    pub side: u32,
    pub overlap: u32,
    pub tol: u32,
    pub rounds: u32,
    pub seed: u64,
}

const ROWS: [Row; 9] = [
    number_row!(Width, 1, GREATEST_AXIS as u64, 256),
    number_row!(Height, 1, GREATEST_AXIS as u64, 256),
    number_row!(N, 0, GREATEST_SAMPLE_NUMBER as u64),
    place_row!(),
    side_row!(),
    overlap_row!(8),
    tol_row!(),
    rounds_row!(5),
    seed_row!(),
];

/// The job of the words after the command, or their first refusal.
pub fn read_trial(alloc: Global, words: &[Name]) -> Result<Job, WordFault>
    ensures exact { by.AnswersAs (trial_asked words.now) result }
    ensures lawful { IfOk result IsJob }
{
    let settings = all_settings(alloc, &ROWS, words)?;
    let values: &[Setting] = &settings;
    Ok(Job::Trial(TrialJob {
        n: number_at(values, Key::N) as u32,
        size: Size {
            w: number_at(values, Key::Width) as u32,
            h: number_at(values, Key::Height) as u32,
            f: 1,
        },
        place: place_nth(nth_at(values, Key::Place)),
        side: number_at(values, Key::Side) as u32,
        overlap: number_at(values, Key::Overlap) as u32,
        tol: number_at(values, Key::Tol) as u32,
        rounds: number_at(values, Key::Rounds) as u32,
        seed: number_at(values, Key::Seed),
    }))
}
