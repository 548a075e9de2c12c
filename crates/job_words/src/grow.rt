// The words of `grow`.
ghost use Rattle.std.specs.Prelude.{◌≡◌, ◌<◌, IfOk};
ghost use Rattle.job_words.specs.Words as by;
ghost use Rattle.job_words.specs.Jobs.{IsJob, grow_asked};
ghost use Rattle.job_words.specs.GrowWords.{place_nth};

use crate::fields::{names_at, nth_at, number_at, size_at, turns_at};
use crate::job::{Job, Names, WordFault};
use crate::keys::Key;
use crate::name::Name;
use crate::read::all_settings;
use crate::settings::Setting;
use crate::table::{
    Choice, Kind, Need, Row, Texts, file_row, number_row, overlap_row, place_row, rounds_row,
    sample_row, seed_row, side_row, tol_row, turns_row, with_files,
};
use cells::Size;
use limits::GREATEST_AXIS;
use std::alloc::Global;

/// How the places of patches are chosen.
#[derive(Clone, Copy, Drop, PartialEq, Eq)]
pub enum Place {
    /// Copies of the whole first sample in a grid, of which neighbouring ones share `overlap` cells.
    Grid,
    /// Copies of the whole sample, laid at random.
    Random,
    /// Copies of the whole sample, laid where they fit what is there.
    Whole,
    /// Patches of the sample that fit what is there.
    Sub,
}

/// Growing an output from samples.
#[derive(Drop)]
pub struct GrowJob {
    pub names: Names,
    /// The output's size in cells: 1 to 4,096 on each axis.
    pub size: Size,
    pub place: Place,
    /// How many cells a patch has on an axis, cut to the sample and the output: 1 to 4,096.
    pub side: u32,
    /// How many cells neighbouring patches share on an axis, cut to the patch: 0 to 4,095.
    pub overlap: u32,
    /// By how much more than the best a pick may differ, in hundredths: 0 to 1,000.
    pub tol: u32,
    /// The most rounds of refinement: 0 to 1,000.
    pub rounds: u32,
    /// The seed of the draws.
    pub seed: u64,
    /// Whether the quarter turns and mirrors of the samples are parts too.
    pub turns: bool,
}

const ROWS: [Row; 29] = with_files![
    number_row!(Width, 1, GREATEST_AXIS as u64),
    number_row!(Height, 1, GREATEST_AXIS as u64),
    number_row!(Frames, 1, GREATEST_AXIS as u64, 1),
    place_row!(),
    side_row!(),
    overlap_row!(8),
    tol_row!(),
    rounds_row!(0),
    seed_row!(),
    turns_row!(),
];

/// The mode at a position of their list.
pub fn place_nth(n: usize) -> Place
    requires { n < 4 }
    ensures { result ≡ place_nth n }
{
    [Place::Grid, Place::Random, Place::Whole, Place::Sub][n]
}

/// The job of the words after the command, or their first refusal.
pub fn read_grow(alloc: Global, words: &[Name]) -> Result<Job, WordFault>
    ensures exact { by.AnswersAs (grow_asked words.now) result }
    ensures lawful { IfOk result IsJob }
{
    let settings = all_settings(alloc, &ROWS, words)?;
    let values: &[Setting] = &settings;
    Ok(Job::Grow(GrowJob {
        names: names_at(alloc, values)?,
        size: size_at(values),
        place: place_nth(nth_at(values, Key::Place)),
        side: number_at(values, Key::Side) as u32,
        overlap: number_at(values, Key::Overlap) as u32,
        tol: number_at(values, Key::Tol) as u32,
        rounds: number_at(values, Key::Rounds) as u32,
        seed: number_at(values, Key::Seed),
        turns: turns_at(values),
    }))
}
