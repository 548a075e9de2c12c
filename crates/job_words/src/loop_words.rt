// The words of `loop`.
ghost use Rattle.std.specs.Prelude.{◌≡◌, IfOk};
ghost use Rattle.job_words.specs.Words as by;
ghost use Rattle.job_words.specs.Jobs.{IsJob, loop_asked};
ghost use Rattle.job_words.specs.LoopWords.{taps_of};

use crate::fields::{names_at, number_at};
use crate::job::{Job, Names, WordFault};
use crate::keys::Key;
use crate::name::Name;
use crate::read::all_settings;
use crate::settings::Setting;
use crate::table::{Choice, Kind, Need, Row, file_row, number_row, with_one_sample};
use cells::Taps;
use limits::{LONGEST_LOOP, WIDEST_GAP};
use std::alloc::Global;

/// Looping the frames of one clip.
#[derive(Drop)]
pub struct LoopJob {
    /// The files: there is no further sample.
    pub names: Names,
    /// The frames of the loop: 1 to 4,096.
    pub length: u32,
    /// The filter of frame distances.
    pub taps: Taps,
    /// How many frames from the next one, at least, a jump of the loop ends: 1 to 256.
    pub gap: u32,
}

const ROWS: [Row; 7] = with_one_sample![
    number_row!(Length, 1, LONGEST_LOOP as u64),
    Row {
        key: Key::Taps,
        kind: Kind::Among(0, 2, 4),
        need: Need::Default(Choice::Number(4)),
    },
    number_row!(Gap, 1, WIDEST_GAP as u64, 1),
];

// The filter of so many taps.
fn taps_of(number: u64) -> Taps
    ensures { result ≡ taps_of number }
{
    match number {
        0 => Taps::None0,
        2 => Taps::Two,
        _ => Taps::Four,
    }
}

/// The job of the words after the command, or their first refusal.
pub fn read_loop(alloc: Global, words: &[Name]) -> Result<Job, WordFault>
    ensures exact { by.AnswersAs (loop_asked words.now) result }
    ensures lawful { IfOk result IsJob }
{
    let settings = all_settings(alloc, &ROWS, words)?;
    let values: &[Setting] = &settings;
    Ok(Job::Loop(LoopJob {
        names: names_at(alloc, values)?,
        length: number_at(values, Key::Length) as u32,
        taps: taps_of(number_at(values, Key::Taps)),
        gap: number_at(values, Key::Gap) as u32,
    }))
}
