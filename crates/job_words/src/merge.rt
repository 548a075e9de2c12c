// The words of `merge`.
ghost use Rattle.std.specs.Prelude.{IfOk};
ghost use Rattle.job_words.specs.Words as by;
ghost use Rattle.job_words.specs.MergeWords.{IsMergeJob, merge_job_of};

use crate::fields::{more_at, two_names_at};
use crate::job::WordFault;
use crate::keys::Key;
use crate::name::{Name, Names16};
use crate::read::all_settings;
use crate::settings::Setting;
use crate::table::{Kind, Need, Row, file_row, sample_row};
use std::alloc::Global;

/// Joining pictures of one size along least seams, where marks say what comes from which.
#[derive(Drop)]
pub struct MergeJob {
    /// The first picture.
    pub sample: Name,
    /// The further pictures, of which there is one at least.
    pub more: Names16,
    /// The picture of the marks.
    pub marks: Name,
    /// The picture that is written.
    pub out: Name,
    /// The map that is written.
    pub map: Name,
}

const ROWS: [Row; 19] = [
    file_row!(Sample),
    Row {
        key: Key::More(2),
        kind: Kind::FileName,
        need: Need::Always,
    },
    sample_row!(3),
    sample_row!(4),
    sample_row!(5),
    sample_row!(6),
    sample_row!(7),
    sample_row!(8),
    sample_row!(9),
    sample_row!(10),
    sample_row!(11),
    sample_row!(12),
    sample_row!(13),
    sample_row!(14),
    sample_row!(15),
    sample_row!(16),
    file_row!(Marks),
    file_row!(Out),
    file_row!(Map),
];

/// The job of the words after the command, or their first refusal.
pub fn read_merge(alloc: Global, words: &[Name]) -> Result<MergeJob, WordFault>
    ensures exact { by.AnswersAs (merge_job_of words.now) result }
    ensures lawful { IfOk result IsMergeJob }
{
    let settings = all_settings(alloc, &ROWS, words)?;
    let values: &[Setting] = &settings;
    let (sample, marks) = two_names_at(alloc, values, Key::Sample, Key::Marks)?;
    let (out, map) = two_names_at(alloc, values, Key::Out, Key::Map)?;
    Ok(MergeJob {
        sample,
        more: more_at(alloc, values)?,
        marks,
        out,
        map,
    })
}
