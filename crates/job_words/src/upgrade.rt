// The words of `upgrade`.
ghost use Rattle.std.specs.Prelude.{IfOk};
ghost use Rattle.job_words.specs.Words as by;
ghost use Rattle.job_words.specs.Jobs.{IsJob, upgrade_asked};

use crate::fields::two_names_at;
use crate::job::{Job, WordFault};
use crate::keys::Key;
use crate::name::Name;
use crate::read::all_settings;
use crate::settings::Setting;
use crate::table::{Kind, Need, Row, file_row};
use std::alloc::Global;

/// Writing a map and a record of one sample in the form of those of several samples.
#[derive(Drop)]
pub struct UpgradeJob {
    /// The map, which is read.
    pub map: Name,
    /// The record, which is read.
    pub record_file: Name,
    /// The map that is written.
    pub new_map: Name,
    /// The record that is written.
    pub new_record_file: Name,
}

const ROWS: [Row; 4] = [
    file_row!(Map),
    file_row!(Record),
    file_row!(NewMap),
    file_row!(NewRecord),
];

/// The job of the words after the command, or their first refusal.
pub fn read_upgrade(alloc: Global, words: &[Name]) -> Result<Job, WordFault>
    ensures exact { by.AnswersAs (upgrade_asked words.now) result }
    ensures lawful { IfOk result IsJob }
{
    let settings = all_settings(alloc, &ROWS, words)?;
    let values: &[Setting] = &settings;
    let (map, record_file) = two_names_at(alloc, values, Key::Map, Key::Record)?;
    let (new_map, new_record_file) = two_names_at(alloc, values, Key::NewMap, Key::NewRecord)?;
    Ok(Job::Upgrade(UpgradeJob {
        map,
        record_file,
        new_map,
        new_record_file,
    }))
}
