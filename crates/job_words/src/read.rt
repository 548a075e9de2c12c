// All words of a run, in the order in which their refusals are tried.
ghost use Rattle.std.specs.Prelude.{◌≡◌, ◌⊎◌, ◌<◌, ◌++◌, ◌∷◌, [], Ok, Err, IfOk, IfErr, OnOk, length, option_copied};
ghost use Rattle.job_words.specs.Words as by;
ghost use Rattle.job_words.specs.Jobs.{IsJob, job_of};

use crate::check::read_check;
use crate::grow::read_grow;
use crate::job::{Job, WordFault};
use crate::keys::Key;
use crate::loop_words::read_loop;
use crate::merge::read_merge;
use crate::name::{Name, Words};
use crate::quilt::read_quilt;
use crate::settings::{Setting, Value, read_setting, value_at};
use crate::table::{Need, Row};
use crate::tile::read_tile;
use crate::transfer::read_transfer;
use crate::trial::read_trial;
use crate::upgrade::read_upgrade;
use std::alloc::{AllocError, Global};

fn add(settings: &mut Vec<Setting>, setting: Setting) -> Result<(), AllocError>
    ensures { OnOk result (settings.new.items ≡ settings.old.items ++ setting ∷ []) }
{
    settings.push(setting)?;
    Ok(())
}

// The settings of the words after the command.
fn read_settings(alloc: Global, rows: &[Row], words: &[Name]) -> Result<Vec<Setting>, WordFault>
    requires { length rows.now < 100 }
    ensures ok { IfOk result (λ settings.
        by.settings_of rows.now 2 [] words.now ≡ Ok settings.items) }
    ensures err { IfErr result (λ fault.
        (by.settings_of rows.now 2 [] words.now ≡ Err fault) ⊎ (fault ≡ WordFault.NoMemory)) }
{
    let mut settings = Vec::new(alloc);
    for word in words {
        // Every earlier word has set a key, and the command is number 1.
        let i = settings.len() as u32 + 2;
        let setting = read_setting(alloc, rows, i, &settings, word.as_text())?;
        add(&mut settings, setting)?;
    }
    Ok(settings)
}

// The setting that a default makes.
fn default_of(row: &Row) -> Option<Setting>
    ensures { result ≡ by.default_of row.now }
{
    match row.need {
        Need::Default(choice) => Some(Setting {
            key: row.key,
            value: Value::Chosen(choice),
        }),
        _ => None,
    }
}

// Puts the defaults after the settings of the words.
fn add_defaults(rows: &[Row], settings: &mut Vec<Setting>) -> Result<(), AllocError>
    ensures { OnOk result (settings.new.items ≡ by.with_defaults rows.now settings.old.items) }
{
    for row in rows {
        if let Some(setting) = default_of(row) {
            add(settings, setting)?;
        }
    }
    Ok(())
}

fn is_greater(number: Option<u8>, other: Option<u8>) -> bool
    ensures { result ≡ by.is_greater number other }
{
    match (number, other) {
        (Some(number), Some(other)) => number < other,
        _ => false,
    }
}

// A further sample of a greater number is set.
fn is_below_another(settings: &[Setting], key: Key) -> bool
    ensures { result ≡ by.is_below_another settings.now key }
{
    settings
        .iter()
        .any(|setting| is_greater(key.number(), setting.key.number()))
}

// The row has no value, and needs one.
fn is_missing(row: &Row, settings: &[Setting]) -> bool
    ensures { result ≡ by.is_missing settings.now row.now }
{
    if value_at(settings, row.key).is_some() {
        return false;
    }
    match row.need {
        Need::BelowAnother => is_below_another(settings, row.key),
        Need::Always | Need::Default(_) => true,
    }
}

// The first key that is missing.
fn first_missing<'a>(rows: &'a [Row], settings: &[Setting]) -> Option<&'a Row>
    ensures { option_copied result ≡ by.first_missing rows.now settings.now }
{
    rows.iter().find(|row| is_missing(row, settings))
}

/// The value of each key, by the words after the command and the defaults.
pub fn all_settings(alloc: Global, rows: &[Row], words: &[Name]) -> Result<Vec<Setting>, WordFault>
    requires { length rows.now < 100 }
    ensures ok { IfOk result (λ settings. by.all_settings rows.now words.now ≡ Ok settings.items) }
    ensures err { IfErr result (λ fault.
        (by.all_settings rows.now words.now ≡ Err fault) ⊎ (fault ≡ WordFault.NoMemory)) }
{
    let mut settings = read_settings(alloc, rows, words)?;
    add_defaults(rows, &mut settings)?;
    match first_missing(rows, &settings) {
        Some(row) => Err(WordFault::Missing(row.key)),
        None => Ok(settings),
    }
}

/// The job that words ask for, or the first of their refusals: the command is tried first, then word
/// by word, with all refusals of a word before the next word, and last the keys that no word sets.
/// Only `NoMemory` may come at any place.
pub fn read_job(alloc: Global, words: &Words) -> Result<Job, WordFault>
    ensures exact { by.AnswersAs (job_of words.now) result }
    ensures lawful { IfOk result IsJob }
{
    let [command, words @ ..] = words.as_slice() else {
        return Err(WordFault::NoCommand);
    };
    match command.as_text() {
        "grow" => read_grow(alloc, words),
        "quilt" => read_quilt(alloc, words),
        "loop" => read_loop(alloc, words),
        "check" => read_check(alloc, words),
        "trial" => read_trial(alloc, words),
        "upgrade" => read_upgrade(alloc, words),
        "tile" => Ok(Job::Tile(read_tile(alloc, words)?)),
        "merge" => Ok(Job::Merge(read_merge(alloc, words)?)),
        "transfer" => Ok(Job::Transfer(read_transfer(alloc, words)?)),
        _ => Err(WordFault::UnknownCommand),
    }
}
