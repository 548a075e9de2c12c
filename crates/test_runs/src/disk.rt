// Steps over files of the system, in a folder of their own.
use crate::disk_grow::{Outputs, grows, has_bytes};
use shelf_core::Shelf;
use std::alloc::AllocError;
use std::os::unix::fs::symlink;
use std::{env, fs, process};
use system_calls::System;
use system_files::{RealShelf, Unknown};

/// What is done with a file, and what it has to hold.
pub enum Step<'a> {
    // By a run, whose sample it is, with these outputs: it ends with a status, and the first so many
    // outputs are whole.
    Run(Outputs<'a>, u8, usize),
    // By the shelf. So many bytes are asked for from a place on, at most 9, and these come.
    Begin,
    Add(&'a [u8]),
    Get(u64, usize, &'a [u8]),
    // By others. It is written over, gets another name, a second name, or becomes a link to a path.
    Put(&'a [u8]),
    Rename(&'a str),
    Link(&'a str),
    LeadTo(&'a str),
    Remove,
    Holds(&'a [u8]),
    IsGone,
}

/// The name of a file, and a step.
pub type Row<'a> = (&'a str, Step<'a>);

fn gets(shelf: &mut RealShelf<Unknown>, name: &str, at: u64, count: usize, wanted: &[u8]) -> bool {
    let mut bytes = [0u8; 9];
    let Some(into) = bytes.get_mut(..count) else {
        return false;
    };
    let comes = matches!(shelf.get(name, at, into), Ok(n) if n == wanted.len());
    comes & into.starts_with(wanted)
}

// Takes a step, and says whether it went well.
fn goes_well(
    rt: &HostRuntime,
    shelf: &mut RealShelf<Unknown>,
    name: &str,
    step: &Step<'_>,
) -> bool {
    match *step {
        Step::Run(outputs, status, whole) => grows(rt, name, outputs, status, whole),
        Step::Begin => shelf.begin(name).is_ok(),
        Step::Add(piece) => shelf.add(name, piece).is_ok(),
        Step::Get(at, count, wanted) => gets(shelf, name, at, count, wanted),
        Step::Put(bytes) => fs::write(rt, name, bytes).is_ok(),
        Step::Rename(other) => fs::rename(rt, name, other).is_ok(),
        Step::Link(other) => fs::hard_link(rt, name, other).is_ok(),
        Step::LeadTo(path) => symlink(rt, path, name).is_ok(),
        Step::Remove => fs::remove_file(rt, name).is_ok(),
        Step::Holds(bytes) => has_bytes(rt, name, bytes),
        Step::IsGone => matches!(fs::exists(rt, name), Ok(false)),
    }
}

fn wrong_step_by(rt: &HostRuntime, shelf: &mut RealShelf<Unknown>, steps: &[Row]) -> Option<usize> {
    for (i, (name, step)) in steps.iter().enumerate() {
        if !goes_well(rt, shelf, name, step) {
            return Some(i);
        }
    }
    None
}

// (The end of a shelf is long to prove: `drop` has it proved by itself.)
fn wrong_step_here(rt: &HostRuntime, steps: &[Row]) -> Result<Option<usize>, AllocError> {
    let mut shelf = RealShelf::<Unknown>::new(System::new(*rt), rt.alloc())?;
    let found = wrong_step_by(rt, &mut shelf, steps);
    drop(shelf);
    Ok(found)
}

// Makes a folder among the temporary files, and enters it: names are those of its files from then on.
fn enters(rt: &HostRuntime, folder: &str) -> bool {
    let Ok(temporary) = env::temp_dir(rt) else {
        return false;
    };
    env::set_current_dir(rt, temporary.as_path()).is_ok()
        && fs::create_dir(rt, folder).is_ok()
        && env::set_current_dir(rt, folder).is_ok()
}

fn wrong_step_in(
    rt: &HostRuntime,
    folder: &str,
    steps: &[Row],
) -> Result<Option<usize>, AllocError> {
    if !enters(rt, folder) {
        return Ok(Some(steps.len()));
    }
    let found = wrong_step_here(rt, steps)?;
    let is_left = env::set_current_dir(rt, "..").is_ok() & fs::remove_dir_all(rt, folder).is_ok();
    Ok(if is_left { found } else { Some(steps.len()) })
}

/// The number of the first step, from 0, that doesn't go well, where a shelf and runs take them in a folder. It is
/// the number after the last one where the folder can't be made or removed. Each test is a process of its own, so
/// it may change the current folder.
pub fn wrong_step(
    rt: &HostRuntime,
    test: &str,
    steps: &[Row],
) -> Result<Option<usize>, AllocError> {
    let folder = format!(in rt.alloc(); "weave-{test}-{}", process::id(rt.process()))?;
    wrong_step_in(rt, folder.as_str(), steps)
}
