// Several files as one volume.
ghost use Rattle.std.specs.Prelude.{◌≡◌, ◌≤◌, ◌<◌, ◌+◌, ◌*◌, ◌↔◌, true, length, IfOk, IsTrue};
ghost use Rattle.cells.specs.Cells.{IsOnePart, IsVolume, count_of, sizes_of};
ghost use Rattle.limits.specs.declared.bounds.TheConstants.{MOST_CELLS, MOST_PARTS, MOST_SAMPLE_CELLS};
ghost use Rattle.shelf_traits.specs.Files.{OnlyReads, OnlyReadsFile};
ghost use Rattle.shelf_traits.specs.declared.fault.What.TheVariants.{Cells as CellsLimit};
ghost use Rattle.turned.specs.declared.turn.TheConstants.{TURNS};
ghost use Rattle.command.specs.Commands.{names_in};
ghost use Rattle.command.specs.Stages.{AsksBound};
ghost use Rattle.sample_files.specs.Several.{AreSoundSamples, AreSoundSeveral, AsksParts, GoesAfter, SamplesReadAs, SeveralReadAs, sample_files, with_turns};
ghost use Rattle.sample_files.specs.Steps.{FirstReadsAs, IsSoundRead, Joins, NextReadsAs, Starts};

use crate::form::Form;
use crate::sample::{Sample, read_sample_in};
use cells::Volume;
use command::read_fault;
use job_words::Name;
use limits::{MOST_PARTS, MOST_SAMPLE_CELLS};
use shelf_traits::{FormFault, Shelf, What};
use std::alloc::Global;
use synth_report::{Fault, FileOf};
use turned::TURNS;

/// What is asked of several files that are read in the order of their numbers, beside that the form
/// of each goes with that of the first.
#[derive(Clone, Copy)]
pub struct Asked {
    /// Each is a P6 picture: a clip is refused as a picture of a wrong form at byte 0.
    pub pictures: bool,
    /// Each has the size of the first.
    pub one_size: bool,
    /// Their turns are to be samples too, which count as further parts and cells.
    pub turns: bool,
}

/// The samples that files stand for: the form of the first, and a volume whose parts are their
/// volumes, in the order of their numbers.
#[derive(Drop)]
pub struct Samples {
    pub form: Form,
    pub volume: Volume,
}

/// Asks whether the parts that so many samples give are within their bound: with turns each gives eight.
/// The refusal is `Limit Parts` with the number of parts.
pub fn parts_within(turns: bool, count: usize) -> Result<(), Fault>
    requires { count ≤ MOST_PARTS }
    ensures { AsksParts turns count result }
{
    let parts = TURNS as usize * count;
    if turns && parts > MOST_PARTS as usize {
        return Err(Fault::Limit {
            what: What::Parts,
            number: parts as u64,
            bound: u64::from(MOST_PARTS),
        });
    }
    Ok(())
}

// How many cells a volume has, of all parts together.
fn cells_in(volume: &Volume) -> usize
    ensures count { result ≡ count_of volume.now }
    ensures volume { IsVolume volume.now }
{
    volume.bytes().len() / volume.samples() as usize
}

// Asks whether so many cells, with their turns, are within the bound of samples.
fn cells_within(turns: bool, count: usize) -> Result<(), Fault>
    requires { count ≤ MOST_CELLS }
    ensures { AsksBound CellsLimit (with_turns turns count) MOST_SAMPLE_CELLS result }
{
    let cells = if turns { TURNS as usize * count } else { count } as u64;
    if cells > MOST_SAMPLE_CELLS {
        return Err(Fault::Limit {
            what: What::Cells,
            number: cells,
            bound: MOST_SAMPLE_CELLS,
        });
    }
    Ok(())
}

// Takes the first sample as the samples so far.
fn start(asked: Asked, sample: Sample) -> Result<Samples, Fault>
    requires { IsSoundRead asked sample }
    ensures { Starts asked sample result }
{
    if asked.turns && !sample.form.can_turn() {
        return Err(Fault::Form {
            file: FileOf::Sample,
            why: FormFault::Space,
        });
    }
    cells_within(asked.turns, cells_in(&sample.volume))?;
    let Sample { form, volume } = sample;
    Ok(Samples { form, volume })
}

// Reads the first sample to its end.
fn read_first<S: Shelf>(
    alloc: Global,
    shelf: &mut S,
    asked: Asked,
    name: &str,
) -> Result<Samples, Fault>
    ensures answer { FirstReadsAs asked name.now (S.state shelf.old) (S.state shelf.new) result }
    ensures reads { OnlyReadsFile name.now (S.state shelf.old) (S.state shelf.new) }
{
    let sample = match read_sample_in(alloc, shelf, asked.pictures, name) {
        Ok(sample) => sample,
        Err(error) => return Err(read_fault(FileOf::Sample, error)),
    };
    start(asked, sample)
}

// Whether a further sample goes with those before it.
fn goes_after(asked: Asked, samples: &Samples, sample: &Sample) -> bool
    requires { IsOnePart sample.now.volume }
    ensures { IsTrue result ↔ GoesAfter asked samples.now sample.now }
{
    samples.form.goes_with(&sample.form)
        && (!asked.one_size || sample.volume.size() == samples.volume.sizes().at(1))
}

// Joins the sample of a number, from 2 on, to those before it.
fn join(asked: Asked, samples: &mut Samples, sample: &Sample, number: u8) -> Result<(), Fault>
    requires so_far { AreSoundSeveral asked samples.old }
    requires next { IsSoundRead asked sample.now }
    requires few { length (sizes_of samples.old.volume) < MOST_PARTS }
    ensures { Joins asked number samples.old sample.now samples.new result }
{
    if !goes_after(asked, samples, sample) {
        return Err(Fault::Unlike(FileOf::More(number)));
    }
    let count = cells_in(&samples.volume) + cells_in(&sample.volume);
    cells_within(asked.turns, count)?;
    samples.volume.add_part(&sample.volume)?;
    Ok(())
}

// Reads the sample of a number, from 2 on, to its end, and joins it to those before it.
fn read_next<S: Shelf>(
    alloc: Global,
    shelf: &mut S,
    asked: Asked,
    name: &str,
    number: u8,
    samples: &mut Samples,
) -> Result<(), Fault>
    requires so_far { AreSoundSeveral asked samples.old }
    requires few { length (sizes_of samples.old.volume) < MOST_PARTS }
    requires number { 2 ≤ number }
    ensures answer { NextReadsAs asked samples.old number name.now
        (S.state shelf.old) (S.state shelf.new) samples.new result }
    ensures reads { OnlyReadsFile name.now (S.state shelf.old) (S.state shelf.new) }
{
    let sample = match read_sample_in(alloc, shelf, asked.pictures, name) {
        Ok(sample) => sample,
        Err(error) => return Err(read_fault(FileOf::More(number), error)),
    };
    join(asked, samples, &sample, number)
}

/// Reads files in the order of their numbers, each to its end, with the refusals of their forms, as
/// is asked of them. With turns there are at most 2, as `parts_within` asks; the first is refused where
/// its cells can't be turned, and then where its turns have too many cells. A further one is refused
/// where it doesn't go with the first, and then where all so far have too many cells together, with
/// their turns. No file is read after a refusal. The samples are as they were read: none is turned.
pub fn read_several<S: Shelf>(
    alloc: Global,
    shelf: &mut S,
    asked: Asked,
    first: &Name,
    more: &[Name],
) -> Result<Samples, Fault>
    requires some { length more.now < MOST_PARTS }
    requires few { asked.turns ≡ true → TURNS * (length more.now + 1) ≤ MOST_PARTS }
    ensures answer { SeveralReadAs asked first.now more.now
        (S.state shelf.old) (S.state shelf.new) result }
    ensures sound { IfOk result (AreSoundSeveral asked) }
    ensures count { IfOk result (λ samples.
        length (sizes_of samples.volume) ≡ length more.now + 1) }
    ensures reads { OnlyReads (names_in (sample_files first.now more.now))
        (S.state shelf.old) (S.state shelf.new) }
{
    let mut samples = read_first(alloc, shelf, asked, first.as_text())?;
    for (i, name) in more.iter().enumerate() {
        let number = i as u8 + 2;
        match read_next(alloc, shelf, asked, name.as_text(), number, &mut samples) {
            Ok(()) => {}
            // Given to `drop`, the end of the samples is proved once, by itself.
            Err(fault) => {
                drop(samples);
                return Err(fault);
            }
        }
    }
    Ok(samples)
}

/// Reads the samples of a run, as `read_several` does: files of any form and size that go together,
/// with or without turns.
pub fn read_samples<S: Shelf>(
    alloc: Global,
    shelf: &mut S,
    turns: bool,
    first: &Name,
    more: &[Name],
) -> Result<Samples, Fault>
    requires some { length more.now < MOST_PARTS }
    requires few { turns ≡ true → TURNS * (length more.now + 1) ≤ MOST_PARTS }
    ensures answer { SamplesReadAs turns first.now more.now
        (S.state shelf.old) (S.state shelf.new) result }
    ensures sound { IfOk result AreSoundSamples }
    ensures fits { IfOk result (λ samples.
        with_turns turns (count_of samples.volume) ≤ MOST_SAMPLE_CELLS) }
    ensures count { IfOk result (λ samples.
        length (sizes_of samples.volume) ≡ length more.now + 1) }
    ensures reads { OnlyReads (names_in (sample_files first.now more.now))
        (S.state shelf.old) (S.state shelf.new) }
{
    let asked = Asked {
        pictures: false,
        one_size: false,
        turns,
    };
    read_several(alloc, shelf, asked, first, more)
}
