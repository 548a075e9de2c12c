// The files of a run, read in their order and judged.
ghost use Rattle.std.specs.Prelude.{◌≡◌, []};
ghost use Rattle.shelf_traits.specs.Files.{OnlyReads, OnlyReadsFile};
ghost use Rattle.source_map.specs.MapFiles.{MapReadsBy};
ghost use Rattle.turned_map.specs.TurnedFiles.{IsTurnedFile};
ghost use Rattle.sample_files.specs.Several.{AreSoundSamples};
ghost use Rattle.synth_report.specs.declared.fault.FileOf.TheVariants as part;
ghost use Rattle.command.specs.Commands.{names_in};
ghost use Rattle.command.specs.Outcomes.{Plans};
ghost use Rattle.check_command.specs.Checks.{IsReadMap, IsOut, JudgesRecord, RefusesMap, RefusesOutBytes, check_command, map_of_turned, run_map_read, summary_of};
ghost use Rattle.command.specs.Faults.{ReadsPart};

use command::read_fault;
use job_words::{CheckJob, Name};
use limits::MOST_OUT_CLIP_CELLS;
use sample_files::{Sample, Samples, parts_within, read_sample_within, read_samples, worked};
use shelf_traits::{ReadError, Shelf};
use source_map::{MapFile, Version, read_map};
use standing_files::{Verdict, judge_record_file};
use std::alloc::Global;
use synth_report::{Fault, FileOf};
use turned::turned_sizes;
use turned_map::{TurnedFile, read_turned_map};

// Reads the out file.
fn read_out<S: Shelf>(alloc: Global, shelf: &mut S, name: &Name) -> Result<Sample, Fault>
    ensures answer { ReadsPart IsOut RefusesOutBytes part.Out name.now
        (S.state shelf.old) (S.state shelf.new) result }
    ensures reads { OnlyReadsFile name.now (S.state shelf.old) (S.state shelf.new) }
{
    match read_sample_within(alloc, shelf, name.as_text(), MOST_OUT_CLIP_CELLS) {
        Ok(out) => Ok(out),
        Err(error) => Err(read_fault(FileOf::Out, error)),
    }
}

// What the file of a map over turned samples stands for.
fn map_of_turned(file: TurnedFile) -> MapFile
    requires { IsTurnedFile file }
    ensures { result ≡ map_of_turned file }
{
    let TurnedFile { map, samples } = file;
    MapFile::Cells {
        map,
        samples: turned_sizes(&samples),
        version: Version::Two,
    }
}

// Reads a map of its form, with turns or without.
fn read_form<S: Shelf>(
    alloc: Global,
    shelf: &mut S,
    turns: bool,
    name: &Name,
) -> Result<MapFile, ReadError>
    ensures answer { MapReadsBy (run_map_read turns) name.now
        (S.state shelf.old) (S.state shelf.new) result }
    ensures reads { OnlyReadsFile name.now (S.state shelf.old) (S.state shelf.new) }
{
    if turns {
        match read_turned_map(alloc, shelf, name.as_text()) {
            Ok(file) => Ok(map_of_turned(file)),
            Err(error) => Err(error),
        }
    } else {
        read_map(alloc, shelf, name.as_text())
    }
}

// Reads the map file.
fn read_map_file<S: Shelf>(
    alloc: Global,
    shelf: &mut S,
    turns: bool,
    name: &Name,
) -> Result<MapFile, Fault>
    ensures answer { ReadsPart (IsReadMap turns) (RefusesMap turns) part.Map name.now
        (S.state shelf.old) (S.state shelf.new) result }
    ensures reads { OnlyReadsFile name.now (S.state shelf.old) (S.state shelf.new) }
{
    match read_form(alloc, shelf, turns, name) {
        Ok(map) => Ok(map),
        Err(error) => Err(read_fault(FileOf::Map, error)),
    }
}

// Reads the record file, and judges the files.
fn judge_record<S: Shelf>(
    alloc: Global,
    samples: &Samples,
    out: &Sample,
    map: &MapFile,
    shelf: &mut S,
    name: &Name,
) -> Result<Verdict, Fault>
    requires sound { AreSoundSamples samples.now }
    ensures answer { JudgesRecord samples.now out.now map.now name.now
        (S.state shelf.old) (S.state shelf.new) result }
    ensures reads { OnlyReadsFile name.now (S.state shelf.old) (S.state shelf.new) }
{
    match judge_record_file(alloc, samples, out, map, shelf, name.as_text()) {
        Ok(verdict) => Ok(verdict),
        Err(error) => Err(read_fault(FileOf::Record, error)),
    }
}

/// Reads the samples in the order of their numbers, then the out file, the map and the record, whose records
/// are judged as they come. With turns the number of parts is asked for before, and the samples are turned
/// once they are read.
pub(crate) fn judge_files<S: Shelf>(
    alloc: Global,
    job: &CheckJob,
    shelf: &mut S,
) -> Result<Verdict, Fault>
    ensures planned { Plans (check_command job.now) (λ verdict. []) summary_of
        (S.state shelf.old) (S.state shelf.new) result }
    ensures reads { OnlyReads (names_in (check_command job.now).reads)
        (S.state shelf.old) (S.state shelf.new) }
{
    let names = &job.names;
    let more = names.more.as_slice();
    match parts_within(job.turns, more.len() + 1) {
        Ok(()) => {}
        Err(fault) => return Err(fault),
    }
    let samples = match read_samples(alloc, shelf, job.turns, &names.sample, more) {
        Ok(samples) => samples,
        Err(fault) => return Err(fault),
    };
    let samples = match worked(alloc, job.turns, samples) {
        Ok(samples) => samples,
        Err(_) => return Err(Fault::NoMemory),
    };
    let out = match read_out(alloc, shelf, &names.out) {
        Ok(out) => out,
        // Given to `drop`, each end is proved once, by itself.
        Err(fault) => {
            drop(samples);
            return Err(fault);
        }
    };
    let map = match read_map_file(alloc, shelf, job.turns, &names.map) {
        Ok(map) => map,
        Err(fault) => {
            drop(out);
            drop(samples);
            return Err(fault);
        }
    };
    let judged = judge_record(alloc, &samples, &out, &map, shelf, &names.record_file);
    drop(map);
    drop(out);
    drop(samples);
    judged
}
