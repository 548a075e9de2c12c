// What a loop is made of: the clip that is read, and the walk through it.
ghost use Rattle.std.specs.Prelude.{◌≡◌, ◌≤◌, IfErr, IfOk};
ghost use Rattle.cells.specs.Cells.{IsOnePart};
ghost use Rattle.cells.specs.Places.{cell_count};
ghost use Rattle.shelf_traits.specs.Files.{OnlyReads};
ghost use Rattle.loop_walk.specs.Walks.{HasNoWalk};
ghost use Rattle.cert_file.specs.WalkForms.{AreWide};
ghost use Rattle.command.specs.Commands.{names_in};
ghost use Rattle.command.specs.Outcomes.{Plans};
ghost use Rattle.job_words.specs.LoopWords.{IsLoopJob};
ghost use Rattle.loop_command.specs.Loops.{IsLoopFound, IsLoopMade, IsLoopWithin, SetAgainstClip, fault_of_looping, loop_command, loop_files, loop_summary, steps_over};

use cells::Volume;
use command::read_fault;
use frame_distance::{distances, filtered};
use job_words::LoopJob;
use limits::{MOST_LOOP_CELLS, MOST_LOOP_FRAMES, MOST_SAMPLE_CELLS};
use loop_walk::{LoopError, LoopRecord, least_loop};
use shelf_traits::{Shelf, What};
use std::alloc::Global;
use synth_report::{Fault, FileOf};
use y4m_clip::{Clip, read_clip};

/// A clip, and a least closed walk through its frames with its record.
#[derive(Drop)]
pub struct LoopedClip {
    pub clip: Clip,
    pub found: LoopRecord,
}

// Sets a job against the clip that is read.
fn set_against(job: &LoopJob, sample: &Volume) -> Result<(), Fault>
    requires job { IsLoopJob job.now }
    requires one { IsOnePart sample.now }
    ensures { SetAgainstClip job.now sample.now result }
{
    let size = sample.size();
    if size.f > MOST_LOOP_FRAMES {
        return Err(Fault::Limit {
            what: What::Frames,
            number: u64::from(size.f),
            bound: u64::from(MOST_LOOP_FRAMES),
        });
    }
    let cells = u64::from(size.w) * (u64::from(size.h) * u64::from(job.length));
    if cells > MOST_LOOP_CELLS {
        return Err(Fault::Limit {
            what: What::Loop,
            number: cells,
            bound: MOST_LOOP_CELLS,
        });
    }
    Ok(())
}

// Shows that the frames of a walk have 16 bits and the entries of tables 64, as their types say.
fn are_wide(walk: &[u16], tables: &[u64])
    ensures { AreWide walk.now tables.now }
{}

// The least closed walk of the asked length through the frames of a sample, with its record.
fn find_loop(alloc: Global, job: &LoopJob, sample: &Volume) -> Result<LoopRecord, LoopError>
    requires job { IsLoopJob job.now }
    requires one { IsOnePart sample.now }
    requires bounds { IsLoopWithin job.now sample.now }
    requires cells { cell_count sample.now.size ≤ MOST_SAMPLE_CELLS }
    ensures found { IfOk result (IsLoopFound job.now sample.now) }
    ensures no_loop { IfErr result (λ error.
        error ≡ LoopError.NoLoop → HasNoWalk (steps_over job.now sample.now) job.now.length) }
{
    let table = distances(alloc, sample)?;
    let costs = filtered(alloc, &table, job.taps, job.gap)?;
    drop(table);
    let found = least_loop(alloc, &costs, job.length)?;
    are_wide(found.walk.as_slice(), found.tables.as_slice());
    Ok(found)
}

// What a run without a loop is refused for.
fn looping_fault(job: &LoopJob, error: LoopError) -> Fault
    ensures { result ≡ fault_of_looping job.now error }
{
    match error {
        LoopError::NoLoop => Fault::NoLoop(job.length),
        LoopError::NoMemory => Fault::NoMemory,
    }
}

/// Reads the sample, a clip, and finds the loop. Nothing is written yet.
pub(crate) fn plan<S: Shelf>(
    alloc: Global,
    job: &LoopJob,
    shelf: &mut S,
) -> Result<LoopedClip, Fault>
    requires { IsLoopJob job.now }
    ensures planned { Plans (loop_command job.now) (loop_files job.now) (loop_summary job.now)
        (S.state shelf.old) (S.state shelf.new) result }
    ensures made { IfOk result (IsLoopMade job.now) }
    ensures reads { OnlyReads (names_in (loop_command job.now).reads)
        (S.state shelf.old) (S.state shelf.new) }
{
    let clip = match read_clip(alloc, shelf, job.names.sample.as_text(), MOST_SAMPLE_CELLS) {
        Ok(clip) => clip,
        Err(error) => return Err(read_fault(FileOf::Sample, error)),
    };
    // Called for its contract only: it shows the prover that the clip is a volume.
    let _k = clip.volume.samples();
    match set_against(job, &clip.volume) {
        Ok(()) => {}
        // Given to `drop`, the end of the clip is proved once, by itself.
        Err(fault) => {
            drop(clip);
            return Err(fault);
        }
    }
    let found = match find_loop(alloc, job, &clip.volume) {
        Ok(found) => found,
        Err(error) => {
            drop(clip);
            return Err(looping_fault(job, error));
        }
    };
    Ok(LoopedClip { clip, found })
}
