// The command that makes a loop of a clip.
ghost use Rattle.std.specs.Prelude.{◌≡◌};
ghost use Rattle.cells.specs.Cells.{IsOnePart};
ghost use Rattle.shelf_traits.specs.Files.{OnlyWrites};
ghost use Rattle.y4m_clip.specs.Writing.{writer_of};
ghost use Rattle.command.specs.Outcomes.{Leaves};
ghost use Rattle.command.specs.Writing.{WritesRun, text_names};
ghost use Rattle.job_words.specs.LoopWords.{IsLoopJob};
ghost use Rattle.loop_command.specs.Loops.{IsLoopMade, loop_command, loop_files, loop_size, loop_summary};

use crate::files::{FrameMapFile, LoopFile, WalkFile};
use crate::plan::{LoopedClip, plan};
use cells::{Size, Volume};
use cert_file::Head;
use command::{Then, write_run};
use job_words::LoopJob;
use shelf_traits::{Shelf, Sink};
use source_map::Version;
use std::alloc::Global;
use synth_report::{Fault, Summary};
use y4m_clip::ClipWriter;

// The size of the loop of a sample.
fn loop_size(job: &LoopJob, sample: &Volume) -> Size
    requires { IsOnePart sample.now }
    ensures { result ≡ loop_size sample.now job.now.length }
{
    let size = sample.size();
    Size {
        w: size.w,
        h: size.h,
        f: job.length,
    }
}

// The summary of a loop: the walk's first frame, and its cost.
fn summary_of(job: &LoopJob, looped: &LoopedClip) -> Summary
    requires job { IsLoopJob job.now }
    requires made { IsLoopMade job.now looped.now }
    ensures { result ≡ loop_summary job.now looped.now }
{
    let walk = looped.found.walk.as_slice();
    Summary::Loop {
        length: job.length,
        start: u32::from(walk[0]),
        cost: looped.found.cost,
    }
}

// Writes the frames of a loop, its map, its record, and the report.
fn write_loop<S: Shelf, O: Sink>(
    job: &LoopJob,
    looped: &LoopedClip,
    writer: ClipWriter,
    shelf: &mut S,
    out: &mut O,
) -> Result<Summary, Fault>
    requires job { IsLoopJob job.now }
    requires made { IsLoopMade job.now looped.now }
    requires writer { writer ≡
        writer_of looped.now.clip.form (loop_size looped.now.clip.volume job.now.length) }
    ensures wrote { WritesRun (loop_files job.now looped.now) (loop_summary job.now looped.now)
        (S.state shelf.old) (S.state shelf.new) (O.state out.old) (O.state out.new) result }
    ensures writes { OnlyWrites (text_names (loop_files job.now looped.now))
        (S.state shelf.old) (S.state shelf.new) }
{
    let sample = &looped.clip.volume;
    let walk = looped.found.walk.as_slice();
    let size = loop_size(job, sample);
    let frames = LoopFile {
        name: &job.names.out,
        writer,
        sample,
        walk,
    };
    let map = FrameMapFile {
        name: &job.names.map,
        size,
        sample: sample.size(),
        frames: walk,
    };
    let walk_file = WalkFile {
        name: &job.names.record_file,
        head: Head {
            output: size,
            samples: sample.sizes(),
            version: Version::One,
        },
        taps: job.taps,
        gap: job.gap,
        walk,
        tables: looped.found.tables.as_slice(),
    };
    let summary = summary_of(job, looped);
    write_run(&mut Then(frames, Then(map, walk_file)), summary, shelf, out)
}

/// Makes a loop of a clip. It reads the sample, which has to be a clip, and finds a closed walk of the
/// asked length through its frames that costs least. It writes the frames of the walk as a clip, then the
/// frame map, the record of the walk, and the report. All is computed before the first file is begun, and
/// no memory is taken after it.
pub fn loop_clip<S: Shelf, O: Sink>(
    alloc: Global,
    job: &LoopJob,
    shelf: &mut S,
    out: &mut O,
) -> Result<Summary, Fault>
    requires { IsLoopJob job.now }
    ensures { Leaves (loop_command job.now)
        (S.state shelf.old) (S.state shelf.new) (O.state out.old) (O.state out.new) result }
{
    let looped = plan(alloc, job, shelf)?;
    let size = loop_size(job, &looped.clip.volume);
    let writer = match ClipWriter::make(alloc, &looped.clip.form, size) {
        Ok(writer) => writer,
        // Given to `drop`, the end of all that was made is proved once, by itself.
        Err(_) => {
            drop(looped);
            return Err(Fault::NoMemory);
        }
    };
    let answer = write_loop(job, &looped, writer, shelf, out);
    drop(looped);
    answer
}
