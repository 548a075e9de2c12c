// The command that quilts a picture from blocks of a sample.
ghost use Rattle.std.specs.Prelude.{◌≡◌};
ghost use Rattle.shelf_traits.specs.Files.{OnlyWrites};
ghost use Rattle.job_words.specs.QuiltWords.{IsQuiltJob};
ghost use Rattle.outputs.specs.BlockOutputs.{quilt_files};
ghost use Rattle.command.specs.Outcomes.{Leaves};
ghost use Rattle.command.specs.Writing.{WritesRun, text_names};
ghost use Rattle.quilt_command.specs.Quilts.{IsMadeQuiltOf, quilt_command, quilt_size, quilt_summary};

use crate::plan::{plan, quilt_size, run_of};
use job_words::QuiltJob;
use outputs::{PictureQuilt, write_quilt};
use quilted::Quilted;
use shelf_traits::{Shelf, Sink};
use std::alloc::Global;
use synth_report::{Fault, Summary};

// The summary of a quilt.
fn summary_of(job: &QuiltJob, quilted: &Quilted) -> Summary
    ensures { result ≡ quilt_summary job.now quilted.now }
{
    Summary::Quilt {
        size: quilt_size(job),
        blocks: quilted.blocks.as_slice().len() as u64,
        boundaries: quilted.boundaries,
        cost: quilted.cost,
    }
}

// Writes the picture of a quilt, its map, its record, and the report.
fn write<S: Shelf, O: Sink>(
    job: &QuiltJob,
    made: &PictureQuilt,
    shelf: &mut S,
    out: &mut O,
) -> Result<Summary, Fault>
    requires { IsMadeQuiltOf job.now made.now }
    ensures wrote { WritesRun (quilt_files job.now.names (quilt_size job.now) made.now)
        (quilt_summary job.now made.now.quilted)
        (S.state shelf.old) (S.state shelf.new) (O.state out.old) (O.state out.new) result }
    ensures writes { OnlyWrites
        (text_names (quilt_files job.now.names (quilt_size job.now) made.now))
        (S.state shelf.old) (S.state shelf.new) }
{
    let summary = summary_of(job, &made.quilted);
    write_quilt(&run_of(job), &job.names, made, summary, shelf, out)
}

/// Quilts a picture: reads the sample, lays blocks along least boundaries until the output is full, and writes
/// the picture, then the map, the record, and the report. All is computed before the first file is begun, and no
/// memory is taken after it. The method is that of Efros and Freeman, "Image quilting" (2001).
pub fn quilt_picture<S: Shelf, O: Sink>(
    alloc: Global,
    job: &QuiltJob,
    shelf: &mut S,
    out: &mut O,
) -> Result<Summary, Fault>
    requires { IsQuiltJob job.now }
    ensures { Leaves (quilt_command job.now)
        (S.state shelf.old) (S.state shelf.new) (O.state out.old) (O.state out.new) result }
{
    let made = plan(alloc, job, shelf)?;
    let answer = write(job, &made, shelf, out);
    // Given to `drop`, the end of all that was made is proved once, by itself.
    drop(made);
    answer
}
