// What is read and computed before a file is begun.
ghost use Rattle.std.specs.Prelude.{◌≡◌, IfOk};
ghost use Rattle.shelf_traits.specs.Files.{OnlyReads};
ghost use Rattle.job_words.specs.QuiltWords.{IsQuiltJob};
ghost use Rattle.outputs.specs.declared.quilt.PictureQuilt.{PictureQuilt};
ghost use Rattle.outputs.specs.BlockOutputs.{quilt_files};
ghost use Rattle.command.specs.Commands.{names_in};
ghost use Rattle.command.specs.Outcomes.{Plans};
ghost use Rattle.quilt_command.specs.Quilts.{IsMadeQuiltOf, quilt_command, quilt_run_of, quilt_size, quilt_summary};

use block_strips::QuiltPlan;
use cells::Size;
use job_words::QuiltJob;
use outputs::{PictureQuilt, quilt_fault, within_output};
use quilt::quilt_canvas;
use quilted::QuiltRun;
use sample_files::read_picture;
use shelf_traits::Shelf;
use std::alloc::Global;
use synth_report::Fault;

/// The size of the output of a job: one frame.
pub(crate) fn quilt_size(job: &QuiltJob) -> Size
    ensures { result ≡ quilt_size job.now }
{
    Size {
        w: job.w,
        h: job.h,
        f: 1,
    }
}

/// What is asked of quilting.
pub(crate) fn run_of(job: &QuiltJob) -> QuiltRun
    ensures { result ≡ quilt_run_of job.now }
{
    QuiltRun {
        size: quilt_size(job),
        plan: QuiltPlan {
            block: job.block,
            overlap: job.overlap,
            tol: job.tol,
        },
        seed: job.seed,
    }
}

/// Reads the picture, and quilts an output from its blocks.
pub(crate) fn plan<S: Shelf>(
    alloc: Global,
    job: &QuiltJob,
    shelf: &mut S,
) -> Result<PictureQuilt, Fault>
    requires { IsQuiltJob job.now }
    ensures planned { Plans (quilt_command job.now) (quilt_files job.now.names (quilt_size job.now))
        (λ (made : PictureQuilt). quilt_summary job.now made.quilted)
        (S.state shelf.old) (S.state shelf.new) result }
    ensures made { IfOk result (IsMadeQuiltOf job.now) }
    ensures reads { OnlyReads (names_in (quilt_command job.now).reads)
        (S.state shelf.old) (S.state shelf.new) }
{
    let sample = match read_picture(alloc, shelf, &job.names.sample) {
        Ok(sample) => sample,
        Err(fault) => return Err(fault),
    };
    // Given to `drop`, the end of the sample is proved once, by itself.
    if let Err(fault) = within_output(job.w, job.h) {
        drop(sample);
        return Err(fault);
    }
    let quilted = match quilt_canvas(alloc, &run_of(job), &sample.volume) {
        Ok(quilted) => quilted,
        Err(error) => {
            drop(sample);
            return Err(quilt_fault(error));
        }
    };
    Ok(PictureQuilt { sample, quilted })
}
