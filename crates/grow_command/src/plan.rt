// What is read and computed before a file is begun.
ghost use Rattle.std.specs.Prelude.{◌≡◌, IfOk};
ghost use Rattle.shelf_traits.specs.Files.{OnlyReads};
ghost use Rattle.job_words.specs.GrowWords.{IsGrowJob};
ghost use Rattle.command.specs.Commands.{names_in};
ghost use Rattle.command.specs.Outcomes.{Plans};
ghost use Rattle.sample_files.specs.Several.{sample_files};
ghost use Rattle.outputs.specs.Growths.{IsMade, grow_command, growth_files, growth_summary, plan_of};

use command_files::records_fit;
use costs::total;
use grow_run::grow_canvas;
use grown::GrowPlan;
use job_words::GrowJob;
use outputs::{Growth, growing_fault, mode_for};
use sample_files::{parts_within, read_samples, within_bounds, worked};
use shelf_traits::Shelf;
use std::alloc::Global;
use synth_report::Fault;

// How an output is grown and refined.
fn plan_of(job: &GrowJob) -> GrowPlan
    ensures { result ≡ plan_of job.now }
{
    GrowPlan {
        size: job.size,
        mode: mode_for(job.place, job.side, job.overlap, job.tol),
        side: job.side,
        tol: job.tol,
        rounds: job.rounds,
        seed: job.seed,
    }
}

/// Reads the samples and computes all that is to be written. Nothing is written yet. With turns the number of
/// parts is asked for first, and growing is over all turns of the samples, which are taken away before.
pub(crate) fn plan<S: Shelf>(alloc: Global, job: &GrowJob, shelf: &mut S) -> Result<Growth, Fault>
    requires { IsGrowJob job.now }
    ensures planned { Plans (grow_command job.now) (growth_files job.now) (growth_summary job.now)
        (S.state shelf.old) (S.state shelf.new) result }
    ensures made { IfOk result (IsMade job.now) }
    ensures reads { OnlyReads (names_in (sample_files job.now.names.sample job.now.names.more))
        (S.state shelf.old) (S.state shelf.new) }
{
    let more = job.names.more.as_slice();
    match parts_within(job.turns, more.len() + 1) {
        Ok(()) => {}
        Err(fault) => return Err(fault),
    }
    let read = match read_samples(alloc, shelf, job.turns, &job.names.sample, more) {
        Ok(read) => read,
        Err(fault) => return Err(fault),
    };
    // The number of samples of a cell is taken for its contract only: it shows the prover that
    // these are a volume, here and of their turns.
    let _k = read.volume.samples();
    // Given to `drop`, the end of samples is proved once, by itself.
    if let Err(fault) = within_bounds(job.size, &read.form) {
        drop(read);
        return Err(fault);
    }
    let sizes = read.volume.sizes();
    let samples = match worked(alloc, job.turns, read) {
        Ok(samples) => samples,
        Err(_) => return Err(Fault::NoMemory),
    };
    let _n = samples.volume.samples();
    let grown = match grow_canvas(alloc, &plan_of(job), &samples.volume) {
        Ok(grown) => grown,
        Err(error) => {
            drop(samples);
            return Err(growing_fault(error));
        }
    };
    records_fit(grown.cuts.as_slice());
    let seams = total(&grown.canvas, &samples.volume);
    Ok(Growth {
        samples,
        sizes,
        grown,
        seams,
    })
}
