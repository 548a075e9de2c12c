// What is read and computed before a file is begun.
ghost use Rattle.std.specs.Prelude.{◌≡◌, IfOk};
ghost use Rattle.shelf_traits.specs.Files.{OnlyReads};
ghost use Rattle.job_words.specs.TileWords.{IsTileJob};
ghost use Rattle.command.specs.Commands.{names_in};
ghost use Rattle.command.specs.Outcomes.{Plans};
ghost use Rattle.outputs.specs.Tilings.{IsTilingMade, plan_of, tile_command, tile_files, tile_summary};

use command::read_fault;
use job_words::TileJob;
use outputs::TiledSample;
use sample_files::{read_sample, within_bounds};
use shelf_traits::Shelf;
use std::alloc::Global;
use synth_report::{Fault, FileOf};
use tile_run::tile_canvas;
use torus::{RunPlan, torus_total};

// How an output is tiled.
fn plan_of(job: &TileJob) -> RunPlan
    ensures { result ≡ plan_of job.now }
{
    RunPlan {
        size: job.size,
        tile: job.plan,
        seed: job.seed,
    }
}

/// Reads the sample and computes all that is to be written. Nothing is written yet.
pub(crate) fn plan<S: Shelf>(
    alloc: Global,
    job: &TileJob,
    shelf: &mut S,
) -> Result<TiledSample, Fault>
    requires { IsTileJob job.now }
    ensures planned { Plans (tile_command job.now) (tile_files job.now) (tile_summary job.now)
        (S.state shelf.old) (S.state shelf.new) result }
    ensures made { IfOk result (IsTilingMade job.now) }
    ensures reads { OnlyReads (names_in (tile_command job.now).reads)
        (S.state shelf.old) (S.state shelf.new) }
{
    let sample = match read_sample(alloc, shelf, job.sample.as_text()) {
        Ok(sample) => sample,
        Err(error) => return Err(read_fault(FileOf::Sample, error)),
    };
    // Called for its contract only: it shows the prover that the sample is a volume.
    let _k = sample.volume.samples();
    // Given to `drop`, the end of the sample is proved once, by itself.
    if let Err(fault) = within_bounds(job.size, &sample.form) {
        drop(sample);
        return Err(fault);
    }
    let Ok(tiled) = tile_canvas(alloc, &plan_of(job), &sample.volume) else {
        drop(sample);
        return Err(Fault::NoMemory);
    };
    let seams = torus_total(&tiled.canvas, &sample.volume, &job.plan.wrap);
    Ok(TiledSample {
        sample,
        tiled,
        seams,
    })
}
