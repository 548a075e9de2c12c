// What is computed before the report.
ghost use Rattle.std.specs.Prelude.{◌≡◌, ◌≤◌, IfOk, IfErr};
ghost use Rattle.cells.specs.Places.{cell_count};
ghost use Rattle.grown.specs.Grown.{IsGrown};
ghost use Rattle.job_words.specs.TrialWords.{IsTrialJob};
ghost use Rattle.outputs.specs.TrialSamples.{trial_sample};
ghost use Rattle.grow_command.specs.Trials.{IsTrialOf, NotTried, trial_plan, trial_summary};

use cells::Volume;
use costs::total;
use cut_replay::replay_cuts;
use grow_run::grow_canvas;
use grown::{GrowPlan, Grown};
use job_words::TrialJob;
use limits::MOST_OUTPUT_CELLS;
use map_canvas::Canvas;
use outputs::{growing_fault, mode_for, trial_sample};
use shelf_traits::What;
use std::alloc::{AllocError, Global};
use synth_report::{Fault, Summary};

// How the output is grown and refined.
fn plan_of(job: &TrialJob) -> GrowPlan
    ensures { result ≡ trial_plan job.now }
{
    GrowPlan {
        size: job.size,
        mode: mode_for(job.place, job.side, job.overlap, job.tol),
        side: job.side,
        tol: job.tol,
        rounds: job.rounds,
        seed: job.seed,
    }
}

// Checks each record over the canvas that the records before it leave, and gives what all of them leave.
fn checked(alloc: Global, sample: &Volume, grown: &Grown) -> Result<Canvas, AllocError>
    requires { (plan : _) × IsGrown plan sample.now grown.now }
    ensures { IfOk result (λ left. left.map ≡ grown.now.canvas.map) }
{
    let size = grown.canvas.map().size();
    let mut left = Canvas::empty(alloc, size, sample.samples())?;
    match replay_cuts(&mut left, sample, grown.cuts.as_slice()) {
        Ok(()) => Ok(left),
        Err(_) => unreachable!(),
    }
}

// The summary of what was grown, with the total of what its checked records leave.
fn summary_of(job: &TrialJob, sample: &Volume, grown: &Grown, left: &Canvas) -> Summary
    requires sample { sample.now ≡ trial_sample job.now.n }
    requires grown { IsGrown (trial_plan job.now) sample.now grown.now }
    requires left { left.now.map ≡ grown.now.canvas.map }
    ensures { result ≡ trial_summary job.now grown.now }
{
    let rounds = grown.rounds;
    Summary::Trial {
        n: job.n,
        size: job.size,
        placements: grown.cuts.as_slice().len() as u64 - u64::from(rounds),
        rounds: u64::from(rounds),
        seams: total(left, sample),
    }
}

// Grows the output, refines it, and checks its records.
fn grown_from(alloc: Global, job: &TrialJob, sample: &Volume) -> Result<Summary, Fault>
    requires job { IsTrialJob job.now }
    requires within { cell_count job.now.size ≤ MOST_OUTPUT_CELLS }
    requires sample { sample.now ≡ trial_sample job.now.n }
    ensures made { IfOk result (IsTrialOf job.now) }
    ensures failed { IfErr result (NotTried job.now) }
{
    let grown = match grow_canvas(alloc, &plan_of(job), sample) {
        Ok(grown) => grown,
        Err(error) => return Err(growing_fault(error)),
    };
    // Given to `drop`, the end of what was grown is proved once, by itself.
    let Ok(left) = checked(alloc, sample, &grown) else {
        drop(grown);
        return Err(Fault::NoMemory);
    };
    let summary = summary_of(job, sample, &grown, &left);
    drop(grown);
    Ok(summary)
}

/// Makes the sample, grows the output from it, and checks its records.
pub(crate) fn plan(alloc: Global, job: &TrialJob) -> Result<Summary, Fault>
    requires { IsTrialJob job.now }
    ensures made { IfOk result (IsTrialOf job.now) }
    ensures failed { IfErr result (NotTried job.now) }
{
    let cells = job.size.cells();
    if cells as u64 > MOST_OUTPUT_CELLS {
        return Err(Fault::Limit {
            what: What::Output,
            number: cells as u64,
            bound: MOST_OUTPUT_CELLS,
        });
    }
    let sample = trial_sample(alloc, job.n)?;
    grown_from(alloc, job, &sample)
}
