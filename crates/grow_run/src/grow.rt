// The whole run.
ghost use Rattle.std.specs.Prelude.{◌≤◌, IfErr};
ghost use Rattle.cells.specs.Places.{IsSmall};
ghost use Rattle.map_canvas.specs.Maps.{IsFull};
ghost use Rattle.search_squares.specs.Eliminations.{AreSampleSums};
ghost use Rattle.patch_picks.specs.Fitting.{HasPatch};
ghost use Rattle.grown.specs.Grown.{Grows, IsGrowFault};
ghost use Rattle.grow_run.specs.Work.{Ends, IsWork, LaysGrowth};

use crate::steps::{Work, begin, refine_step, step};
use cells::Volume;
use grown::{GrowError, GrowPlan, Grown, first_past};
use items::Items;
use patch_picks::Mode;
use refine_seams::round_windows;
use search_squares::SampleSums;
use std::alloc::Global;

// Whether the run picks among the places of a box: in mode `Sub`, and in rounds. Then it goes by the sums of the
// sample's blocks.
fn picks_places(plan: &GrowPlan) -> bool {
    matches!(plan.mode, Mode::Sub { .. }) || plan.rounds > 0
}

// Makes placements until the canvas is full.
fn lay_all(
    alloc: Global,
    plan: &GrowPlan,
    sample: &Volume,
    sums: &SampleSums,
) -> Result<Work, GrowError>
    requires small { IsSmall plan.now.size }
    requires patch { HasPatch plan.now.mode }
    requires sums { AreSampleSums sample.now sums.now }
    ensures { LaysGrowth plan.now sample.now result }
{
    let mut work = begin(alloc, plan, sample)?;
    let mut more = true;
    'placing: while more {
        more = step(alloc, plan, sample, sums, &mut work)?;
    }
    Ok(work)
}

// Makes all rounds.
fn refine_all(
    alloc: Global,
    plan: &GrowPlan,
    sample: &Volume,
    sums: &SampleSums,
    work: &mut Work,
) -> Result<(), GrowError>
    requires sums { AreSampleSums sample.now sums.now }
    requires work { IsWork plan.now sample.now work.old }
    requires full { IsFull work.old.canvas.map }
    requires side { 1 ≤ plan.now.side }
    ensures { Ends plan.now sample.now work.new result }
{
    if plan.rounds == 0 {
        return Ok(());
    }
    let mut table = round_windows(alloc, &work.canvas, sample, plan.side)?;
    let mut more = true;
    'refining: while more && work.rounds < plan.rounds {
        more = refine_step(alloc, plan, sample, sums, work, &mut table)?;
    }
    Ok(())
}

// Refuses a plan whose boxes have too many cells, where sizes alone say so, before a place is picked.
fn keep_within(plan: &GrowPlan, sample: &Volume) -> Result<(), GrowError>
    requires small { IsSmall plan.now.size }
    requires patch { HasPatch plan.now.mode }
    ensures { IfErr result (IsGrowFault plan.now sample.now) }
{
    // Called for its contract only: it shows the prover that the sample is a volume.
    let _samples = sample.samples();
    match first_past(plan, sample) {
        Some(number) => Err(GrowError::Records(number)),
        None => Ok(()),
    }
}

/// Grows an output over a sample by the placements of a mode, each put in by a graph cut, and then refines
/// it, with a record of each placement. Its draws are those of the seed, from number 0 on. In mode `Sub`, and
/// with rounds, the sums of the sample's blocks are made once for all picks; until the run ends they take 8 bytes
/// for each cell of the sample, or 4 where it has more than 2^22 bytes. The method is that of Kwatra et al.,
/// "Graphcut textures" (2003).
pub fn grow_canvas(alloc: Global, plan: &GrowPlan, sample: &Volume) -> Result<Grown, GrowError>
    requires small { IsSmall plan.now.size }
    requires patch { HasPatch plan.now.mode }
    requires side { 1 ≤ plan.now.side }
    ensures { Grows plan.now sample.now result }
{
    keep_within(plan, sample)?;
    let sums = SampleSums::make_if(alloc, sample, picks_places(plan))?;
    let mut work = lay_all(alloc, plan, sample, &sums)?;
    refine_all(alloc, plan, sample, &sums, &mut work)?;
    // Called for its contract only: it shows the prover that the sample is a volume.
    let _samples = sample.samples();
    Ok(Grown {
        canvas: work.canvas,
        cuts: Items::from_vec(work.cuts),
        rounds: work.rounds,
    })
}
