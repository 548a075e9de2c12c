// A run, step by step.
ghost use Rattle.std.specs.Prelude.{◌≤◌, ◌<◌, IfOk};
ghost use Rattle.cells.specs.Places.{IsSmall};
ghost use Rattle.search_squares.specs.Eliminations.{AreSampleSums};
ghost use Rattle.patch_picks.specs.Fitting.{HasPatch};
ghost use Rattle.grow_run.specs.Work.{Advances, IsRefining, IsWork, Refines};

use cells::Volume;
use cost_windows::SeamTable;
use cut_check::CutRecord;
use graph_place::place;
use grown::{GrowError, GrowPlan};
use limits::MOST_BOX_CELLS;
use map_canvas::Canvas;
use patch_picks::Draws;
use patch_place::next_placement_with;
use refine_seams::round_with;
use search_squares::SampleSums;
use std::alloc::{AllocError, Global};

/// A run so far.
#[derive(Drop)]
pub(crate) struct Work {
    pub(crate) canvas: Canvas,
    pub(crate) draws: Draws,
    pub(crate) cuts: Vec<CutRecord>,
    // the cells of all boxes
    pub(crate) cells: u64,
    pub(crate) rounds: u32,
}

/// With no cell filled.
pub(crate) fn begin(alloc: Global, plan: &GrowPlan, sample: &Volume) -> Result<Work, AllocError>
    requires small { IsSmall plan.now.size }
    ensures { IfOk result (IsWork plan.now sample.now) }
{
    let canvas = Canvas::empty(alloc, plan.size, sample.samples())?;
    Ok(Work {
        canvas,
        draws: Draws::from_seed(plan.seed),
        cuts: Vec::new(alloc),
        cells: 0,
        rounds: 0,
    })
}

/// Makes the next placement of the mode; false where the canvas is full.
pub(crate) fn step(
    alloc: Global,
    plan: &GrowPlan,
    sample: &Volume,
    sums: &SampleSums,
    work: &mut Work,
) -> Result<bool, GrowError>
    requires sums { AreSampleSums sample.now sums.now }
    requires work { IsWork plan.now sample.now work.old }
    requires patch { HasPatch plan.now.mode }
    ensures { Advances plan.now sample.now work.old work.new result }
{
    let Some(placement) = next_placement_with(
        alloc,
        &plan.mode,
        &work.canvas,
        sample,
        sums,
        &mut work.draws,
    )?
    else {
        return Ok(false);
    };
    let cells = work.cells + placement.rect.size.cells() as u64;
    if cells > MOST_BOX_CELLS {
        return Err(GrowError::Records(cells));
    }
    work.cuts.reserve(1)?;
    let cut = place(alloc, &mut work.canvas, sample, placement)?;
    work.cuts.push_reserved(cut);
    work.cells = cells;
    Ok(true)
}

/// Makes a round; false where no window costs anything.
pub(crate) fn refine_step(
    alloc: Global,
    plan: &GrowPlan,
    sample: &Volume,
    sums: &SampleSums,
    work: &mut Work,
    table: &mut SeamTable,
) -> Result<bool, GrowError>
    requires sums { AreSampleSums sample.now sums.now }
    requires work { IsRefining plan.now sample.now work.old table.old }
    requires side { 1 ≤ plan.now.side }
    requires left { work.old.rounds < plan.now.rounds }
    ensures { Refines plan.now sample.now work.old work.new table.new result }
{
    let Some(cut) = round_with(
        alloc,
        &mut work.canvas,
        sample,
        sums,
        plan.side,
        plan.tol,
        &mut work.draws,
        table,
    )?
    else {
        return Ok(false);
    };
    let cells = work.cells + cut.placement.rect.size.cells() as u64;
    if cells > MOST_BOX_CELLS {
        return Err(GrowError::Records(cells));
    }
    let Ok(()) = work.cuts.push(cut) else {
        return Err(GrowError::NoMemory);
    };
    work.cells = cells;
    work.rounds += 1;
    Ok(true)
}
