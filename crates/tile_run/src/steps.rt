// Steps of tiling.
ghost use Rattle.std.specs.Prelude.{◌≡◌, ◌≤◌, OnErr, OnOk, IfOk};
ghost use Rattle.cells.specs.Cells.{IsOnePart};
ghost use Rattle.cells.specs.Places.{cell_count};
ghost use Rattle.map_canvas.specs.Canvases.{IsCanvas, StandsOver};
ghost use Rattle.search_squares.specs.Eliminations.{AreSampleSums};
ghost use Rattle.patch_picks.specs.Steps.{after_draw};
ghost use Rattle.job_words.specs.TileWords.{IsWide};
ghost use Rattle.torus.specs.Choosing.{IsChosenAround};
ghost use Rattle.torus.specs.Filling.{IsTileBox};
ghost use Rattle.torus.specs.Steps.{Tiles, tiling_of};

use cells::{Box3, Volume};
use cut_check::CutRecord;
use graph_place::place;
use job_words::TilePlan;
use limits::MOST_OUTPUT_CELLS;
use map_canvas::{Canvas, Placement};
use patch_picks::{Candidates, Draws};
use patch_place::pick_with;
use search_squares::SampleSums;
use std::alloc::{AllocError, Global};
use torus::{put_around, small_box, small_canvas, tile_box};

// Picks a placement of a box, and of its choices the one that is taken, on a small canvas.
fn choose(
    alloc: Global,
    plan: &TilePlan,
    canvas: &Canvas,
    sample: &Volume,
    sums: &SampleSums,
    rect: &Box3,
    draws: &mut Draws,
) -> Result<CutRecord, AllocError>
    requires over { StandsOver canvas.now sample.now }
    requires sums { AreSampleSums sample.now sums.now }
    requires part { IsOnePart sample.now }
    requires tile { IsTileBox plan.now.wrap canvas.now.map.size sample.now rect.now }
    ensures chosen { IfOk result
        (IsChosenAround plan.now canvas.now.map sample.now draws.old rect.now) }
    ensures next { OnOk result (draws.new ≡ after_draw draws.old) }
    ensures kept { OnErr result (draws.new ≡ draws.old) }
{
    let mut small = small_canvas(alloc, canvas, sample, &plan.wrap, rect)?;
    let inner = small_box(&plan.wrap, rect);
    let list = Candidates::Fits { rect: inner };
    let number = draws.place();
    let placement = pick_with(alloc, &list, Some(plan.tol), &small, sample, sums, draws)?;
    let placed = place(alloc, &mut small, sample, placement);
    drop(small);
    let Ok(cut) = placed else {
        draws.go_to(number);
        return Err(AllocError);
    };
    Ok(cut)
}

/// Makes the next step of tiling: a patch for the first unfilled cell, picked among all places of the sample
/// where it fits, and put in by the choice of least cost, edges included. Gives its placement, whose box may
/// pass the edge of a wrapped axis; None where the canvas is full. The one error is that there is no memory,
/// also for the sums of the sample's blocks, which are made again in each call; it leaves the canvas and the
/// draws as they were.
pub fn next_tile(
    alloc: Global,
    plan: &TilePlan,
    canvas: &mut Canvas,
    sample: &Volume,
    draws: &mut Draws,
) -> Result<Option<Placement>, AllocError>
    requires over { StandsOver canvas.old sample.now }
    requires part { IsOnePart sample.now }
    requires wide { IsWide plan.now.wrap canvas.old.map.size }
    requires cells { cell_count canvas.old.map.size ≤ MOST_OUTPUT_CELLS }
    requires side { 1 ≤ plan.now.side }
    ensures tiles { Tiles plan.now sample.now (tiling_of canvas.old draws.old)
        (tiling_of canvas.new draws.new) result }
    ensures kept { OnErr result (canvas.new ≡ canvas.old) }
    ensures stands { StandsOver canvas.new sample.now }
    ensures canvas { IsCanvas canvas.new }
{
    // Called for its contract only: it shows the prover that this is a map.
    let _map = canvas.map();
    let Some(_) = canvas.first_unfilled() else {
        return Ok(None);
    };
    let sums = SampleSums::make(alloc, sample)?;
    next_tile_with(alloc, plan, canvas, sample, &sums, draws)
}

/// The same step as `next_tile`, of a sample whose sums of blocks are made.
pub fn next_tile_with(
    alloc: Global,
    plan: &TilePlan,
    canvas: &mut Canvas,
    sample: &Volume,
    sums: &SampleSums,
    draws: &mut Draws,
) -> Result<Option<Placement>, AllocError>
    requires over { StandsOver canvas.old sample.now }
    requires sums { AreSampleSums sample.now sums.now }
    requires part { IsOnePart sample.now }
    requires wide { IsWide plan.now.wrap canvas.old.map.size }
    requires cells { cell_count canvas.old.map.size ≤ MOST_OUTPUT_CELLS }
    requires side { 1 ≤ plan.now.side }
    ensures tiles { Tiles plan.now sample.now (tiling_of canvas.old draws.old)
        (tiling_of canvas.new draws.new) result }
    ensures kept { OnErr result (canvas.new ≡ canvas.old) }
    ensures stands { StandsOver canvas.new sample.now }
    ensures canvas { IsCanvas canvas.new }
{
    let size = canvas.map().size();
    let Some(q) = canvas.first_unfilled() else {
        return Ok(None);
    };
    let rect = tile_box(plan, size, sample.size(), q);
    let cut = choose(alloc, plan, canvas, sample, sums, &rect, draws)?;
    let placement = Placement {
        rect,
        from: cut.placement.from,
    };
    put_around(
        canvas,
        sample,
        &plan.wrap,
        &placement,
        cut.choice.as_slice(),
    );
    Ok(Some(placement))
}
