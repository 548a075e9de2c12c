// The whole run.
ghost use Rattle.std.specs.Prelude.{IfOk};
ghost use Rattle.cells.specs.Cells.{IsOnePart};
ghost use Rattle.search_squares.specs.Eliminations.{AreSampleSums};
ghost use Rattle.torus.specs.Tilings.{IsRunPlan, IsTiledTo};
ghost use Rattle.tile_run.specs.Work.{Advances, IsWork};

use crate::next_tile_with;
use cells::Volume;
use map_canvas::Canvas;
use patch_picks::Draws;
use search_squares::SampleSums;
use std::alloc::{AllocError, Global};
use torus::{RunPlan, Tiled};

// A run so far.
#[derive(Drop)]
struct Work {
    canvas: Canvas,
    draws: Draws,
    placements: u64,
}

// Lays the next patch; false where the canvas is full.
fn step(
    alloc: Global,
    plan: &RunPlan,
    sample: &Volume,
    sums: &SampleSums,
    work: &mut Work,
) -> Result<bool, AllocError>
    requires plan { IsRunPlan plan.now }
    requires sums { AreSampleSums sample.now sums.now }
    requires part { IsOnePart sample.now }
    requires work { IsWork plan.now sample.now work.old }
    ensures { Advances plan.now sample.now work.old work.new result }
{
    let Some(_) = next_tile_with(
        alloc,
        &plan.tile,
        &mut work.canvas,
        sample,
        sums,
        &mut work.draws,
    )?
    else {
        return Ok(false);
    };
    work.placements += 1;
    Ok(true)
}

/// Lays patches until an output whose edges meet is full. Its draws are those of the seed, from number 0 on. The
/// sums of the sample's blocks are made once for all picks; until the run ends they take 8 bytes for each cell of
/// the sample, or 4 where it has more than 2^22 bytes. The one error is that there is no memory. The method is
/// that of Kwatra et al., "Graphcut textures" (2003).
pub fn tile_canvas(alloc: Global, plan: &RunPlan, sample: &Volume) -> Result<Tiled, AllocError>
    requires plan { IsRunPlan plan.now }
    requires part { IsOnePart sample.now }
    ensures { IfOk result (IsTiledTo plan.now sample.now) }
{
    let sums = SampleSums::make(alloc, sample)?;
    let canvas = Canvas::empty(alloc, plan.size, sample.samples())?;
    let mut work = Work {
        canvas,
        draws: Draws::from_seed(plan.seed),
        placements: 0,
    };
    let mut more = true;
    'laying: while more {
        more = step(alloc, plan, sample, &sums, &mut work)?;
    }
    Ok(Tiled {
        canvas: work.canvas,
        placements: work.placements,
    })
}
