// A run, step by step.
ghost use Rattle.quilted.specs.PlanLimit.{PlanStaysWithin};
ghost use Rattle.quilted.specs.Quilted.{CanBeQuilted};
ghost use Rattle.quilt.specs.QuiltWork.{QuiltAdvances, IsQuiltWork};

use crate::{BlockPicks, next_block_by};
use block_check::BlockRecord;
use cells::Volume;
use map_canvas::Canvas;
use patch_picks::Draws;
use quilted::{QuiltRun, block_boundaries, block_cost, block_fits};
use std::alloc::{AllocError, Global};

/// A run so far.
#[derive(Drop)]
pub(crate) struct QuiltWork {
    pub(crate) canvas: Canvas,
    pub(crate) draws: Draws,
    pub(crate) blocks: Vec<BlockRecord>,
    pub(crate) boundaries: u64,
    pub(crate) cost: u64,
}

/// Lays the next block; false where the canvas is full.
pub(crate) fn step<P: BlockPicks>(
    alloc: Global,
    asked: &QuiltRun,
    sample: &Volume,
    picks: &P,
    work: &mut QuiltWork,
) -> Result<bool, AllocError>
    requires can { CanBeQuilted asked.now sample.now }
    requires within { PlanStaysWithin asked.now.plan asked.now.size sample.now.size }
    requires ready { P.AreReady picks.now asked.now.size sample.now }
    requires work { IsQuiltWork (P.rating picks.now sample.now) asked.now sample.now work.old }
    ensures { QuiltAdvances (P.rating picks.now sample.now) asked.now sample.now
        work.old work.new result }
{
    // Called for its contract only: it shows the prover that the sample is a volume.
    let _samples = sample.samples();
    let next = next_block_by(
        alloc,
        &asked.plan,
        &mut work.canvas,
        sample,
        picks,
        &mut work.draws,
    )?;
    // Called for its contract only: it shows the prover that the canvas is one.
    let _map = work.canvas.map();
    let Some(block) = next else {
        return Ok(false);
    };
    block_fits(&block);
    work.boundaries += block_boundaries(&block);
    work.cost += block_cost(&block);
    let Ok(()) = work.blocks.push(block) else {
        return Err(AllocError);
    };
    Ok(true)
}
