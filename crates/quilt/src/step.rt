// A step of quilting.
ghost use Rattle.std.specs.Prelude.{◌≡◌, ◌≤◌, IfOk, IfSome, OnErr, Some};
ghost use Rattle.map_canvas.specs.Choices.{Fits};
ghost use Rattle.search_squares.specs.Eliminations.{AreSampleSums};
ghost use Rattle.block_strips.specs.Blocks.{next_box};
ghost use Rattle.block_strips.specs.Laid.{IsLaidByBlocks};
ghost use Rattle.block_check.specs.Blocks.{after_block};
ghost use Rattle.block_check.specs.Records.{BlockStands};
ghost use Rattle.quilted.specs.Runs.{HaveOneFrame, IsLaidBlock, LaysNext, by_overlap, quilting};

use crate::lay_block;
use crate::picks::BlockPicks;
use block_check::{BlockRecord, put_block};
use block_strips::{QuiltPlan, block_rect, next_block_shares_strips};
use cells::Volume;
use map_canvas::{Canvas, Placement};
use patch_picks::Draws;
use search_squares::SampleSums;
use std::alloc::{AllocError, Global};

// Lays the next block at a placement, and puts it in.
fn lay_and_put(
    alloc: Global,
    plan: &QuiltPlan,
    canvas: &mut Canvas,
    sample: &Volume,
    placement: &Placement,
) -> Result<BlockRecord, AllocError>
    requires block { 1 ≤ plan.now.block }
    requires pictures { HaveOneFrame canvas.old sample.now }
    requires laid { IsLaidByBlocks plan.now sample.now canvas.old.map }
    requires fits { Fits canvas.old.map.size sample.now placement.now }
    requires next { next_box plan.now canvas.old.map sample.now ≡ Some placement.now.rect }
    ensures block { IfOk result (IsLaidBlock plan.now canvas.old.map sample.now placement.now) }
    ensures stands { IfOk result (BlockStands canvas.old.map sample.now) }
    ensures map { IfOk result (λ block. canvas.new.map ≡ after_block canvas.old.map block) }
    ensures pictures { HaveOneFrame canvas.new sample.now }
    ensures laid { IsLaidByBlocks plan.now sample.now canvas.new.map }
    ensures kept { OnErr result (canvas.new ≡ canvas.old) }
{
    next_block_shares_strips(plan, canvas, sample, &placement.rect);
    let block = lay_block(alloc, plan, canvas, sample, placement)?;
    put_block(alloc, canvas, sample, &block)?;
    Ok(block)
}

/// Lays the next block of a plan over a canvas that is laid for it, and leaves a canvas that is: the block of
/// `block_rect`, at the placement that the next draw picks among all that fit, with the boundaries of
/// `lay_block`, put in by `put_block`. None where the canvas is full. The sums of the sample's blocks, by which
/// it picks, are made in each call. The one error is out of memory; canvas and draws are as they were then.
pub fn next_block(
    alloc: Global,
    plan: &QuiltPlan,
    canvas: &mut Canvas,
    sample: &Volume,
    draws: &mut Draws,
) -> Result<Option<BlockRecord>, AllocError>
    requires block { 1 ≤ plan.now.block }
    requires pictures { HaveOneFrame canvas.old sample.now }
    requires laid { IsLaidByBlocks plan.now sample.now canvas.old.map }
    ensures next { LaysNext (by_overlap sample.now) plan.now sample.now
        (quilting canvas.old.map draws.old) (quilting canvas.new.map draws.new) result }
    ensures stands { IfOk result (λ block. IfSome block (BlockStands canvas.old.map sample.now)) }
    ensures pictures { HaveOneFrame canvas.new sample.now }
    ensures laid { IsLaidByBlocks plan.now sample.now canvas.new.map }
    ensures kept { OnErr result (canvas.new ≡ canvas.old) }
{
    let Some(_) = canvas.first_unfilled() else {
        return Ok(None);
    };
    let sums = SampleSums::make(alloc, sample)?;
    next_block_with(alloc, plan, canvas, sample, &sums, draws)
}

/// The same step as `next_block`, of a sample whose sums of blocks are made, once for all steps.
pub fn next_block_with(
    alloc: Global,
    plan: &QuiltPlan,
    canvas: &mut Canvas,
    sample: &Volume,
    sums: &SampleSums,
    draws: &mut Draws,
) -> Result<Option<BlockRecord>, AllocError>
    requires block { 1 ≤ plan.now.block }
    requires sums { AreSampleSums sample.now sums.now }
    requires pictures { HaveOneFrame canvas.old sample.now }
    requires laid { IsLaidByBlocks plan.now sample.now canvas.old.map }
    ensures next { LaysNext (by_overlap sample.now) plan.now sample.now
        (quilting canvas.old.map draws.old) (quilting canvas.new.map draws.new) result }
    ensures stands { IfOk result (λ block. IfSome block (BlockStands canvas.old.map sample.now)) }
    ensures pictures { HaveOneFrame canvas.new sample.now }
    ensures laid { IsLaidByBlocks plan.now sample.now canvas.new.map }
    ensures kept { OnErr result (canvas.new ≡ canvas.old) }
{
    next_block_by(alloc, plan, canvas, sample, sums, draws)
}

/// The same step, at the placement that `picks` picks of those that fit, by its ratings.
pub fn next_block_by<P: BlockPicks>(
    alloc: Global,
    plan: &QuiltPlan,
    canvas: &mut Canvas,
    sample: &Volume,
    picks: &P,
    draws: &mut Draws,
) -> Result<Option<BlockRecord>, AllocError>
    requires block { 1 ≤ plan.now.block }
    requires ready { P.AreReady picks.now canvas.old.map.size sample.now }
    requires pictures { HaveOneFrame canvas.old sample.now }
    requires laid { IsLaidByBlocks plan.now sample.now canvas.old.map }
    ensures next { LaysNext (P.rating picks.now sample.now) plan.now sample.now
        (quilting canvas.old.map draws.old) (quilting canvas.new.map draws.new) result }
    ensures stands { IfOk result (λ block. IfSome block (BlockStands canvas.old.map sample.now)) }
    ensures pictures { HaveOneFrame canvas.new sample.now }
    ensures laid { IsLaidByBlocks plan.now sample.now canvas.new.map }
    ensures kept { OnErr result (canvas.new ≡ canvas.old) }
{
    let Some(rect) = block_rect(plan, canvas, sample) else {
        return Ok(None);
    };
    let number = draws.place();
    let placement = picks.pick(alloc, plan.tol, &rect, canvas, sample, draws)?;
    match lay_and_put(alloc, plan, canvas, sample, &placement) {
        Ok(block) => Ok(Some(block)),
        Err(error) => {
            // The draw is given back.
            draws.go_to(number);
            Err(error)
        }
    }
}
