// Steps of a transfer, and the whole of it.
ghost use Rattle.std.specs.Prelude.{◌≡◌, ◌≤◌, IfOk, IfSome, OnErr};
ghost use Rattle.limits.specs.declared.bounds.TheConstants.{GREATEST_ALPHA};
ghost use Rattle.block_check.specs.Records.{BlockStands};
ghost use Rattle.block_strips.specs.Laid.{IsLaidByBlocks};
ghost use Rattle.quilted.specs.Runs.{HaveOneFrame, LaysNext, quilting};
ghost use Rattle.quilted.specs.Quilted.{CanBeQuilted, Quilts};
ghost use Rattle.transfer.specs.Search.{ServesTransfer};
ghost use Rattle.targets.specs.Targets.{IsTargetOf, by_target};

use crate::plan::TransferPlan;
use crate::search::TargetSearch;
use crate::weighed::Weighed;
use block_check::BlockRecord;
use cells::Volume;
use map_canvas::Canvas;
use patch_picks::Draws;
use quilt::{next_block_by, quilt_by};
use quilted::{QuiltError, QuiltRun, Quilted, first_past};
use std::alloc::{AllocError, Global};

/// Lays the next block of a transfer over a canvas that is laid for its plan, and leaves a canvas that is: as
/// `quilt::next_block`, but for the pick, which goes by the target too. None where the canvas is full. What the pick
/// goes by is made in each call. The one error is out of memory; canvas and draws are as they were then.
pub fn next_transfer(
    alloc: Global,
    plan: &TransferPlan,
    target: &Volume,
    canvas: &mut Canvas,
    sample: &Volume,
    draws: &mut Draws,
) -> Result<Option<BlockRecord>, AllocError>
    requires block { 1 ≤ plan.now.quilt.block }
    requires alpha { plan.now.alpha ≤ GREATEST_ALPHA }
    requires target { IsTargetOf canvas.old.map.size sample.now target.now }
    requires pictures { HaveOneFrame canvas.old sample.now }
    requires laid { IsLaidByBlocks plan.now.quilt sample.now canvas.old.map }
    ensures next { LaysNext (by_target plan.now.alpha target.now sample.now) plan.now.quilt
        sample.now (quilting canvas.old.map draws.old) (quilting canvas.new.map draws.new) result }
    ensures stands { IfOk result (λ block. IfSome block (BlockStands canvas.old.map sample.now)) }
    ensures pictures { HaveOneFrame canvas.new sample.now }
    ensures laid { IsLaidByBlocks plan.now.quilt sample.now canvas.new.map }
    ensures kept { OnErr result (canvas.new ≡ canvas.old) }
{
    let Some(_) = canvas.first_unfilled() else {
        return Ok(None);
    };
    // Called for their contracts only: they show the prover that these are volumes.
    let _sample = sample.samples();
    let _target = target.samples();
    let search = TargetSearch::make(alloc, target, sample)?;
    next_transfer_with(alloc, plan, target, &search, canvas, sample, draws)
}

/// The same step as `next_transfer`, by what is made once for all steps.
pub fn next_transfer_with(
    alloc: Global,
    plan: &TransferPlan,
    target: &Volume,
    search: &TargetSearch,
    canvas: &mut Canvas,
    sample: &Volume,
    draws: &mut Draws,
) -> Result<Option<BlockRecord>, AllocError>
    requires block { 1 ≤ plan.now.quilt.block }
    requires alpha { plan.now.alpha ≤ GREATEST_ALPHA }
    requires target { IsTargetOf canvas.old.map.size sample.now target.now }
    requires search { ServesTransfer sample.now target.now search.now }
    requires pictures { HaveOneFrame canvas.old sample.now }
    requires laid { IsLaidByBlocks plan.now.quilt sample.now canvas.old.map }
    ensures next { LaysNext (by_target plan.now.alpha target.now sample.now) plan.now.quilt
        sample.now (quilting canvas.old.map draws.old) (quilting canvas.new.map draws.new) result }
    ensures stands { IfOk result (λ block. IfSome block (BlockStands canvas.old.map sample.now)) }
    ensures pictures { HaveOneFrame canvas.new sample.now }
    ensures laid { IsLaidByBlocks plan.now.quilt sample.now canvas.new.map }
    ensures kept { OnErr result (canvas.new ≡ canvas.old) }
{
    let picks = Weighed {
        target,
        search,
        alpha: plan.alpha,
    };
    next_block_by(alloc, &plan.quilt, canvas, sample, &picks, draws)
}

/// A whole transfer: blocks until the output, of the target's size, is full, with a record of each. Its draws are
/// those of the seed, from number 0 on. The limit comes first: a run that passes it makes nothing. The method is
/// that of Efros and Freeman, "Image quilting" (2001), in one pass.
pub fn transfer_canvas(
    alloc: Global,
    asked: &QuiltRun,
    alpha: u32,
    target: &Volume,
    sample: &Volume,
) -> Result<Quilted, QuiltError>
    requires can { CanBeQuilted asked.now sample.now }
    requires alpha { alpha ≤ GREATEST_ALPHA }
    requires target { IsTargetOf asked.now.size sample.now target.now }
    ensures { Quilts (by_target alpha target.now sample.now) asked.now sample.now result }
{
    // The limit comes before anything is made that the picks go by.
    if let Some(number) = first_past(&asked.plan, asked.size, sample.size()) {
        return Err(QuiltError::Records(number));
    }
    // Called for their contracts only: they show the prover that these are volumes.
    let _sample = sample.samples();
    let _target = target.samples();
    let search = TargetSearch::make(alloc, target, sample)?;
    let picks = Weighed {
        target,
        search: &search,
        alpha,
    };
    quilt_by(alloc, asked, sample, &picks)
}
