// The boundaries of a block.
ghost use Rattle.std.specs.Prelude.{◌≡◌, ◌≤◌, IfOk, Some};
ghost use Rattle.map_canvas.specs.Canvases.{StandsOver};
ghost use Rattle.map_canvas.specs.Choices.{Fits};
ghost use Rattle.block_strips.specs.Blocks.{next_box};
ghost use Rattle.block_strips.specs.Laid.{IsLaidByBlocks};
ghost use Rattle.block_strips.specs.Strips.{most_cols, strip_of};
ghost use Rattle.block_check.specs.Blocks.{IsFormedBlock};
ghost use Rattle.block_check.specs.Records.{BlockStands};
ghost use Rattle.quilted.specs.Runs.{HaveOneFrame, IsLaidBlock, JoinsBy};

use block_check::BlockRecord;
use block_strips::{QuiltPlan, Side, next_block_shares_strips, strip_of};
use cells::Volume;
use map_canvas::{Canvas, Placement};
use std::alloc::{AllocError, Global};
use strip_boundary::{BoundaryRecord, least_boundary};

// The boundary through a strip with so many columns; none through one without columns.
fn join(
    alloc: Global,
    canvas: &Canvas,
    sample: &Volume,
    placement: &Placement,
    side: Side,
    cols: u32,
) -> Result<Option<BoundaryRecord>, AllocError>
    requires over { StandsOver canvas.now sample.now }
    requires samples { sample.now.k ≡ 3 }
    requires fits { Fits canvas.now.map.size sample.now placement.now }
    requires most { cols ≤ most_cols side placement.now.rect.size }
    ensures { IfOk result (JoinsBy
        (strip_of side canvas.now.map sample.now placement.now cols)) }
{
    if cols == 0 {
        return Ok(None);
    }
    let strip = strip_of(alloc, canvas, sample, placement, side, cols)?;
    let boundary = least_boundary(alloc, &strip)?;
    Ok(Some(boundary))
}

/// The record of the next block of a plan, laid from a place of the sample: through each of its strips the
/// least boundary that `least_boundary` gives. The placement is one of the box that `block_rect` gives. The one
/// error is out of memory.
pub fn lay_block(
    alloc: Global,
    plan: &QuiltPlan,
    canvas: &Canvas,
    sample: &Volume,
    placement: &Placement,
) -> Result<BlockRecord, AllocError>
    requires block { 1 ≤ plan.now.block }
    requires pictures { HaveOneFrame canvas.now sample.now }
    requires laid { IsLaidByBlocks plan.now sample.now canvas.now.map }
    requires fits { Fits canvas.now.map.size sample.now placement.now }
    requires next { next_box plan.now canvas.now.map sample.now ≡ Some placement.now.rect }
    ensures block { IfOk result (IsLaidBlock plan.now canvas.now.map sample.now placement.now) }
    ensures formed { IfOk result IsFormedBlock }
    ensures stands { IfOk result (BlockStands canvas.now.map sample.now) }
{
    next_block_shares_strips(plan, canvas, sample, &placement.rect);
    let output = canvas.map().size();
    let part = sample.size();
    let left_cols = Side::Left.shared(plan, output, part, &placement.rect);
    let top_cols = Side::Top.shared(plan, output, part, &placement.rect);
    let left = join(alloc, canvas, sample, placement, Side::Left, left_cols)?;
    let top = join(alloc, canvas, sample, placement, Side::Top, top_cols)?;
    Ok(BlockRecord {
        placement: *placement,
        left,
        top,
    })
}
