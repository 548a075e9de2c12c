// What the definitions mean.
ghost use Rattle.std.specs.Prelude.{◌≡◌, ◌≤◌, Some};
ghost use Rattle.cells.specs.Cells.{IsOnePart};
ghost use Rattle.block_strips.specs.Blocks.{FitsBlock, next_box};
ghost use Rattle.block_strips.specs.Laid.{EmptyIsLaid, IsLaidByBlocks, SharesStrips, StaysLaid};

use crate::QuiltPlan;
use cells::{Box3, Volume};
use map_canvas::Canvas;

/// A law, with nothing to run: on a canvas that is laid for a plan the filled cells of the next block are
/// exactly those of its strips, each of which fits in the block; and with the block's cells filled too, it is
/// laid for the plan again.
pub fn next_block_shares_strips(plan: &QuiltPlan, canvas: &Canvas, sample: &Volume, rect: &Box3)
    requires block { 1 ≤ plan.now.block }
    requires part { IsOnePart sample.now }
    requires frame { canvas.now.map.size.f ≡ 1 }
    requires laid { IsLaidByBlocks plan.now sample.now canvas.now.map }
    requires next { next_box plan.now canvas.now.map sample.now ≡ Some rect.now }
    ensures fits { FitsBlock canvas.now.map.size sample.now.size rect.now }
    ensures strips { SharesStrips plan.now sample.now canvas.now.map rect.now }
    ensures more { StaysLaid plan.now sample.now canvas.now.map rect.now }
{
    // Called for their contracts only: they show the prover that these are a map and a volume.
    let _map = canvas.map();
    let _size = sample.size();
}

/// A law, with nothing to run: a map with no cell filled is laid for each plan.
pub fn empty_map_is_laid()
    ensures { EmptyIsLaid }
{}
