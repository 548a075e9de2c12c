// What the definitions mean.
ghost use Rattle.std.specs.Prelude.{◌≡◌, ◌≤◌};
ghost use Rattle.cells.specs.Cells.{IsOnePart};
ghost use Rattle.cells.specs.Places.{IsSmall};
ghost use Rattle.quilted.specs.OneLimit.{OneQuiltLimit, QuiltEndsWithin, RunPassesWhereBlocksDo, RunsPassThere};
ghost use Rattle.quilted.specs.Quilted.{CanBeQuilted};
ghost use Rattle.quilted.specs.Runs.{OneQuilt, QuiltsReplay, Rating};

use crate::asked::QuiltRun;
use block_strips::QuiltPlan;
use cells::{Size, Volume};

/// A law, with nothing to run: what steps of a plan leave, from the canvas with no cell filled on, is the map
/// that their records leave, put in one after another. Each record stands over the map that those before it
/// leave, each boundary is least there, and what is left is laid for the plan.
pub fn quilts_replay(plan: &QuiltPlan, sample: &Volume, size: Size)
    requires block { 1 ≤ plan.now.block }
    requires part { IsOnePart sample.now }
    requires small { IsSmall size }
    requires frame { size.f ≡ 1 }
    ensures { QuiltsReplay plan.now sample.now size }
{
    // Called for its contract only: it shows the prover that the sample is a volume.
    let _size = sample.size();
}

/// A law, with nothing to run: of a rating, a plan, a sample, a size and a seed there is one quilted run, with
/// its records and its map.
pub fn there_is_one_quilt(plan: &QuiltPlan, sample: &Volume, size: Size)
    requires { IsSmall size }
    ensures { OneQuilt plan.now sample.now size }
{
    // Called for its contract only: it shows the prover that the sample is a volume.
    let _samples = sample.samples();
}

/// A law, with nothing to run: of what is asked and a sample, either the boxes of the run stay within the bound
/// on their cells, or they pass it at one number, whatever rates their places.
pub fn there_is_one_quilt_limit(asked: &QuiltRun, sample: &Volume)
    requires { CanBeQuilted asked.now sample.now }
    ensures within { (rating : Rating) → QuiltEndsWithin rating asked.now sample.now }
    ensures limit { OneQuiltLimit asked.now sample.now }
    ensures run { (rating : Rating) → RunsPassThere rating asked.now sample.now }
{
    // Called for its contract only: it shows the prover that the sample is a volume.
    let _samples = sample.samples();
}

/// A law, with nothing to run: where the blocks of the plan pass the bound on their cells, a run does, at the same
/// number, whatever rates its places. It lays each block before that one from a place that its draw picks, along
/// least boundaries.
pub fn a_run_passes_where_blocks_do(asked: &QuiltRun, sample: &Volume)
    requires { CanBeQuilted asked.now sample.now }
    ensures { (rating : Rating) → RunPassesWhereBlocksDo rating asked.now sample.now }
{
    // Called for its contract only: it shows the prover that the sample is a volume.
    let _samples = sample.samples();
}
