// What the definitions mean.
ghost use Rattle.cells.specs.Places.{IsSmall};
ghost use Rattle.patch_picks.specs.Fitting.{HasPatch};
ghost use Rattle.grown.specs.BoxLimit.{RunPassesThere};
ghost use Rattle.grown.specs.Rounds.{NoRoundIsIdle, ThereIsOneRound};
ghost use Rattle.grown.specs.OneRun.{EndsWithin, NoneRaise, NoneRaises, OneLimit, OneRun, RoundsFollow};

use crate::plan::GrowPlan;
use cells::Volume;

/// A law, with nothing to run: of a plan and a sample there is one run to the end, up to the flows of its
/// records; and either its boxes stay within the bound on their cells, or they pass it at one number.
pub fn there_is_one_grown_run(plan: &GrowPlan, sample: &Volume)
    requires { IsSmall plan.now.size }
    ensures run { OneRun plan.now sample.now }
    ensures within { EndsWithin plan.now sample.now }
    ensures limit { OneLimit plan.now sample.now }
{
    // Called for its contract only: it shows the prover that the sample is a volume.
    let _samples = sample.samples();
}

/// A law, with nothing to run: no round raises the total seam cost, and so no rounds do.
pub fn no_round_raises_the_total(plan: &GrowPlan, sample: &Volume)
    ensures one { NoneRaises plan.now sample.now }
    ensures all { NoneRaise plan.now sample.now }
{
    // Called for its contract only: it shows the prover that the sample is a volume.
    let _samples = sample.samples();
}

/// A law, with nothing to run: the records of a run are first those of placements, each over a map with an
/// unfilled cell, and then those of rounds, each over a full map, as many as rounds were made.
pub fn rounds_follow_placements(plan: &GrowPlan, sample: &Volume)
    requires { IsSmall plan.now.size }
    ensures { RoundsFollow plan.now sample.now }
{
    // Called for its contract only: it shows the prover that the sample is a volume.
    let _samples = sample.samples();
}

/// A law, with nothing to run: where the boxes that sizes alone say pass the bound on their cells, the run of
/// the plan passes it, at the same number.
pub fn the_run_passes_where_boxes_do(plan: &GrowPlan, sample: &Volume)
    requires small { IsSmall plan.now.size }
    requires patch { HasPatch plan.now.mode }
    ensures { RunPassesThere plan.now sample.now }
{
    // Called for its contract only: it shows the prover that the sample is a volume.
    let _samples = sample.samples();
}

/// A law, with nothing to run: of a map, a sample and draws there is one placement of a round, and none
/// where no window costs anything.
pub fn there_is_one_round()
    ensures one { ThereIsOneRound }
    ensures idle { NoRoundIsIdle }
{}
