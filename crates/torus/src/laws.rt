// What the definitions mean.
ghost use Rattle.std.specs.Prelude.{ℕ};
ghost use Rattle.cells.specs.declared.place.At.{At};
ghost use Rattle.map_canvas.specs.Maps.{SourceMap};
ghost use Rattle.map_canvas.specs.declared.canvas.Placement.{Placement};
ghost use Rattle.job_words.specs.declared.tile.Wrap.{Wrap};
ghost use Rattle.torus.specs.OneTiling.{EachIsLeast, EachKeeps, OneTiling};
ghost use Rattle.torus.specs.Steps.{ThereIsOneTile};
ghost use Rattle.torus.specs.Tilings.{IsRunPlan};
ghost use Rattle.torus.specs.Tiles.{DifferAlike, IsSmallMap, LawfulAlike, LeastAlike, Takes};

use crate::plan::RunPlan;
use cells::Volume;

/// A law, with nothing to run: a choice is admissible in the small canvas exactly where it is admissible on
/// the torus; of two such choices the totals of both differ by the same number; so the least ones are the
/// same.
pub fn small_canvas_has_the_least_choices()
    ensures lawful { (m : SourceMap) (wrap : Wrap) (placement : Placement) (small : SourceMap) →
        Takes wrap m.size placement.rect → IsSmallMap m wrap placement.rect small →
        LawfulAlike m wrap placement small }
    ensures totals { (d : At → At → ℕ) (m : SourceMap) (wrap : Wrap) (placement : Placement)
        (small : SourceMap) →
        Takes wrap m.size placement.rect → IsSmallMap m wrap placement.rect small →
        DifferAlike d m wrap placement small }
    ensures least { (d : At → At → ℕ) (m : SourceMap) (wrap : Wrap) (placement : Placement)
        (small : SourceMap) →
        Takes wrap m.size placement.rect → IsSmallMap m wrap placement.rect small →
        LeastAlike d m wrap placement small }
{}

/// A law, with nothing to run: there is one next step, and it leaves one map and one next draw.
pub fn there_is_one_tile()
    ensures { ThereIsOneTile }
{}

/// A law, with nothing to run: of a plan and a sample there is one run to a full map. Each choice of a run is
/// least on the torus, and leaves each kept cell, and each outside its box, as it was.
pub fn there_is_one_tiled_run(plan: &RunPlan, sample: &Volume)
    requires { IsRunPlan plan.now }
    ensures one { OneTiling plan.now sample.now }
    ensures least { EachIsLeast plan.now sample.now }
    ensures keep { EachKeeps plan.now sample.now }
{
    // Called for its contract only: it shows the prover that the sample is a volume.
    let _samples = sample.samples();
}
