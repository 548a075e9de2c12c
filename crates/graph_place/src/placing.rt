// Placements that are put in.
ghost use Rattle.std.specs.Prelude.{◌≡◌, IfSome, OnErr, OnOk, IfOk, option_copied, []};
ghost use Rattle.cells.specs.Boxes.{HasCells, HoldsBox};
ghost use Rattle.cells.specs.Distances.{distance};
ghost use Rattle.map_canvas.specs.Canvases.{IsCanvas, StandsOver};
ghost use Rattle.map_canvas.specs.Choices.{Fits};
ghost use Rattle.costs.specs.Lawful.{AreMarks, IsLeastChoice, held_marks};
ghost use Rattle.max_flow.specs.declared.solver.Solved.{Solved};
ghost use Rattle.max_flow.specs.Solutions.{IsSolution};
ghost use Rattle.least_choice.specs.Fewest.{IsLeastWith};
ghost use Rattle.graph_place.specs.Parts.{IsSolvedRecord};
ghost use Rattle.graph_place.specs.Placed.{IsPlaced};
ghost use Rattle.graph_place.specs.Records.{IsSolvedFor};
ghost use Rattle.least_choice.specs.Totals.{KeepsTotal};

use crate::record::to_record;
use cells::Volume;
use cut_check::CutRecord;
use cut_graph::{Places, build_held};
use map_canvas::{Canvas, Placement};
use max_flow::{Network, solve};
use std::alloc::{AllocError, Global};

// The record of a placement, by its network, which is solved here.
fn solved_record(
    alloc: Global,
    canvas: &Canvas,
    placement: Placement,
    network: &Network,
    places: &Places,
) -> Result<CutRecord, AllocError>
    requires cells { HasCells placement.rect.size }
    requires inside { HoldsBox canvas.now.map.size placement.rect.corner placement.rect.size }
    requires serves { (solved : Solved) → IsSolution network.now solved.flow solved.source_side
        solved.value → IsSolvedFor canvas.now.map placement places.now solved }
    ensures { IfOk result (IsSolvedRecord network.now canvas.now.map placement places.now) }
{
    let solved = solve(alloc, network)?;
    to_record(alloc, canvas, placement, places, &solved)
}

/// Puts a placement in, with cells of its box that are held old too: of the admissible choices without a held cell
/// the one that leaves the least total seam cost, and of these the one with the fewest old cells. `held` has a
/// mark for each cell of the box, in raster order, or is missing where none is held. Gives the record, which
/// `check_held` accepts over the canvas as it was. The one error is that there is no memory, and leaves the
/// canvas as it was. The method is that of Kwatra et al. (2003).
pub fn place_held(
    alloc: Global,
    canvas: &mut Canvas,
    sample: &Volume,
    placement: Placement,
    held: Option<&[bool]>,
) -> Result<CutRecord, AllocError>
    requires over { StandsOver canvas.old sample.now }
    requires fits { Fits canvas.old.map.size sample.now placement }
    requires held { IfSome (option_copied held) (AreMarks canvas.old.map placement) }
    ensures placed { IfOk result (IsPlaced canvas.old sample.now placement
        (held_marks (option_copied held.entry)) canvas.new) }
    ensures least { IfOk result (λ cut. IsLeastWith (distance sample.now) canvas.old.map placement
        (option_copied held.entry) cut.choice) }
    ensures total { OnOk result (KeepsTotal sample.now canvas.old.map canvas.new.map) }
    ensures canvas { IsCanvas canvas.new }
    ensures kept { OnErr result (canvas.new ≡ canvas.old) }
{
    // Called for their contracts only: they show the prover that these are a map and a volume.
    let _map = canvas.map();
    let _samples = sample.samples();
    let (network, places) = build_held(alloc, canvas, sample, &placement, held)?;
    let made = solved_record(alloc, canvas, placement, &network, &places);
    drop((network, places));
    let record = made?;
    canvas.put_choice(sample, &placement, record.choice.as_slice());
    Ok(record)
}

/// The same with no cell held.
pub fn place(
    alloc: Global,
    canvas: &mut Canvas,
    sample: &Volume,
    placement: Placement,
) -> Result<CutRecord, AllocError>
    requires over { StandsOver canvas.old sample.now }
    requires fits { Fits canvas.old.map.size sample.now placement }
    ensures placed { IfOk result (IsPlaced canvas.old sample.now placement [] canvas.new) }
    ensures least { IfOk result (λ cut. IsLeastChoice (distance sample.now) canvas.old.map placement
        cut.choice) }
    ensures total { OnOk result (KeepsTotal sample.now canvas.old.map canvas.new.map) }
    ensures canvas { IsCanvas canvas.new }
    ensures kept { OnErr result (canvas.new ≡ canvas.old) }
{
    place_held(alloc, canvas, sample, placement, None)
}
