// The network of a placement.
ghost use Rattle.std.specs.Prelude.{◌≡◌, IfOk, IfSome, length, option_copied, []};
ghost use Rattle.cells.specs.Distances.{distance};
ghost use Rattle.map_canvas.specs.Canvases.{StandsOver};
ghost use Rattle.map_canvas.specs.Choices.{Fits};
ghost use Rattle.costs.specs.Lawful.{AreMarks, held_marks};
ghost use Rattle.boxes.specs.Pairs.{pair_count};
ghost use Rattle.cells.specs.Places.{cell_count};
ghost use Rattle.cut_graph.specs.Building.{AreSeamNodes, HasAllPipes};
ghost use Rattle.cut_graph.specs.Cuts.{ChoicesAreCuts, IsNetworkOf};
ghost use Rattle.cut_graph.specs.Numberings.{IsNumbering};
ghost use Rattle.cut_graph.specs.Plans.{AreSinksUnfilled};

use crate::cell_nodes::number_cells;
use crate::numbering::Numbering;
use crate::piping::{Piping, lay_pipes};
use crate::places::Places;
use crate::plan::Plan;
use crate::seam_nodes::number_seams;
use cells::Volume;
use items::Items;
use map_canvas::{Canvas, Placement};
use max_flow::Network;
use std::alloc::{AllocError, Global};

// Lays the pipes of a placement between its nodes.
fn lay(
    alloc: Global,
    canvas: &Canvas,
    sample: &Volume,
    placement: &Placement,
    cells: &Numbering,
    seams: &Numbering,
) -> Result<Piping, AllocError>
    requires fits { Fits canvas.now.map.size sample.now placement.now }
    requires cells { IsNumbering 2 cells.now.next cells.now.nodes.items }
    requires cells_count { length cells.now.nodes.items ≡ cell_count placement.now.rect.size }
    requires unfilled { AreSinksUnfilled canvas.now.map placement.now cells.now.nodes.items }
    requires seams { AreSeamNodes cells.now.nodes.items placement.now.rect.size cells.now.next
        (pair_count placement.now.rect.size) seams.now }
    ensures { IfOk result (HasAllPipes (distance sample.now) canvas.now.map placement.now
        cells.now.nodes.items seams.now.nodes.items seams.now.next) }
{
    // Called for its contract only: it shows the prover that the sample is a volume.
    let _samples = sample.samples();
    let plan = Plan {
        map: canvas.map(),
        sample,
        placement: *placement,
        cells: &cells.nodes,
        seams: &seams.nodes,
    };
    lay_pipes(alloc, &plan, seams.next)
}

/// The network of a placement, whose cuts are the choices between old and new, with cells of its box that
/// are held too. `held` has a mark for each cell of the box, in raster order, or is missing where none is
/// held. The method is that of Kwatra et al. (2003). The one error is that there is no memory.
pub fn build_held(
    alloc: Global,
    canvas: &Canvas,
    sample: &Volume,
    placement: &Placement,
    held: Option<&[bool]>,
) -> Result<(Network, Places), AllocError>
    requires over { StandsOver canvas.now sample.now }
    requires fits { Fits canvas.now.map.size sample.now placement.now }
    requires held { IfSome (option_copied held) (AreMarks canvas.now.map placement.now) }
    ensures network { IfOk result (λ made.
        IsNetworkOf (distance sample.now) canvas.now.map placement.now
        (held_marks (option_copied held.entry)) made.0 made.1) }
    ensures cuts { IfOk result (λ made. ChoicesAreCuts
        (distance sample.now) canvas.now.map placement.now
        (held_marks (option_copied held.entry)) made.0 made.1) }
{
    // Called for their contracts only: the map shows the prover that the box is small, and the
    // samples that the sample is a volume.
    let _map = canvas.map();
    let _samples = sample.samples();
    let cells = number_cells(alloc, canvas, placement, held)?;
    let seams = number_seams(alloc, &cells.nodes, placement.rect.size, cells.next)?;
    let piping = lay(alloc, canvas, sample, placement, &cells, &seams)?;
    let places = Places {
        cell_nodes: Items::from_vec(cells.nodes),
        seam_nodes: Items::from_vec(seams.nodes),
        pipes: Items::from_vec(piping.first),
    };
    Ok((piping.network, places))
}

/// The same with no cell held.
pub fn build(
    alloc: Global,
    canvas: &Canvas,
    sample: &Volume,
    placement: &Placement,
) -> Result<(Network, Places), AllocError>
    requires over { StandsOver canvas.now sample.now }
    requires fits { Fits canvas.now.map.size sample.now placement.now }
    ensures network { IfOk result (λ made.
        IsNetworkOf (distance sample.now) canvas.now.map placement.now [] made.0 made.1) }
    ensures cuts { IfOk result (λ made. ChoicesAreCuts
        (distance sample.now) canvas.now.map placement.now [] made.0 made.1) }
{
    build_held(alloc, canvas, sample, placement, None)
}
