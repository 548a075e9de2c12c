// Worked examples of cut_graph: the nodes and pipes of networks over a row, and their values.
ghost use Rattle.map_canvas.specs.Canvases.{StandsOver};

use crate::cases::{Case, Nodes, Over};
use crate::samples::{GREYS, SIX, fits, laid_at};
use cells::Volume;
use costs::are_marks;
use cut_graph::{Places, build, build_held};
use map_canvas::Canvas;
use max_flow::{Network, solve};
use std::alloc::{AllocError, Global};

const SECOND_HELD: Option<&[bool]> = Some(&[false, true, false, false]);

pub(crate) const NETWORKS: &[Case<'static>] = &[
    // Every cell of the box is unfilled, and there is no pipe.
    (
        GREYS,
        SIX,
        &[],
        Over::Network(0, None, (&[1, 1, 1, 1], &[0, 0, 0], &[0, 0, 0], 0)),
    ),
    // The first cell of the box is kept, the second is free, two are unfilled.
    (
        GREYS,
        SIX,
        &[0, 1, 2, 3],
        Over::Network(2, None, (&[0, 2, 1, 1], &[3, 0, 0], &[0, 3, 0], 120)),
    ),
    // With the second one held, old meets new after it.
    (
        GREYS,
        SIX,
        &[0, 1, 2, 3],
        Over::Network(2, SECOND_HELD, (&[0, 0, 1, 1], &[2, 0, 0], &[0, 3, 0], 825)),
    ),
    // The last cell of the box is kept, and its seam stays as it was.
    (
        GREYS,
        SIX,
        &[0, 1, 2, 1, 2, 3],
        Over::Network(0, None, (&[2, 3, 4, 0], &[5, 6, 7], &[0, 3, 6], 120)),
    ),
];

// Whether a network and its places are so.
fn are_nodes(alloc: Global, made: (Network, Places), nodes: &Nodes) -> Result<bool, AllocError> {
    let (network, places) = made;
    let (cells, seams, pipes, value) = *nodes;
    let are_places = places.cell_nodes.as_slice() == cells
        && places.seam_nodes.as_slice() == seams
        && places.pipes.as_slice() == pipes;
    let solved = solve(alloc, &network)?;
    Ok(are_places && solved.value == value)
}

/// Whether the network of four cells from a column on is so.
pub(crate) fn is_network(
    alloc: Global,
    canvas: &Canvas,
    sample: &Volume,
    x: i32,
    held: Option<&[bool]>,
    nodes: &Nodes,
) -> Result<bool, AllocError>
    requires { StandsOver canvas.now sample.now }
{
    let placement = laid_at(x, 4);
    if !fits(canvas, sample, &placement) || !are_marks(canvas, &placement, held) {
        return Ok(false);
    }
    match held {
        None => are_nodes(alloc, build(alloc, canvas, sample, &placement)?, nodes),
        Some(_) => {
            let made = build_held(alloc, canvas, sample, &placement, held)?;
            are_nodes(alloc, made, nodes)
        }
    }
}
