// The record of a solved network.
ghost use Rattle.std.specs.Prelude.{◌≡◌, ◌<◌, ◌++◌, ℕ, IfOk, Some, length, slice_index, vec_capacity, vec_len};
ghost use Rattle.cells.specs.Boxes.{HasCells, HoldsBox, cell_in};
ghost use Rattle.cells.specs.Places.{IsSmall, cell_count, index_in, raster_index};
ghost use Rattle.boxes.specs.Pairs.{AreCounts, pair_count, pair_number, pairs_before};
ghost use Rattle.max_flow.specs.Flows.{pipe_flow};
ghost use Rattle.graph_place.specs.Parts.{IsChoiceOf, flow_along, flows_before, flows_from};
ghost use Rattle.graph_place.specs.Records.{HasFlows, IsRecordOf, IsSmallFlow, IsSolvedFor, flow_of, pipe_count, source_in};

use boxes::{Counts, stride};
use cells::{At, Axis};
use cut_check::{CutRecord, Flow};
use cut_graph::Places;
use items::Items;
use map_canvas::{Canvas, Map, Placement};
use max_flow::Solved;
use std::alloc::{AllocError, Global};

// A cell is new where its node isn't on the source's side.
fn choice_of(alloc: Global, nodes: &[u32], sides: &[bool]) -> Result<Vec<bool>, AllocError>
    requires { (i : ℕ) → i < length nodes.now → slice_index nodes.now i < length sides.now }
    ensures { IfOk result (λ choice. IsChoiceOf nodes.now sides.now choice.items) }
{
    let mut choice = vec![in alloc; false; nodes.len()]?;
    for i in 0..choice.len() {
        choice[i] = !sides[nodes[i] as usize];
    }
    Ok(choice)
}

// The flow of one pipe.
fn pipe_flow(flows: &[i32], j: usize) -> i16
    requires below { j < length flows.now }
    requires small { IsSmallFlow (pipe_flow flows.now j) }
    ensures { result ≡ pipe_flow flows.now j }
{
    flows[j] as i16
}

// The flow of a pair of which these are the sources and this is the first pipe.
fn flow_of(a: Option<At>, b: Option<At>, flows: &[i32], first: usize) -> Flow
    requires { HasFlows flows.now first (pipe_count a b) }
    ensures { result ≡ flow_of a b flows.now first }
{
    match (a, b) {
        (Some(_), Some(_)) => Flow {
            x: pipe_flow(flows, first),
            y: pipe_flow(flows, first + 1),
        },
        (Some(_), None) => Flow {
            x: pipe_flow(flows, first),
            y: 0,
        },
        (None, Some(_)) => Flow {
            x: 0,
            y: -pipe_flow(flows, first),
        },
        (None, None) => Flow { x: 0, y: 0 },
    }
}

// Adds the flow of a cell of this source, at an index of the map, and the next one along an axis, where
// the box has it.
#[inline(always)]
fn add_pair(
    flows: &mut Vec<Flow>,
    map: &Map,
    placement: &Placement,
    places: &Places,
    solved: &Solved,
    axis: Axis,
    at: Counts,
    k: usize,
    source: Option<At>,
)
    requires small { IsSmall placement.now.rect.size }
    requires inside { HoldsBox map.now.size placement.now.rect.corner placement.now.rect.size }
    requires solved { IsSolvedFor map.now placement.now places.now solved.now }
    requires counts { AreCounts placement.now.rect.size at.x at.y at.f }
    requires index { index_in map.now.size (cell_in placement.now.rect at.x at.y at.f) ≡ Some k }
    requires source { source ≡ source_in map.now placement.now at.x at.y at.f }
    requires number { vec_len flows.old ≡ pair_number placement.now.rect.size axis at.x at.y at.f }
    requires room { vec_capacity flows.old ≡ pair_count placement.now.rect.size }
    ensures flows { flows.new.items ≡ flows.old.items
        ++ flow_along map.now placement.now places.now solved.now.flow axis at.x at.y at.f }
    ensures room { vec_capacity flows.new ≡ pair_count placement.now.rect.size }
{
    if !at.has_next(placement.rect.size, axis) {
        return;
    }
    let next = map.sources()[k + stride(map.size(), axis)].source();
    let first = places.pipes.as_slice()[flows.len()] as usize;
    flows.push_reserved(flow_of(source, next, solved.flow.as_slice(), first));
}

// Adds the flows of a cell and the next ones along X, Y and F.
fn add_pairs(
    flows: &mut Vec<Flow>,
    map: &Map,
    placement: &Placement,
    places: &Places,
    solved: &Solved,
    at: Counts,
)
    requires small { IsSmall placement.now.rect.size }
    requires inside { HoldsBox map.now.size placement.now.rect.corner placement.now.rect.size }
    requires solved { IsSolvedFor map.now placement.now places.now solved.now }
    requires counts { AreCounts placement.now.rect.size at.x at.y at.f }
    requires number { vec_len flows.old ≡
        pairs_before placement.now.rect.size (raster_index placement.now.rect.size at.x at.y at.f) }
    requires room { vec_capacity flows.old ≡ pair_count placement.now.rect.size }
    ensures flows { flows.new.items ≡ flows.old.items
        ++ flows_from map.now placement.now places.now solved.now.flow at.x at.y at.f }
    ensures room { vec_capacity flows.new ≡ pair_count placement.now.rect.size }
{
    let size = map.size();
    let k = size.index_of(at.cell(&placement.rect)).unwrap();
    let source = map.sources()[k].source();
    add_pair(
        flows,
        map,
        placement,
        places,
        solved,
        Axis::X,
        at,
        k,
        source,
    );
    add_pair(
        flows,
        map,
        placement,
        places,
        solved,
        Axis::Y,
        at,
        k,
        source,
    );
    add_pair(
        flows,
        map,
        placement,
        places,
        solved,
        Axis::F,
        at,
        k,
        source,
    );
}

// The flows of all pairs.
fn flows_of(
    alloc: Global,
    canvas: &Canvas,
    placement: &Placement,
    places: &Places,
    solved: &Solved,
) -> Result<Vec<Flow>, AllocError>
    requires cells { HasCells placement.now.rect.size }
    requires inside { HoldsBox canvas.now.map.size
        placement.now.rect.corner placement.now.rect.size }
    requires solved { IsSolvedFor canvas.now.map placement.now places.now solved.now }
    ensures { IfOk result (λ flows. flows.items ≡ flows_before canvas.now.map placement.now
        places.now solved.now.flow (cell_count placement.now.rect.size)) }
{
    let map = canvas.map();
    let size = placement.rect.size;
    let mut flows = Vec::with_capacity(alloc, places.pipes.as_slice().len())?;
    let mut at = Counts::first();
    for i in 0..size.cells() {
        add_pairs(&mut flows, map, placement, places, solved, at);
        at = at.next(size);
    }
    Ok(flows)
}

/// The record that a solved network of a placement gives: a cell is new where its node isn't on the
/// source's side, and the flow of a pair is that of its pipes. The one error is that there is no
/// memory.
pub fn to_record(
    alloc: Global,
    canvas: &Canvas,
    placement: Placement,
    places: &Places,
    solved: &Solved,
) -> Result<CutRecord, AllocError>
    requires cells { HasCells placement.rect.size }
    requires inside { HoldsBox canvas.now.map.size placement.rect.corner placement.rect.size }
    requires solved { IsSolvedFor canvas.now.map placement places.now solved.now }
    ensures { IfOk result (IsRecordOf canvas.now.map placement places.now solved.now) }
{
    let choice = choice_of(
        alloc,
        places.cell_nodes.as_slice(),
        solved.source_side.as_slice(),
    )?;
    let flows = flows_of(alloc, canvas, &placement, places, solved)?;
    Ok(CutRecord {
        placement,
        choice: Items::from_vec(choice),
        flows: Items::from_vec(flows),
    })
}
