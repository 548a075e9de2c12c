// The solver: level graphs and blocking flows, until the sink has no level. Where a few of them aren't enough, a
// search whose flow is checked comes between.

ghost use Rattle.std.specs.Prelude.{◌≡◌, ◌<◌, ◌≤◌, ◌^◌, ℕ, ℤ, pos, ◌≤ℤ◌, nat_lt, Bool, List};
ghost use Rattle.std.specs.Prelude.{All, IfOk, IfSome, IsSome, OnOk, length};
ghost use Rattle.std.specs.Bool.{OnTrue};
ghost use Rattle.max_flow.specs.Networks.{IsPipeOf};
ghost use Rattle.max_flow.specs.Flows.{IsFlow, flow_value, is_in, IsCut, cut_capacity};
ghost use Rattle.max_flow.specs.Flows.{IsLeastCut, IsContained};
ghost use Rattle.max_flow.specs.Residual.{AreResiduals, Carries, flows_of};
ghost use Rattle.max_flow.specs.Levels.{AreLevels, IsClosed, level_of};
ghost use Rattle.max_flow.specs.Solutions.{IsSolution};

use crate::beginning::{checked_flow, empty, propose, propose_short};
use crate::blocking::blocking_flow;
use crate::graph::{Graph, link};
use crate::levels::find_levels;
use crate::network::{Network, Pipe};
use crate::triangles::Shorter;
use items::Items;
use std::alloc::{AllocError, Global};

// The tables name arcs by `u32`, so that they serve for fewer pipes than this.
const LIMIT: usize = 1 << 31;

// So many level graphs come before the search. Where they are enough nothing is packed, which would take as
// long as they do; where they aren't, the search has the less to send.
const PHASES: u32 = 6;

// The search doesn't come where the network has fewer nodes than this for each level up to that of the sink. Few
// paths are to be found there, and what a long one leaves makes trees slow.
const WIDTH: u64 = 4;

/// A flow of greatest value, and the least cut with the fewest nodes on the source's side.
#[derive(Drop)]
pub struct Solved {
    /// The flow of each pipe, from its `from` to its `to`.
    pub flow: Items<i32>,
    /// For each node whether it's on the source's side of the cut.
    pub source_side: Items<bool>,
    /// What leaves the source, and the capacity of the cut.
    pub value: u64,
}

// Writes the flows of the pipes.
fn write_flows(pipes: &[Pipe], nodes: u32, backward: &[u32], flow: &mut [i32])
    requires pipes { All (IsPipeOf nodes) pipes.now }
    requires residuals { AreResiduals pipes.now backward.now }
    requires sized { length flow.old ≡ length pipes.now }
    ensures { flow.new ≡ flows_of pipes.now backward.now }
{
    for j in 0..flow.len() {
        flow[j] = backward[j] as i32 - pipes[j].back as i32;
    }
}

// Puts the nodes with a level on the source's side.
fn write_sides(levels: &[u32], sides: &mut [bool])
    requires { length sides.old ≡ length levels.now }
    ensures { (n : ℕ) → is_in sides.new n ≡ nat_lt 0 (level_of levels.now n) }
{
    for n in 0..sides.len() {
        sides[n] = levels[n] > 0;
    }
}

// Adds blocking flows to a flow of the value `first`, until the sink has no level. Unless it's the last time,
// it may stop before, since the search comes after it. Returns the value of the flow, and leaves the last
// levels.
fn run(
    alloc: Global,
    graph: &Graph,
    backward: &mut [u32],
    levels: &mut [u32],
    first: u64,
    is_last: bool,
) -> Result<u64, AllocError>
    requires carries { Carries graph.now.pipes.now graph.now.source graph.now.sink backward.old
        first }
    requires levels { length levels.old ≡ graph.now.nodes }
    ensures carries { IfOk result
        (Carries graph.now.pipes.now graph.now.source graph.now.sink backward.new) }
    ensures levels { OnOk result (AreLevels graph.now.pipes.now graph.now.nodes graph.now.source
        backward.new levels.new) }
    ensures closed { OnOk result (level_of levels.new graph.now.sink ≡ 0
        → IsClosed graph.now.pipes.now backward.new levels.new) }
    ensures sink { OnOk result (OnTrue is_last (level_of levels.new graph.now.sink ≡ 0)) }
{
    let mut value = first;
    let mut left = PHASES;
    'phases: while find_levels(alloc, graph, backward, levels)? {
        let is_thin = u64::from(levels[graph.sink]) * WIDTH > u64::from(graph.nodes);
        if !is_last && left == 0 && !is_thin {
            return Ok(value);
        }
        left = left.saturating_sub(1);
        let mut current = vec![in alloc; 0u32; levels.len()]?;
        let mut path = vec![in alloc; 0u32; levels.len()]?;
        value = blocking_flow(graph, backward, levels, &mut current, &mut path, value);
    }
    Ok(value)
}

// The same in a network, in tables that are given back.
fn run_in(
    alloc: Global,
    network: &Network,
    backward: &mut [u32],
    levels: &mut [u32],
    first: u64,
    is_last: bool,
) -> Result<u64, AllocError>
    requires limit { length network.now.pipes < 2 ^ 31 }
    requires carries { Carries network.now.pipes network.now.source network.now.sink backward.old
        first }
    requires levels { length levels.old ≡ network.now.nodes }
    ensures carries { IfOk result
        (Carries network.now.pipes network.now.source network.now.sink backward.new) }
    ensures levels { OnOk result (AreLevels network.now.pipes network.now.nodes network.now.source
        backward.new levels.new) }
    ensures closed { OnOk result (level_of levels.new network.now.sink ≡ 0
        → IsClosed network.now.pipes backward.new levels.new) }
    ensures sink { OnOk result (OnTrue is_last (level_of levels.new network.now.sink ≡ 0)) }
{
    let pipes = network.pipes();
    let mut last = vec![in alloc; 0u32; levels.len()]?;
    let mut previous = vec![in alloc; 0u32; 2 * pipes.len()]?;
    link(pipes, &mut last, &mut previous);
    let graph = Graph {
        pipes,
        nodes: network.nodes(),
        source: network.source() as usize,
        sink: network.sink() as usize,
        last: &last,
        previous: &previous,
    };
    run(alloc, &graph, backward, levels, first, is_last)
}

// The flow of that value, and the cut of the nodes with a level. There is none while the sink has one.
fn hand_out(
    alloc: Global,
    network: &Network,
    backward: &[u32],
    levels: &[u32],
    value: u64,
) -> Result<Option<Solved>, AllocError>
    requires carries { Carries network.now.pipes network.now.source network.now.sink backward.now
        value }
    requires levels { AreLevels network.now.pipes network.now.nodes network.now.source
        backward.now levels.now }
    requires closed { level_of levels.now network.now.sink ≡ 0
        → IsClosed network.now.pipes backward.now levels.now }
    ensures solved { IfOk result (λ option. IfSome option (λ solved.
        IsSolution network.now solved.flow solved.source_side solved.value)) }
    ensures some { level_of levels.now network.now.sink ≡ 0 → IfOk result IsSome }
{
    if levels[network.sink() as usize] > 0 {
        return Ok(None);
    }
    let pipes = network.pipes();
    let mut flow = vec![in alloc; 0i32; pipes.len()]?;
    write_flows(pipes, network.nodes(), backward, &mut flow);
    let mut sides = vec![in alloc; false; levels.len()]?;
    write_sides(levels, &mut sides);
    Ok(Some(Solved {
        flow: Items::from_vec(flow),
        source_side: Items::from_vec(sides),
        value,
    }))
}

// Solves the network by level graphs, from a flow of that value. Unless it's the last time, it may stop before,
// and leaves what the arcs can then carry. What is handed out is made once the tables of the level graphs are
// given back.
fn level_graphs(
    alloc: Global,
    network: &Network,
    backward: &mut [u32],
    first: u64,
    is_last: bool,
) -> Result<Option<Solved>, AllocError>
    requires limit { length network.now.pipes < 2 ^ 31 }
    requires carries { Carries network.now.pipes network.now.source network.now.sink backward.old
        first }
    ensures solved { IfOk result (λ option. IfSome option (λ solved.
        IsSolution network.now solved.flow solved.source_side solved.value)) }
    ensures last { OnTrue is_last (IfOk result IsSome) }
{
    let mut levels = vec![in alloc; 0u32; network.nodes() as usize]?;
    let value = run_in(alloc, network, backward, &mut levels, first, is_last)?;
    hand_out(alloc, network, backward, &levels, value)
}

// Solves the network by level graphs, from the flow that a search left, or from none where it isn't one.
fn finish(alloc: Global, network: &Network, backward: &mut [u32]) -> Result<Solved, AllocError>
    requires limit { length network.now.pipes < 2 ^ 31 }
    requires sized { length backward.old ≡ length network.now.pipes }
    ensures { IfOk result (λ solved.
        IsSolution network.now solved.flow solved.source_side solved.value) }
{
    let value = checked_flow(alloc, network, backward)?;
    Ok(level_graphs(alloc, network, backward, value, true)?.unwrap())
}

// Solves the network from no flow, in a table of what the arcs against the pipes can carry.
fn solve_in(alloc: Global, network: &Network, backward: &mut [u32]) -> Result<Solved, AllocError>
    requires limit { length network.now.pipes < 2 ^ 31 }
    requires sized { length backward.old ≡ length network.now.pipes }
    ensures { IfOk result (λ solved.
        IsSolution network.now solved.flow solved.source_side solved.value) }
{
    empty(network.pipes(), backward);
    if let Some(solved) = level_graphs(alloc, network, backward, 0, false)? {
        return Ok(solved);
    }
    propose(alloc, network, backward)?;
    finish(alloc, network, backward)
}

// Solves the network, from the flow of a shorter one where there is one.
fn solution(alloc: Global, network: &Network) -> Result<Solved, AllocError>
    requires { length network.now.pipes < 2 ^ 31 }
    ensures { IfOk result (λ solved.
        IsSolution network.now solved.flow solved.source_side solved.value) }
{
    if let Some(shorter) = Shorter::find(alloc, network)? {
        let mut backward = propose_short(alloc, network, shorter)?;
        return finish(alloc, network, &mut backward);
    }
    let mut backward = vec![in alloc; 0u32; network.pipes().len()]?;
    solve_in(alloc, network, &mut backward)
}

/// Finds a flow of greatest value, and of all least cuts the one whose source side is contained in that of
/// every other, by Dinic's method (1970). Where it would take many phases, search trees (Boykov and Kolmogorov
/// 2004) propose a flow that it goes on from. It answers out of memory alone.
pub fn solve(alloc: Global, network: &Network) -> Result<Solved, AllocError>
    ensures flow { IfOk result (λ solved. IsFlow network.now solved.flow) }
    ensures value { IfOk result (λ solved. flow_value network.now solved.flow ≡ pos solved.value) }
    ensures cut { IfOk result (λ solved. IsCut network.now solved.source_side) }
    ensures capacity { IfOk result (λ solved.
        cut_capacity network.now solved.source_side ≡ solved.value) }
    // No flow has a greater value, and no cut a smaller capacity.
    ensures greatest { IfOk result (λ solved. (other : List ℤ) → IsFlow network.now other
        → flow_value network.now other ≤ℤ pos solved.value) }
    ensures least { IfOk result (λ solved. IsLeastCut network.now solved.source_side) }
    // The source side is contained in that of every least cut.
    ensures smallest { IfOk result (λ solved. (other : List Bool) → IsLeastCut network.now other
        → IsContained solved.source_side other) }
{
    if network.pipes().len() >= LIMIT {
        return Err(AllocError);
    }
    solution(alloc, network)
}
