// The flow that a search makes of one. Its tables are given back before those of the level graphs are taken.

ghost use Rattle.std.specs.Prelude.{◌≡◌, IfOk, length, map, vec_len};
ghost use Rattle.max_flow.specs.Residual.{Carries};

use crate::checking::flow_left;
use crate::network::{Network, Pipe};
use crate::packed::PackedArcs;
use crate::preflow::Preflow;
use crate::trees::Trees;
use crate::triangles::Shorter;
use std::alloc::{AllocError, Global};

// How many arcs the search trees look at, at most, for each pipe. Level graphs that finish in their place take many
// times as long on grids whose capacities are drawn.
const WORK: u64 = 4096;

// So many they look at where an excess goes on. On most networks of images they end below 200. Where they don't,
// each long path takes many nodes from their parents, and an excess takes less: two textures of 1024x1024 cells,
// parted across the middle, take the trees 1,500 and an excess 400.
const TREES: u64 = 256;

// How many arcs an excess looks at, at most, for each pipe.
const EXCESS: u64 = 4096;

/// Lets nothing flow.
pub fn empty(pipes: &[Pipe], backward: &mut [u32])
    requires { length backward.old ≡ length pipes.now }
    ensures { backward.new ≡ map (λ pipe. pipe.back) pipes.now }
{
    for j in 0..backward.len() {
        backward[j] = pipes[j].back;
    }
}

// Sends more flow over arcs with the ends of a network by search trees, which look at so many arcs for each pipe at
// most. Says besides whether no more can be sent.
fn grow_trees(
    alloc: Global,
    network: &Network,
    arcs: PackedArcs,
    looks: u64,
) -> Result<(PackedArcs, bool), AllocError> {
    let limit = looks.saturating_mul(arcs.pipes() as u64);
    let mut trees = Trees::make(alloc, arcs)?;
    let is_greatest = trees.send(network.source(), network.sink(), limit);
    Ok((trees.arcs, is_greatest))
}

/// Writes what search trees leave for the arc against each pipe, where they go on from what `backward` has.
pub fn propose(alloc: Global, network: &Network, backward: &mut [u32]) -> Result<(), AllocError> {
    let mut arcs = PackedArcs::pack(alloc, network.nodes() as usize, network.pipes())?;
    arcs.read_backward(backward);
    let (arcs, _) = grow_trees(alloc, network, arcs, WORK)?;
    arcs.write_backward(backward);
    Ok(())
}

// Sends flow over the arcs of a shorter network: by search trees, and by an excess where they give up.
fn search_short(
    alloc: Global,
    network: &Network,
    arcs: PackedArcs,
) -> Result<PackedArcs, AllocError> {
    let (arcs, is_greatest) = grow_trees(alloc, network, arcs, TREES)?;
    if is_greatest {
        return Ok(arcs);
    }
    let limit = EXCESS.saturating_mul(arcs.pipes() as u64);
    let mut preflow = Preflow::make(alloc, arcs)?;
    preflow.send(network.source(), network.sink(), limit);
    Ok(preflow.arcs)
}

/// What the search leaves for the arc against each pipe of a network, where it goes over the shorter one and begins
/// with nothing. The table is made once those of the search are given back.
pub fn propose_short(
    alloc: Global,
    network: &Network,
    shorter: Shorter,
) -> Result<Vec<u32>, AllocError>
    ensures { IfOk result (λ backward. vec_len backward ≡ length network.now.pipes) }
{
    let pipes = network.pipes();
    let (arcs, mut stars) = shorter.pack(alloc)?;
    let arcs = search_short(alloc, network, arcs)?;
    let mut backward = vec![in alloc; 0u32; pipes.len()]?;
    arcs.write_backward(&mut backward);
    stars.turn_back(pipes, arcs.pipes(), &mut backward);
    Ok(backward)
}

/// The value of the flow that leaves so much for the arc against each pipe. If it isn't a flow, nothing flows
/// then.
pub fn checked_flow(
    alloc: Global,
    network: &Network,
    backward: &mut [u32],
) -> Result<u64, AllocError>
    requires { length backward.old ≡ length network.now.pipes }
    ensures { IfOk result
        (Carries network.now.pipes network.now.source network.now.sink backward.new) }
{
    let pipes = network.pipes();
    let nodes = network.nodes();
    let mut excess = vec![in alloc; 0i64; nodes as usize]?;
    let (source, sink) = (network.source(), network.sink());
    if let Some(value) = flow_left(pipes, nodes, source, sink, backward, &mut excess) {
        return Ok(value);
    }
    empty(pipes, backward);
    Ok(0)
}
