// The pipes of the pairs of a placement's box, one pair after another.
ghost use Rattle.std.specs.Prelude.{◌≡◌, ◌≤◌, ◌<◌, ◌+◌, ◌*◌, ◌∷◌, IsTrue, List, [], length, slice_index, IfOk, Some, vec_capacity};
ghost use Rattle.cells.specs.Distances.{distance};
ghost use Rattle.cells.specs.Neighbours.{unit_step};
ghost use Rattle.cells.specs.Places.{cell_count, plus, raster_index};
ghost use Rattle.max_flow.specs.Networks.{empty_network};
ghost use Rattle.max_flow.specs.declared.network.Pipe.{Pipe};
ghost use Rattle.map_canvas.specs.Maps.{IsSource};
ghost use Rattle.boxes.specs.Pairs.{AreCounts, pair_count, IsPair};
ghost use Rattle.boxes.specs.Raster.{stride};
ghost use Rattle.boxes.specs.Walks.{most_pairs};
ghost use Rattle.costs.specs.Costs.{most_of_pair, seam};
ghost use Rattle.cut_graph.specs.Pipes.{first_or_none, pair_pipes};
ghost use Rattle.cut_graph.specs.Plans.{HasNodes, HasSources, IsPiped, IsPipedPast, IsPipedTo, IsPlan, before, with_pipes};

use crate::places::{NO_PIPE, SINK, SOURCE};
use crate::plan::{PairCell, Plan};
use boxes::{Counts, stride};
use cells::{At, Axis, Volume};
use costs::seam_of;
use max_flow::{Network, Pipe};
use std::alloc::{AllocError, Global};

// The network with the pipes so far, how many they are, and the first pipe of each pair so far.
#[derive(Drop)]
pub(crate) struct Piping {
    pub network: Network,
    pub count: u32,
    pub first: Vec<u32>,
}

// Adds a pipe to the sink.
fn join_sink(network: &mut Network, node: u32, cost: u32)
    requires room { 1 ≤ network.old.spare }
    requires node_in { node < network.old.nodes }
    requires ends { 2 ≤ network.old.nodes }
    requires small { cost ≤ most_of_pair }
    ensures { network.new ≡ with_pipes network.old
        (record { from = node; to = 1; ahead = cost; back = 0 } ∷ []) }
{
    network.add_pipe(Pipe {
        from: node,
        to: SINK,
        ahead: cost,
        back: 0,
    });
}

// The costs of the new and of the old source of a cell with the old one of the next, from that of the
// old and the new one. Where the old sources are next to one another, as most are, the first is that one
// and the second 0.
#[inline(always)]
fn costs_of_old(sample: &Volume, axis: Axis, a: At, b: At, new_a: At, old_new: u32) -> (u32, u32)
    requires a { IsSource a }
    requires b { IsSource b }
    requires new_a { IsSource new_a }
    requires cost { old_new ≡ seam (distance sample.now) axis a (plus new_a (unit_step axis)) }
    requires small { old_new ≤ most_of_pair }
    ensures new { result.0 ≡ seam (distance sample.now) axis new_a b }
    ensures old { result.1 ≡ seam (distance sample.now) axis a b }
    ensures small { (result.0 ≤ most_of_pair) × (result.1 ≤ most_of_pair) }
{
    if a.plus(axis.unit()) == b {
        (old_new, 0)
    } else {
        (
            seam_of(sample, axis, Some(new_a), Some(b)),
            seam_of(sample, axis, Some(a), Some(b)),
        )
    }
}

// Adds the pipes of a pair, and says how many they are. Two filled cells have three: through the seam node
// as much both ways as old meets new, and from there to the sink what old meets old.
#[inline(always)]
fn join(
    network: &mut Network,
    sample: &Volume,
    axis: Axis,
    first: &PairCell,
    second: &PairCell,
    seam: u32,
) -> u32
    requires room { 3 ≤ network.old.spare }
    requires first_in { first.now.node < network.old.nodes }
    requires second_in { second.now.node < network.old.nodes }
    requires seam_in { seam < network.old.nodes }
    requires ends { 2 ≤ network.old.nodes }
    requires first_sources { HasSources first.now }
    requires second_sources { HasSources second.now }
    requires next { second.now.after ≡ plus first.now.after (unit_step axis) }
    ensures network { network.new ≡ with_pipes network.old
        (pair_pipes (distance sample.now) axis first.now.before second.now.before
        first.now.after second.now.after first.now.node second.now.node seam) }
    ensures count { result ≡ length
        (pair_pipes (distance sample.now) axis first.now.before second.now.before
        first.now.after second.now.after first.now.node second.now.node seam) }
{
    match (first.before, second.before) {
        (Some(a), Some(b)) => {
            let ahead = seam_of(sample, axis, Some(a), Some(second.after));
            network.add_pipe(Pipe {
                from: first.node,
                to: seam,
                ahead,
                back: ahead,
            });
            let (back, old) = costs_of_old(sample, axis, a, b, first.after, ahead);
            network.add_pipe(Pipe {
                from: seam,
                to: second.node,
                ahead: back,
                back,
            });
            join_sink(network, seam, old);
            3
        }
        (Some(a), None) => {
            let cost = seam_of(sample, axis, Some(a), Some(second.after));
            join_sink(network, first.node, cost);
            1
        }
        (None, Some(b)) => {
            let cost = seam_of(sample, axis, Some(first.after), Some(b));
            join_sink(network, second.node, cost);
            1
        }
        (None, None) => 0,
    }
}

// Whether two cells are both unfilled, by their nodes.
fn are_unfilled(cells: &[u32], i: usize, j: usize) -> bool
    requires first { i < length cells.now }
    requires second { j < length cells.now }
    ensures { IsTrue result →
        (slice_index cells.now i ≡ 1) × (slice_index cells.now j ≡ 1) }
{
    cells[i] == SINK && cells[j] == SINK
}

// Where so many pipes more begin.
fn first_of(count: u32, added: u32) -> u32
    ensures { (pipes : List Pipe) → added ≡ length pipes → result ≡ first_or_none pipes count }
{
    if added > 0 { count } else { NO_PIPE }
}

impl Piping {
    // No pipe, in a network of so many nodes with room for those of so many pairs.
    fn begin(alloc: Global, nodes: u32, pairs: usize) -> Result<Piping, AllocError>
        requires nodes { 2 ≤ nodes }
        requires pairs { pairs ≤ most_pairs }
        ensures { IfOk result (λ made. (made.network ≡ empty_network nodes 0 1 (3 * pairs))
            × (made.count ≡ 0) × (made.first.items ≡ []) × (vec_capacity made.first ≡ pairs)) }
    {
        let network = Network::make(alloc, nodes, SOURCE, SINK, 3 * pairs)?;
        let first = Vec::with_capacity(alloc, pairs)?;
        Ok(Piping {
            network,
            count: 0,
            first,
        })
    }

    // Adds the pipes of the pair of a cell, at an index, and the next one along an axis, at another.
    #[inline(always)]
    fn add_pair(&mut self, plan: &Plan, axis: Axis, at: Counts, i: usize, j: usize)
        requires plan { IsPlan plan.now }
        requires nodes { HasNodes plan.now self.old.network.nodes }
        requires pair { IsPair plan.now.placement.rect.size axis at.x at.y at.f }
        requires index { raster_index plan.now.placement.rect.size at.x at.y at.f ≡ i }
        requires next { i + stride plan.now.placement.rect.size axis ≡ j }
        requires so_far { IsPipedTo plan.now self.old.network.nodes axis at.x at.y at.f self.old }
        ensures { IsPipedPast plan.now self.old.network.nodes axis at.x at.y at.f self.new }
    {
        let (first, second) = plan.pair(axis, at, i, j);
        let seam = plan.seams[self.first.len()];
        let added = join(&mut self.network, plan.sample, axis, &first, &second, seam);
        self.first.push_reserved(first_of(self.count, added));
        self.count += added;
    }

    // The same where the box has the next cell. Two unfilled cells have no pipes, and their nodes tell.
    #[inline(always)]
    fn add_along(&mut self, plan: &Plan, axis: Axis, at: Counts, i: usize)
        requires plan { IsPlan plan.now }
        requires nodes { HasNodes plan.now self.old.network.nodes }
        requires counts { AreCounts plan.now.placement.rect.size at.x at.y at.f }
        requires index { raster_index plan.now.placement.rect.size at.x at.y at.f ≡ i }
        requires so_far { IsPipedTo plan.now self.old.network.nodes axis at.x at.y at.f self.old }
        ensures { IsPipedPast plan.now self.old.network.nodes axis at.x at.y at.f self.new }
    {
        let size = plan.placement.rect.size;
        if at.has_next(size, axis) {
            let j = i + stride(size, axis);
            if are_unfilled(plan.cells, i, j) {
                self.first.push_reserved(NO_PIPE);
            } else {
                self.add_pair(plan, axis, at, i, j);
            }
        }
    }
}

// The network of a plan, of so many nodes, with the first pipes of its pairs.
pub(crate) fn lay_pipes(alloc: Global, plan: &Plan, nodes: u32) -> Result<Piping, AllocError>
    requires plan { IsPlan plan.now }
    requires nodes { HasNodes plan.now nodes }
    ensures { IfOk result (IsPiped plan.now nodes
        (before plan.now (cell_count plan.now.placement.rect.size))
        (pair_count plan.now.placement.rect.size)) }
{
    let mut piping = Piping::begin(alloc, nodes, plan.seams.len())?;
    let size = plan.placement.rect.size;
    let mut at = Counts::first();
    for i in 0..plan.cells.len() {
        piping.add_along(plan, Axis::X, at, i);
        piping.add_along(plan, Axis::Y, at, i);
        piping.add_along(plan, Axis::F, at, i);
        at = at.next(size);
    }
    Ok(piping)
}
