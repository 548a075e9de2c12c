// Blocking flows: flow along paths of the level graph, until no path is left.

ghost use Rattle.std.specs.Prelude.{◌≡◌, ◌≢◌, ◌<◌, ◌≤◌, ◌/◌, ℕ, length, slice_index};
ghost use Rattle.max_flow.specs.Residual.{arc_count, tail, head, residual, AreResiduals, Carries, Moves};
ghost use Rattle.max_flow.specs.Levels.{AreLevels, level_of};
ghost use Rattle.max_flow.specs.Paths.{IsPath, LeadsFrom};

use crate::graph::Graph;
use crate::paths::find_path;

// The most that all arcs of the path can still carry.
fn bottleneck(graph: &Graph, backward: &[u32], path: &[u32]) -> u32
    requires residuals { AreResiduals graph.now.pipes.now backward.now }
    requires arcs { (k : ℕ) → k < length path.now
        → slice_index path.now k < arc_count graph.now.pipes.now }
    requires open_arcs { (k : ℕ) → k < length path.now
        → 0 < residual graph.now.pipes.now backward.now (slice_index path.now k) }
    ensures some { 0 < result }
    ensures least { (k : ℕ) → k < length path.now
        → result ≤ residual graph.now.pipes.now backward.now (slice_index path.now k) }
{
    let mut least = u32::MAX;
    for arc in path {
        least = least.min(graph.residual(backward, *arc as usize));
    }
    least
}

// Sends more flow over an arc.
fn push(graph: &Graph, backward: &mut [u32], arc: usize, amount: u32)
    requires residuals { AreResiduals graph.now.pipes.now backward.old }
    requires arc { arc < arc_count graph.now.pipes.now }
    requires amount { amount ≤ residual graph.now.pipes.now backward.old arc }
    ensures residuals { AreResiduals graph.now.pipes.now backward.new }
    ensures others { (other : ℕ) → other / 2 ≢ arc / 2
        → residual graph.now.pipes.now backward.new other ≡
        residual graph.now.pipes.now backward.old other }
    ensures moved { Moves graph.now.pipes.now
        (tail graph.now.pipes.now arc) (head graph.now.pipes.now arc) amount
        backward.old backward.new }
{
    if arc % 2 == 0 {
        backward[arc / 2] += amount;
    } else {
        backward[arc / 2] -= amount;
    }
}

// Sends as much flow along the path as it can carry. Returns how much.
fn augment(graph: &Graph, backward: &mut [u32], levels: &[u32], path: &[u32]) -> u32
    requires residuals { AreResiduals graph.now.pipes.now backward.old }
    requires path { IsPath graph.now.pipes.now graph.now.source backward.old levels.now path.now
        (length path.now) }
    requires sink { LeadsFrom graph.now.pipes.now graph.now.source path.now (length path.now)
        graph.now.sink }
    ensures some { 0 < result }
    ensures residuals { AreResiduals graph.now.pipes.now backward.new }
    ensures moved { Moves graph.now.pipes.now graph.now.source graph.now.sink result backward.old
        backward.new }
{
    let amount = bottleneck(graph, backward, path);
    for arc in path {
        push(graph, backward, *arc as usize, amount);
    }
    amount
}

/// Adds flow along paths of the level graph until it has none. Returns the value of the flow, which was
/// `value` before.
pub fn blocking_flow(
    graph: &Graph,
    backward: &mut [u32],
    levels: &[u32],
    current: &mut [u32],
    path: &mut [u32],
    value: u64,
) -> u64
    requires carries { Carries graph.now.pipes.now graph.now.source graph.now.sink backward.old
        value }
    requires levels { AreLevels graph.now.pipes.now graph.now.nodes graph.now.source backward.old
        levels.now }
    requires sink { 0 < level_of levels.now graph.now.sink }
    requires current { length current.old ≡ graph.now.nodes }
    requires path { length path.old ≡ graph.now.nodes }
    ensures carries { Carries graph.now.pipes.now graph.now.source graph.now.sink backward.new
        result }
    ensures rises { value < result }
{
    current.copy_from_slice(graph.last);
    let mut value = value;
    'paths: while let Some(depth) = find_path(graph, backward, levels, current, path) {
        value += u64::from(augment(graph, backward, levels, &path[..depth]));
    }
    value
}
