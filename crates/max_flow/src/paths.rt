// Paths from the source to the sink in a level graph, by a search in depth that passes over each arc at
// most once.

ghost use Rattle.std.specs.Prelude.{◌≡◌, ◌<◌, ◌≤◌, ◌-◌, ℕ, IfSome, IsSome, length};
ghost use Rattle.max_flow.specs.Residual.{arc_count, tail, AreResiduals};
ghost use Rattle.max_flow.specs.Levels.{AreLevelNumbers, AreLevels, IsAdmissible, level_of};
ghost use Rattle.max_flow.specs.Paths.{AreCurrent, IsPath, LeadsFrom, PassedAreDead};

use crate::graph::Graph;

// One more than the first arc of the node's chain, from `cursor` on, that is in the level graph, or 0.
fn next_admissible(graph: &Graph, backward: &[u32], levels: &[u32], node: usize, cursor: u32) -> u32
    requires residuals { AreResiduals graph.now.pipes.now backward.now }
    requires levels { AreLevelNumbers graph.now.nodes graph.now.source levels.now }
    requires node { node < graph.now.nodes }
    requires low { cursor ≤ arc_count graph.now.pipes.now }
    requires here { 0 < cursor → tail graph.now.pipes.now (cursor - 1) ≡ node }
    ensures low { result ≤ cursor }
    ensures here { 0 < result → tail graph.now.pipes.now (result - 1) ≡ node }
    ensures admissible { 0 < result
        → IsAdmissible graph.now.pipes.now backward.now levels.now (result - 1) }
    ensures passed { (arc : ℕ) → result ≤ arc → arc < cursor
        → tail graph.now.pipes.now arc ≡ node
        → ¬ IsAdmissible graph.now.pipes.now backward.now levels.now arc }
{
    let level = u64::from(levels[node]) + 1;
    let mut cursor = cursor;
    'arcs: while cursor > 0 {
        let arc = cursor as usize - 1;
        if u64::from(levels[graph.beyond(arc, node)]) == level
            && graph.residual(backward, arc) > 0
        {
            return cursor;
        }
        cursor = graph.previous[arc];
    }
    0
}

/// Looks for a path from the source to the sink in the level graph, over arcs that aren't passed over.
/// Writes its arcs to the front of `path` and returns how many they are, or None where there is no such
/// path.
pub fn find_path(
    graph: &Graph,
    backward: &[u32],
    levels: &[u32],
    current: &mut [u32],
    path: &mut [u32],
) -> Option<usize>
    requires residuals { AreResiduals graph.now.pipes.now backward.now }
    requires levels { AreLevelNumbers graph.now.nodes graph.now.source levels.now }
    requires current { AreCurrent graph.now.pipes.now graph.now.nodes current.old }
    requires path { length path.old ≡ graph.now.nodes }
    ensures current { AreCurrent graph.now.pipes.now graph.now.nodes current.new }
    ensures within { IfSome result (λ depth. depth ≤ graph.now.nodes) }
    ensures path { IfSome result (IsPath graph.now.pipes.now graph.now.source backward.now
        levels.now path.new) }
    ensures sink { IfSome result (λ depth. LeadsFrom graph.now.pipes.now graph.now.source path.new
        depth graph.now.sink) }
    ensures found { AreLevels graph.now.pipes.now graph.now.nodes graph.now.source backward.now
        levels.now
        → 0 < level_of levels.now graph.now.sink
        → PassedAreDead graph.now.pipes.now graph.now.sink backward.now levels.now current.old
        → IsSome result }
{
    let mut depth = 0;
    let mut node = graph.source;
    'steps: while node != graph.sink {
        let cursor = next_admissible(graph, backward, levels, node, current[node]);
        current[node] = cursor;
        if cursor > 0 {
            path[depth] = cursor - 1;
            depth += 1;
            node = graph.head(cursor as usize - 1);
        } else if depth > 0 {
            depth -= 1;
            let arc = path[depth] as usize;
            node = graph.tail(arc);
            current[node] = graph.previous[arc];
        } else {
            return None;
        }
    }
    Some(depth)
}
