// The levels of a residual network, by a search by breadth from the source.

ghost use Rattle.std.specs.Prelude.{◌≡◌, ◌<◌, ◌+◌, ◌∷◌, ◌↔◌, ℕ, IfOk, OnOk, IsTrue, length};
ghost use Rattle.std.specs.Bool.{OnFalse};
ghost use Rattle.max_flow.specs.Residual.{arc_count, tail, head, residual, AreResiduals};
ghost use Rattle.max_flow.specs.Levels.{AreLevels, IsClosed, IsSearch, level_of, levelled};

use crate::graph::Graph;
use crate::queue::Queue;
use std::alloc::{AllocError, Global};

// Gives the node that an arc enters a level, and a place among those that wait, where the arc can carry more and
// the node has no level yet.
fn try_arc(
    graph: &Graph,
    backward: &[u32],
    levels: &mut [u32],
    waiting: &mut Queue,
    node: usize,
    arc: usize,
) -> Result<(), AllocError>
    requires residuals { AreResiduals graph.now.pipes.now backward.now }
    requires search { IsSearch graph.now.pipes.now graph.now.nodes graph.now.source backward.now
        levels.old (node ∷ waiting.old) }
    requires arc { arc < arc_count graph.now.pipes.now }
    requires leaves { tail graph.now.pipes.now arc ≡ node }
    ensures search { OnOk result (IsSearch graph.now.pipes.now graph.now.nodes graph.now.source
        backward.now levels.new (node ∷ waiting.new)) }
    ensures waits { OnOk result (levelled levels.new + length waiting.old
        ≡ levelled levels.old + length waiting.new) }
    ensures kept { OnOk result ((n : ℕ) → 0 < level_of levels.old n → 0 < level_of levels.new n) }
    ensures tried { OnOk result (0 < residual graph.now.pipes.now backward.now arc
        → 0 < level_of levels.new (head graph.now.pipes.now arc)) }
{
    let next = graph.beyond(arc, node);
    if levels[next] > 0 || graph.residual(backward, arc) == 0 {
        return Ok(());
    }
    levels[next] = levels[node] + 1;
    waiting.push(next as u32)?;
    Ok(())
}

// Tries all arcs of a node that waits no more.
fn visit(
    graph: &Graph,
    backward: &[u32],
    levels: &mut [u32],
    waiting: &mut Queue,
    node: usize,
) -> Result<(), AllocError>
    requires residuals { AreResiduals graph.now.pipes.now backward.now }
    requires search { IsSearch graph.now.pipes.now graph.now.nodes graph.now.source backward.now
        levels.old (node ∷ waiting.old) }
    ensures search { OnOk result (IsSearch graph.now.pipes.now graph.now.nodes graph.now.source
        backward.now levels.new waiting.new) }
    ensures waits { OnOk result (levelled levels.new + length waiting.old
        ≡ levelled levels.old + length waiting.new) }
{
    let mut cursor = graph.last[node] as usize;
    'arcs: while cursor > 0 {
        try_arc(graph, backward, levels, waiting, node, cursor - 1)?;
        cursor = graph.previous[cursor - 1] as usize;
    }
    Ok(())
}

/// Gives each node that residual arcs reach from the source its level, until the sink has one.
/// Returns whether it has. If not, no residual arc leads out of the nodes with a level. The one error is out of
/// memory, which those that wait for their turn take.
pub fn find_levels(
    alloc: Global,
    graph: &Graph,
    backward: &[u32],
    levels: &mut [u32],
) -> Result<bool, AllocError>
    requires residuals { AreResiduals graph.now.pipes.now backward.now }
    requires levels { length levels.old ≡ graph.now.nodes }
    ensures levels { OnOk result (AreLevels graph.now.pipes.now graph.now.nodes graph.now.source
        backward.now levels.new) }
    ensures reached { IfOk result (λ found.
        IsTrue found ↔ (0 < level_of levels.new graph.now.sink)) }
    ensures closed { IfOk result (λ found.
        OnFalse found (IsClosed graph.now.pipes.now backward.now levels.new)) }
{
    levels.fill(0);
    levels[graph.source] = 1;
    let mut waiting = Queue::make(alloc);
    waiting.push(graph.source as u32)?;
    'nodes: while levels[graph.sink] == 0 {
        let Some(node) = waiting.pop() else {
            return Ok(false);
        };
        visit(graph, backward, levels, &mut waiting, node as usize)?;
    }
    Ok(true)
}
