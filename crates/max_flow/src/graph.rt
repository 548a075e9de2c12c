// The residual network: its arcs, what they can still carry, and the chain of the arcs of each node.

ghost use Rattle.std.specs.Prelude.{◌≡◌, ◌≢◌, ◌<◌, ◌^◌, ℕ, All, length, slice_index};
ghost use Rattle.max_flow.specs.Networks.{IsPipeOf};
ghost use Rattle.max_flow.specs.Residual.{arc_count, tail, head, residual, AreResiduals, AreChains};

use crate::network::Pipe;

/// A network with the chains of its arcs. Arc `2 * j` goes along pipe `j`, and arc `2 * j + 1` against it.
/// The arcs that leave a node are `last[node] - 1`, then `previous[arc] - 1` after each arc, up to a 0.
#[derive(Drop)]
pub struct Graph<'a> {
    pub pipes: &'a [Pipe],
    pub nodes: u32,
    pub source: usize,
    pub sink: usize,
    pub last: &'a [u32],
    pub previous: &'a [u32],
    ghost pipes_sound: { All (IsPipeOf nodes) pipes.now },
    ghost pipes_limit: { length pipes.now < 2 ^ 31 },
    ghost source_in: { source < nodes },
    ghost sink_in: { sink < nodes },
    ghost ends_differ: { source ≢ sink },
    ghost chained: { AreChains pipes.now nodes last.now previous.now },
}

impl Graph<'_> {
    /// The node that an arc leaves.
    #[inline(always)]
    #[tactic(auto, using(crate::proofs::Arcs::tail_below))]
    pub fn tail(&self, arc: usize) -> usize
        requires { arc < arc_count self.now.pipes.now }
        ensures value { result ≡ tail self.now.pipes.now arc }
        ensures within { result < self.now.nodes }
        ensures small { result < 2 ^ 32 }
    {
        tail(self.pipes, arc)
    }

    /// The node that an arc enters.
    #[inline(always)]
    #[tactic(auto, using(crate::proofs::Arcs::head_below), unfolding(crate::specs::Residual::head))]
    pub fn head(&self, arc: usize) -> usize
        requires { arc < arc_count self.now.pipes.now }
        ensures value { result ≡ head self.now.pipes.now arc }
        ensures within { result < self.now.nodes }
        ensures small { result < 2 ^ 32 }
    {
        let pipe = &self.pipes[arc / 2];
        if arc % 2 == 0 {
            pipe.to as usize
        } else {
            pipe.from as usize
        }
    }

    /// The node that an arc enters, where it leaves `node`: the sum of both ends of its pipe, less that
    /// node. This takes fewer steps than `head`, since it's the same whichever way the arc goes.
    #[inline(always)]
    #[tactic(auto, using(crate::proofs::Arcs::head_below), unfolding(crate::specs::Residual::head, crate::specs::Residual::tail))]
    pub fn beyond(&self, arc: usize, node: usize) -> usize
        requires arc { arc < arc_count self.now.pipes.now }
        requires leaves { tail self.now.pipes.now arc ≡ node }
        ensures value { result ≡ head self.now.pipes.now arc }
        ensures within { result < self.now.nodes }
        ensures small { result < 2 ^ 32 }
    {
        let pipe = &self.pipes[arc / 2];
        pipe.from.wrapping_add(pipe.to).wrapping_sub(node as u32) as usize
    }

    /// What an arc can still carry, where `backward` has it for the arc against each pipe.
    #[inline(always)]
    #[tactic(auto, unfolding(crate::specs::Residual::residual))]
    pub fn residual(&self, backward: &[u32], arc: usize) -> u32
        requires arc { arc < arc_count self.now.pipes.now }
        requires residuals { AreResiduals self.now.pipes.now backward.now }
        ensures { result ≡ residual self.now.pipes.now backward.now arc }
    {
        let against = backward[arc / 2];
        if arc % 2 == 1 {
            return against;
        }
        let pipe = &self.pipes[arc / 2];
        pipe.ahead + pipe.back - against
    }
}

// The node that an arc leaves.
#[inline(always)]
#[tactic(auto, unfolding(crate::specs::Residual::tail))]
fn tail(pipes: &[Pipe], arc: usize) -> usize
    requires { arc < arc_count pipes.now }
    ensures value { result ≡ tail pipes.now arc }
    ensures small { result < 2 ^ 32 }
{
    let pipe = &pipes[arc / 2];
    if arc % 2 == 0 {
        pipe.from as usize
    } else {
        pipe.to as usize
    }
}

/// Links the arcs of each node into a chain, the last arc first.
pub fn link(pipes: &[Pipe], last: &mut [u32], previous: &mut [u32])
    requires pipes { All (IsPipeOf (length last.old)) pipes.now }
    requires limit { length pipes.now < 2 ^ 31 }
    requires empty { (n : ℕ) → slice_index last.old n ≡ 0 }
    requires sized { length previous.old ≡ arc_count pipes.now }
    ensures { AreChains pipes.now (length last.old) last.new previous.new }
{
    for arc in 0..previous.len() {
        let node = tail(pipes, arc);
        previous[arc] = last[node];
        last[node] = arc as u32 + 1;
    }
}
