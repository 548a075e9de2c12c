// The network that a solver is given: nodes, two ends, and pipes between nodes.

ghost use Rattle.std.specs.Prelude.{◌≡◌, ◌≢◌, ◌<◌, ◌≤◌, ◌^◌, All, IfOk, length};

use std::alloc::{AllocError, Global};
use std::marker::Model;

/// A pipe between two nodes. Its flow is counted from `from` to `to`, so flow the other way is negative.
#[derive(Clone, Copy)]
pub struct Pipe {
    /// The node at which the pipe begins.
    pub from: u32,
    /// The node at which the pipe ends, which may be `from` itself.
    pub to: u32,
    /// The greatest flow from `from` to `to`, at most 65,536.
    pub ahead: u32,
    /// The greatest flow from `to` to `from`, at most 65,536.
    pub back: u32,
}

/// A flow network: nodes numbered from 0, a source, a sink, and a list of pipes with room for more.
#[derive(Drop)]
pub struct Network {
    nodes: u32,
    source: u32,
    sink: u32,
    pipes: Vec<Pipe>,
}

impl Model for Network {
    ghost use Rattle.max_flow.specs.Networks.{FlowNetwork};

    ghost Value = { FlowNetwork };

    ghost use Rattle.max_flow.specs.NetworkFields.{network_of, IsSoundNetwork};

    ghost view = { network_of };

    ghost invariant = { IsSoundNetwork };
}

impl Network {
    ghost use Rattle.max_flow.specs.Networks.{IsPipeOf, empty_network, with_pipe};

    /// Makes a network without pipes, with room for `pipes` of them. Its nodes are those below `nodes`.
    pub fn make(
        alloc: Global,
        nodes: u32,
        source: u32,
        sink: u32,
        pipes: usize,
    ) -> Result<Network, AllocError>
        requires source_in { source < nodes }
        requires sink_in { sink < nodes }
        requires ends_differ { source ≢ sink }
        requires pipes_limit { pipes ≤ 2 ^ 32 }
        ensures { IfOk result (λ network. network ≡ empty_network nodes source sink pipes) }
    {
        let pipes = Vec::with_capacity(alloc, pipes)?;
        Ok(Network {
            nodes,
            source,
            sink,
            pipes,
        })
    }

    /// Adds a pipe after the others, in the room that is left. Several pipes may join the same nodes.
    pub fn add_pipe(&mut self, pipe: Pipe)
        requires room { 0 < self.old.spare }
        requires pipe { IsPipeOf self.old.nodes pipe }
        ensures { self.new ≡ with_pipe self.old pipe }
    {
        self.pipes.push_reserved(pipe);
    }

    pub(crate) fn nodes(&self) -> u32
        ensures { result ≡ self.now.nodes }
    {
        self.nodes
    }

    pub(crate) fn source(&self) -> u32
        ensures value { result ≡ self.now.source }
        ensures within { result < self.now.nodes }
        ensures differs { result ≢ self.now.sink }
    {
        self.source
    }

    pub(crate) fn sink(&self) -> u32
        ensures value { result ≡ self.now.sink }
        ensures within { result < self.now.nodes }
    {
        self.sink
    }

    pub(crate) fn pipes(&self) -> &[Pipe]
        ensures value { result.now ≡ self.now.pipes }
        ensures sound { All (IsPipeOf self.now.nodes) result.now }
        ensures limit { length result.now ≤ 2 ^ 32 }
    {
        self.pipes.as_slice()
    }
}
