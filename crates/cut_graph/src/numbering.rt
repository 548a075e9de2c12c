// Numbers of nodes, given out one after another.
ghost use Rattle.std.specs.Prelude.{◌≡◌, ◌<◌, ◌+◌, [], IfOk, vec_capacity, vec_len};
ghost use Rattle.cut_graph.specs.Building.{Adds};

use std::alloc::{AllocError, Global};

// The node of each of the cells or pairs so far.
#[derive(Drop)]
pub(crate) struct Numbering {
    pub nodes: Vec<u32>,
    // the next number that is free
    pub next: u32,
}

impl Numbering {
    // A numbering from one number on, with room for so many cells or pairs.
    pub(crate) fn begin(alloc: Global, next: u32, room: usize) -> Result<Numbering, AllocError>
        ensures items { IfOk result (λ made. made.nodes.items ≡ []) }
        ensures next { IfOk result (λ made. made.next ≡ next) }
        ensures room { IfOk result (λ made. vec_capacity made.nodes ≡ room) }
    {
        let nodes = Vec::with_capacity(alloc, room)?;
        Ok(Numbering { nodes, next })
    }

    // Gives a node that others have too.
    pub(crate) fn give(&mut self, node: u32)
        requires room { vec_len self.old.nodes < vec_capacity self.old.nodes }
        ensures { Adds node self.old.next self.old self.new }
    {
        self.nodes.push_reserved(node);
    }

    // Gives a node of its own.
    pub(crate) fn give_own(&mut self)
        requires room { vec_len self.old.nodes < vec_capacity self.old.nodes }
        requires few { self.old.next < u32.MAX }
        ensures { Adds self.old.next (self.old.next + 1) self.old self.new }
    {
        self.nodes.push_reserved(self.next);
        self.next += 1;
    }
}
