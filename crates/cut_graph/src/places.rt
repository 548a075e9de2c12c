// Which node and which pipe of a network stand for what.
use items::Items;

// The node that stands for old.
pub(crate) const SOURCE: u32 = 0;

// The node that stands for new.
pub(crate) const SINK: u32 = 1;

// What stands for no seam node.
pub(crate) const NO_SEAM: u32 = 0;

// What stands for no pipe.
pub(crate) const NO_PIPE: u32 = 0;

/// For each cell and each pair of a placement's box, its nodes and pipes in the network.
#[derive(Drop)]
pub struct Places {
    /// The node of each cell, in raster order: 0, the source, for one that has to stay old, 1, the sink,
    /// for an unfilled one, and a node of its own for any other.
    pub cell_nodes: Items<u32>,
    /// The seam node of each pair, in the order of the pairs; 0 where it has none, as one of its cells is
    /// unfilled.
    pub seam_nodes: Items<u32>,
    /// The index of the first pipe of each pair, in the order of the pairs; 0 where it has none.
    pub pipes: Items<u32>,
}
