//! The network of a placement: its cuts are the choices between old and new, and the least capacity of a
//! choice is its cost.
//!
//! specs/Nodes.antt says which nodes the network has: the source, which stands for old, the sink, which
//! stands for new, a node for each cell of the box that may be either, and a seam node for each pair of
//! cells that are both filled. specs/Pipes.antt has its pipes, pair by pair, specs/Cuts.antt what its cuts
//! are. `build` and `build_held` promise exactly this network, and `Places` tells which node and which pipe
//! stand for what.
//!
//! The network is built in three passes over the cells of the box in raster order by the walk of the crate `boxes`: the nodes of
//! the cells (`cell_nodes`), the seam nodes of the pairs (`seam_nodes`), both given out by a `Numbering`,
//! and the pipes between them (`plan`, `piping`). For the pipes the map is read only
//! at pairs with a filled cell: the nodes of two unfilled ones tell that they have none. specs/Numberings.antt, specs/Building.antt and
//! specs/Plans.antt say how far each pass has come; nothing outside this crate has to read them.
#![tactic(auto)]

mod cell_nodes;
mod network;
mod numbering;
mod piping;
mod places;
mod plan;
mod seam_nodes;

pub use network::{build, build_held};
pub use places::Places;
