//! Maximum flow: for a network of pipes between a source and a sink, a flow of greatest value, and of
//! all least cuts the one with the smallest source side.
//!
//! Make a [`Network`] with room for its pipes, add them one by one, and [`solve`] it. The contract of
//! `solve` promises the theorem of Ford and Fulkerson in whole: a flow and a cut of equal size, so that no
//! flow has a greater value and no cut a smaller capacity. It also promises that the source side is
//! contained in that of every least cut, so that there is one answer. Which of the greatest flows is found
//! is left open.
//!
//! Read on in `specs/Flows.antt`, which says what a flow and a cut are, and in `solver.rt`. Dinic's method
//! finds a level graph (`levels.rt`, `queue.rt`) and a blocking flow in it (`paths.rt`, `blocking.rt`), over the
//! residual network (`graph.rt`), until the sink has no level. Where a few level graphs aren't enough, search trees
//! (`trees.rt`) over packed arcs (`packed.rt`) go on, of whose flow nothing is promised. In a network of many
//! seams they come first, and go over a shorter one (`triangles.rt`); where they give up there, an excess goes on
//! (`preflow.rt`). A check in one pass (`checking.rt`) takes their flow or begins with none (`beginning.rt`), and
//! level graphs finish.
#![tactic(auto)]

mod beginning;
mod blocking;
mod checking;
mod graph;
mod levels;
mod network;
mod packed;
mod paths;
mod preflow;
mod queue;
mod solver;
mod trees;
mod triangles;

pub use items::Items;
pub use network::{Network, Pipe};
pub use solver::{Solved, solve};
