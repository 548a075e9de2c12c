//! Quilting: blocks along least boundaries, one after another, until an output is full, after Efros and
//! Freeman (SIGGRAPH 2001).
//!
//! `next_block` lays the next block of a plan over a canvas. It picks a place of the sample among those that
//! fit what is there about as well as the best. It finds the least boundary through each strip in which the
//! block overlaps what is there, and puts in the cells that every boundary calls new. `next_block_with` is the
//! same step of a sample whose sums of blocks are made, and `next_block_by` the same with other ratings of
//! places than the overlap error. The contract says the step in full (specs/Runs.antt of the crate quilted), and
//! that its record stands.
//!
//! `quilt_canvas` promises the whole quilted run that it is asked for (specs/Quilted.antt of the crate quilted):
//! steps of `next_block_with` from the empty canvas to a full one, with a record of each block, how many boundaries
//! they have, and what these cost in all. `quilt_by` does so by other ratings of places. Both answer the limit at
//! the first box that takes the cells of all boxes past `MOST_BOX_CELLS`, counted before a place is picked.
//!
//! `picks` has how places are rated and picked, `lay` the boundaries of a block, and `step` the step; `work` is a
//! run so far, and `run` the whole. Where blocks lie, and the errors of their strips, are those of the crate
//! block_strips, least boundaries those of strip_boundary; the record of a block, its check and its new cells are
//! those of block_check. What a step and a run are, and what holds of whole quilts, is said in quilted.
#![tactic(auto)]

mod lay;
mod picks;
mod run;
mod step;
mod work;

pub use lay::lay_block;
pub use picks::BlockPicks;
pub use run::{quilt_by, quilt_canvas};
pub use step::{next_block, next_block_by, next_block_with};
