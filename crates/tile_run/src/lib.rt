//! Tiling: patches by graph cuts, one after another, until an output whose edges meet is full.
//!
//! `tile_canvas` promises the whole run, as the crate torus defines it (its specs/Tilings.antt): a list of steps
//! from the empty map to the first full one, and their number. A run ends, since each step fills the first
//! unfilled cell; there is no bound on the cells of boxes, since no record is kept. `next_tile` makes one step
//! (specs/Steps.antt of torus): it picks and cuts on a small canvas of the patch's box and of the cells around
//! it.
//!
//! `steps` has the step, and `tiling` the run.
#![tactic(auto)]

mod steps;
mod tiling;

pub use steps::{next_tile, next_tile_with};
pub use tiling::tile_canvas;
