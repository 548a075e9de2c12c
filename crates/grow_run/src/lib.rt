//! Growing: placements by graph cuts, one after another, until an output is full, and then rounds of
//! refinement.
//!
//! `grow_canvas` promises the whole run of its plan (specs/Grown.antt of grown), with a record of each step, or the
//! limit at the first box that takes the cells of all boxes past `MOST_BOX_CELLS`; where sizes alone say the boxes,
//! before a place is picked.
//!
//! `steps` has one step and one round, `grow` the run.
#![tactic(auto)]

mod grow;
mod steps;

pub use grow::grow_canvas;
