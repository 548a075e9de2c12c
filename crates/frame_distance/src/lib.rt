//! How far apart the frames of a clip are, and what a step from one frame to another costs: what a
//! loop of a clip is made of (Schödl et al. 2000, "Video textures").
//!
//! The contracts promise the whole tables, entry by entry: `distances` the sums of squared
//! differences of each two frames, `filtered` the step costs that a filter and a gap make of them,
//! with None exactly where there is no step. specs/Frames.antt defines the distance,
//! specs/Steps.antt the filter and the step. `Table` and `StepCosts` have from 1 to 256 frames,
//! numbers below 2^43 and steps below 2^46, as every caller may rely on.
#![tactic(auto)]

mod steps;
mod table;

pub use steps::{StepCosts, filtered};
pub use table::{Table, distances};
