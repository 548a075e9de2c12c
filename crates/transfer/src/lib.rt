//! Texture transfer: a target picture painted with blocks of a sample (Efros and Freeman, SIGGRAPH 2001).
//!
//! `next_transfer` lays the next block of a transfer, which is picked by how far it is from the target and by the
//! overlap error (specs/Targets.antt of the crate targets). `transfer_canvas` lays all of them: the quilted run by
//! this rating. `TargetSearch` has what picks go by, made once for all of them.
//!
//! `plan` has what is asked for, `search` what is made once, `weighing` the errors of a box of which two sums are
//! weighed, `weighed` the pick by them, `steps` a step and the whole run.
#![tactic(auto)]

mod plan;
mod search;
mod steps;
mod weighed;
mod weighing;

pub use plan::TransferPlan;
pub use search::TargetSearch;
pub use steps::{next_transfer, next_transfer_with, transfer_canvas};
