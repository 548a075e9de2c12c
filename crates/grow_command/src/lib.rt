//! The commands that grow: `grow`, a texture from samples, with its map, its records, and its report; and `trial`,
//! an output from a sample that is made of a number, its records checked, and its report.
//!
//! `grow` and `trial` promise what a run of each command leaves, by its answer. specs/Growths.antt of outputs has
//! `grow` as a value, and specs/GrowHeadlines.antt there what holds when it ends well. specs/Trials.antt has `trial`,
//! which reads and writes no file, and what its report says is its headline (specs/TrialHeadlines.antt), which
//! proofs/Trying.antt proves.
//!
//! `plan` has what `grow` reads and computes, `whole` the whole; so have `trial_plan` and `trial_whole` for the other.
#![tactic(auto)]

mod plan;
mod trial_plan;
mod trial_whole;
mod whole;

pub use trial_whole::trial;
pub use whole::grow;
