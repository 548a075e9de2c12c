//! The command `merge`: pictures of one size joined along least seams that keep the marked cells, with the map of
//! where each cell comes from, and a report.
//!
//! `merge_pictures` promises what a run of the command leaves, by its answer (specs/MergeCommand.antt has the command
//! as a value over the crate command: what it reads, refuses, makes and writes). What holds when it ends well is the
//! headline of the command (specs/MergeHeadlines.antt), which proofs/MergeRuns.antt proves of all that it writes.
//!
//! `pictures` reads several pictures of one size (specs/Pictures.antt), `plan` has what is read and computed, `whole`
//! the writing and the whole.
#![tactic(auto)]

mod pictures;
mod plan;
mod whole;

pub use pictures::{Pictures, read_pictures};
pub use plan::Merged;
pub use whole::merge_pictures;
