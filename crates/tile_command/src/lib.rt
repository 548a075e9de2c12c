//! The command `tile`: an output whose edges meet, with its map and its report.
//!
//! `tile` promises what a run of the command leaves, by its answer (specs/Tilings.antt of outputs has the
//! command as a value, and specs/TileHeadlines.antt there what holds when it ends well).
//!
//! `plan` has what is read and computed, `whole` the whole.
#![tactic(auto)]

mod plan;
mod whole;

pub use whole::tile;
