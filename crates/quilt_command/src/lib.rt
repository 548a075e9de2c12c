//! The commands that quilt one picture from the blocks of another, with its map, its records, and its report: `quilt`,
//! and `transfer`, which paints a target so.
//!
//! `quilt_picture` and `transfer_picture` promise what a run of each command leaves, by its answer (specs/Quilts.antt
//! and specs/Transfers.antt have them as values over the crate command: what each reads, refuses, makes and writes).
//! What holds when one ends well is its headline (specs/QuiltHeadlines.antt, specs/TransferHeadlines.antt), which
//! proofs/QuiltLaws.antt and proofs/TransferLaws.antt prove of all that it writes. What the two share is the crate
//! outputs.
//!
//! `plan` has what `quilt` reads and computes, `whole` the writing and the whole; so have `transfer_plan` and
//! `transfer_whole` for the other.
#![tactic(auto)]

mod plan;
mod transfer_plan;
mod transfer_whole;
mod whole;

pub use transfer_whole::transfer_picture;
pub use whole::quilt_picture;
