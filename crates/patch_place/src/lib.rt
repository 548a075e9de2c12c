//! The search for the next patch: picks of placements, and steps of growing.
//!
//! `next_placement` is one step of growing. Its contract says, answer by answer, which placement comes next
//! and how many draws are taken, by the definition of the crate patch_picks (its specs/Steps.antt). It takes
//! that placement by `pick`, which compares the candidates by their overlap errors (crate match_error) and
//! gives the one that the next draw names among those that are about as good as the best (specs/Picks.antt
//! of patch_picks).
//!
//! `steps` has the step, `picks` the picks, `errors` the shortlist that one is made from, `walk` the walk
//! over the places of a box that fills it, where a sum that can't be eligible is left unfinished, `spots`
//! the places of that walk, `box_list` the placements of the box by index, `box_errors` what the walk is
//! given, `overlaps` the overlap errors of a box, `hints` the likely candidates with whose least error the
//! walk begins, `skips` those that it leaves out, since they can't be eligible, as sums of blocks (crate
//! search_squares) show of overlap errors, `reach` the sums by which the filled cells of laid candidates are
//! counted and the runs over which they are compared, `offsets` their errors at all offsets at once (crate
//! offset_errors), where these cost less, `shortlist` the shortlist, and `eligible` which of its
//! entries are about as good as the best. README.md says the definitions and the promises in words.
//!
//! `pick_with` and `next_placement_with` are the same calls for a sample whose sums of blocks are made
//! once for many picks. `pick` and `next_placement` make their own, where the candidates are those of one
//! box. `pick_by` picks among the places of a box by other errors, which an implementor of `BoxErrors`
//! sums up.
#![tactic(auto)]

mod box_errors;
mod box_list;
mod eligible;
mod errors;
mod hints;
mod offsets;
mod overlaps;
mod picks;
mod reach;
mod shortlist;
mod skips;
mod spots;
mod steps;
mod walk;

pub use box_errors::BoxErrors;
pub use overlaps::Overlaps;
pub use picks::{pick, pick_by, pick_with};
pub use steps::{next_placement, next_placement_with};
