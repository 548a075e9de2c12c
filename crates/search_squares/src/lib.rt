//! Search by elimination: bounds that rule out most places that a box could be laid from, before their
//! overlap errors are summed.
//!
//! A block is a square of side x side cells of one frame. `BlockSums` has the sum of the bytes of each block
//! of a box of the sample, made once for many picks. `BoxBlocks` has disjoint blocks of the filled cells of
//! one box of the output, with their sums, gathered once a pick. The squared difference of two blocks' sums
//! is at most the squared differences of their bytes, as many times as they have bytes (Li and Salari
//! 1995). So the blocks bound the overlap error of the box laid from any place, and `BoxBlocks::above`
//! says of a run of places which are above a limit: of a place that it marks that is proved, and of another
//! nothing is said.
//!
//! A search over a whole sample goes by `SampleSums`, made once, and `BoxLevels`, gathered once a pick, each
//! of four sizes of blocks, the last of which is a single cell. `BoxLevels::eliminate` gives an `Eliminated`,
//! a run of places of a part of the sample, which says of each place whether it is ruled out for a limit.
//! `Eliminated::times` and `Eliminated::or` make such runs of sums of which overlap errors are a part.
//! `Pauses` keeps for a walk over many runs which sizes are of little use to it. `BoxLevels::likely` gives places
//! to begin with, whose errors may be a first limit.
//!
//! `blocks` has the blocks of a box, `singles` those of one cell, `order` which of them come first, `sums` the
//! sums of the sample's blocks, `lanes` the sums over a run of places or of entries at once, `bound` what they
//! rule out, `places` how far a run goes, `likely` which places may be close, `levels` all sizes together,
//! `pauses` when one of them is left out, `eliminated` what a search is given. specs/Blocks.antt defines blocks
//! and what they bound, specs/Eliminations.antt what a search may leave out.
#![tactic(auto)]

mod blocks;
mod bound;
mod eliminated;
mod joint;
mod lanes;
mod levels;
mod likely;
mod order;
mod pauses;
mod places;
mod rows;
mod singles;
mod sums;

pub use eliminated::Eliminated;
pub use joint::{MOST_TIMES, Term, eliminate_both};
pub use levels::{BoxLevels, SampleSums};
pub use pauses::Pauses;
pub use sums::LANES;
