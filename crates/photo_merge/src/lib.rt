//! Photo merge: aligned pictures of one size, joined along least seams that keep the marked cells.
//!
//! The pictures are the parts of one volume. `merge_canvas` begins with the first and lays one after another over the
//! whole output (`merge_step`), each by a graph cut among all its cells. Those marked with the picture come from it,
//! and those marked with an earlier one stay. Of all choices for the others, the one is taken whose seams cost the
//! least (specs/Merges.antt). `laws` says that there is one such map, that each marked cell comes from its own picture
//! at its own place, and that every cell comes from its own place of some picture. The method is that of Kwatra et al.,
//! "Graphcut textures" (2003); the marks are the strokes of Agarwala et al., "Interactive digital photomontage" (2004).
//!
//! `marks` has the marks, `merge` the steps.
#![tactic(auto)]

mod laws;
mod marks;
mod merge;

pub use laws::{merges_are_merged, there_is_one_merge};
pub use marks::first_bad_mark;
pub use merge::{merge_canvas, merge_step};
