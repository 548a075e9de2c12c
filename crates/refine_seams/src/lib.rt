//! Rounds of refinement: the window of an output whose seams cost the most is laid again from the sample.
//!
//! `round` promises one round (specs/Rounds.antt), whose placement is that of specs/Rounds.antt of grown. Where no
//! window costs anything there is none. What is there may always stay, so no round raises the total. The method is
//! that of Kwatra et al., "Graphcut textures" (2003).
#![tactic(auto)]

mod rounds;

pub use rounds::{round, round_windows, round_with};
