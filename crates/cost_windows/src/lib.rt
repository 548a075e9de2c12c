//! The table of window sums: the sum of every window of one size that an output holds, kept right after each
//! change of a box, and the worst window.
//!
//! specs/Windows.antt defines the worst window, specs/Tables.antt the table. `SeamTable` costs each pair of the
//! cells that the touched windows have once, and sums runs of the costs along each axis in place (src/reach.rt,
//! src/slide.rt; specs/Slides.antt has their words, and proofs/AxisSums.antt the law that they rest on). It keeps
//! the greatest sum of each row of corners, by which the worst window is found (src/tops.rt, specs/Tops.antt).
//!
//! The costs themselves are those of the crate `costs`, which is handed on whole.
#![tactic(auto)]

mod block;
mod laws;
mod reach;
mod slide;
mod table;
mod tops;

pub use costs::{
    Sources, choices_change_the_total_as_their_window, pair_cost, pairs_of_box, seam_of,
    some_choice_is_lawful, total, window, window_after,
};
pub use laws::{table_right_beside_a_change, worst_window_is_one};
pub use table::{SeamTable, Worst};
