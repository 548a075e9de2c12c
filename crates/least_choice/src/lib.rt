//! Of the least choices of a placement one: that with the fewest old cells.
//!
//! Several choices between old and new may leave the same least total seam cost. specs/Fewest.antt says which of them
//! is taken, and `laws` that there is one such list. That there is one at all, and that over a full map it
//! doesn't raise the total (specs/Totals.antt), is proved in proofs/LeastCuts.antt and proofs/Totals.antt of
//! the definitions alone, with no network and no flow. The crate has no code that runs.
#![tactic(auto)]

mod laws;

pub use laws::there_is_one_fewest_choice;
