//! How far blocks of a sample are from a target picture, and the rating of places that weighs it.
//!
//! specs/Targets.antt has the rating of a texture transfer (Efros and Freeman, SIGGRAPH 2001), which weighs the
//! overlap error of a placement against how far its cells are from the target's. `target_error` gives the second,
//! and `eligible_by_error` says which candidates are eligible by both. A transfer is the quilted run by this rating.
//! The crate searches nothing: the crate transfer lays blocks so.
//!
//! `target` has the error, `joined` the sample and the target in one volume, and a box of the target as a canvas
//! over it, `laws` what the rating means.
#![tactic(auto)]

mod joined;
mod laws;
mod target;

pub use joined::{at_first, join_target, target_box};
pub use laws::eligible_by_error;
pub use target::target_error;
