//! What a pick is: the placements that a mode of growing allows, and the draws that choose among them.
//!
//! `Mode` says how an output is grown. Its contract gives the list of the placements that it allows for
//! the first unfilled cell (specs/Modes.antt), and says that there is at least one, and that each fits and
//! covers the cell (specs/Fitting.antt). `Candidates` walks a list by index (specs/Lists.antt), so that no
//! list of placements is kept. `Draws` gives words of a ChaCha8 stream by their place
//! (specs/Draws.antt).
//!
//! A pick is one of the candidates that are about as good as the best, by their errors, and the next draw
//! counts among them (specs/Picks.antt). A step of growing is a pick among the candidates of its mode, or
//! the one copy of a grid (specs/Steps.antt), and a run is a list of steps (specs/Runs.antt). No function
//! here makes a pick or a step: those that do are in the crate patch_place, so that whoever says what a
//! run is stands on no search.
//!
//! What happens along one axis is that of the crate boxes, and errors are those of match_error.
//! `candidates` has the lists over the parts of a sample, with the sizes and counts of its parts, `mode` the
//! modes and the size of a window, `draws` the draws, and `laws` what follows from the definitions.
//! README.md says the definitions and the promises in words.
#![tactic(auto)]

mod candidates;
mod draws;
mod laws;
mod mode;

pub use candidates::{Candidates, frames_before, part_after, parts_of, place_count, room};
pub use draws::Draws;
pub use laws::{box_list_is_all_that_fit, there_is_one_next_placement, there_is_one_pick};
pub use mode::{Mode, window_size};
