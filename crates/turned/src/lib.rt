//! A sample with its quarter turns and mirrors: eight parts in place of one.
//!
//! `turn_all` makes the turns of each part of a volume further parts, so that what grows over a volume of several
//! parts grows over them; `untouched` and `turned_place` lead from a place of the turned parts to the sample's cell
//! and back. specs/Turns.antt has the two moves of a frame from which the turns are composed, specs/TurnedParts.antt
//! the turned volume, specs/TurnedPlaces.antt its places. `turn` has the moves, `places` sizes and places, `copies`
//! the volume, `laws` what holds of the definitions. README.md says the definitions and the promises in words.
#![tactic(auto)]

mod copies;
pub mod laws;
mod places;
mod turn;

pub use copies::turn_all;
pub use places::{MOST_TURNED, Turned, turned_place, turned_sizes, untouched, untouched_with};
pub use turn::TURNS;
