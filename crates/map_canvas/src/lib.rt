//! Which sample cell each output cell was copied from, and the picture that follows from it.
//!
//! A canvas keeps a map beside its picture; the contracts say that the picture is the map's picture
//! (specs/Canvases.antt), and that a choice over a placement leaves the map after it
//! (specs/Choices.antt). `map` has the map, `entry` what it has for one cell, `canvas` the canvas and its
//! placements, `kept` the cells that a choice may not change, `rendered` the test of a picture against a
//! sample. The files of maps are those of the crate source_map.
#![tactic(auto)]

mod canvas;
mod entry;
mod kept;
pub mod laws;
mod map;
mod rendered;
mod shown;

pub use canvas::{Canvas, Placement};
pub use entry::Entry;
pub use map::{GREATEST_COORDINATE, Map};
