//! Volumes of cells, places in them, and boxes. A picture is a volume of one frame, a clip one of
//! several.
//!
//! The contracts see a volume as its size, the number of samples of a cell, and the list of its cells
//! in raster order (specs/Cells.antt); that it lies in one buffer is said by no clause. The distance of
//! two cells obeys the triangle inequality (specs/Distances.antt). `place` has places, sizes and boxes,
//! `volume` the volume, `distance` the distance.
#![tactic(auto)]

mod distance;
pub mod laws;
mod parts;
mod place;
mod sizes;
mod volume;

pub use distance::cell_distance;
pub use place::{At, Axis, Box3, Size, Taps};
pub use sizes::{PartPlace, Sizes};
pub use volume::Volume;
