//! The files of maps: which sample cell each output cell was copied from, as bytes.
//!
//! The contracts say which bytes the file of a map has (specs/MapFiles.antt). Maps, and the canvases that
//! keep them beside their pictures, are those of the crate map_canvas, named here again.
#![tactic(auto)]

mod head;
mod head_reading;
mod law;
mod map_file;
mod map_reading;
mod source_reading;
mod waiting;

pub use head::{Head, Version, put_head};
pub use head_reading::{read_head, read_magic, read_part, read_size, read_sizes};
pub use law::{no_map_begins_another, one_map_reading, version_one_maps_are_maps};
pub use map_canvas::{Canvas, GREATEST_COORDINATE, Map, Placement};
pub use map_file::{MapFile, place_bytes, put_source, write_cell_map, write_frame_map};
pub use map_reading::{few_cells, read_below, read_map, read_place, read_version_one_map};
