//! What commands that make an output ask for, and what they write of it. Nothing here searches.
//!
//! `grow` writes a picture or clip, its map and its records, and `tile` a picture or clip and its map. Each is a
//! value over the crate command (specs/Growths.antt, specs/Tilings.antt: what it reads, refuses, makes and writes).
//! What holds when it ends well is its headline (specs/GrowHeadlines.antt, specs/TileHeadlines.antt), which
//! proofs/GrowLaws.antt and proofs/TileLaws.antt prove of all that it writes. With turns `grow` works over the volume
//! of all turns of its samples, and its map file names their cells as they are before (specs/GrownMaps.antt).
//!
//! `quilt` and `transfer` lay blocks of the sample until the output is full, each by its own rating of places. What
//! is made is a `PictureQuilt`. specs/BlockOutputs.antt has their last stages and their files, and
//! specs/BlockHeadlines.antt what a headline says of them. That what is written is so is proved once, for any rating.
//!
//! `trial` grows from a sample that is made of a number: 64x64 cells of 3 bytes, each a chequered ground and a draw of
//! that number (specs/TrialSamples.antt).
//!
//! `asked` has what `grow` and `trial` ask of growing, `trial` the sample of a trial. `growth`, `quilt` and `tiled`
//! have what is made, `grown_map` and `record_file` one file each, and `grow_files`, `quilt_files` and `tile_files` the
//! writing.
#![tactic(auto)]

mod asked;
mod grow_files;
mod grown_map;
mod growth;
mod quilt;
mod quilt_files;
mod record_file;
mod tile_files;
mod tiled;
mod trial;

pub use asked::{growing_fault, mode_for};
pub use grow_files::write_growth;
pub use grown_map::GrownMap;
pub use growth::Growth;
pub use quilt::{PictureQuilt, quilt_fault, within_output};
pub use quilt_files::write_quilt;
pub use record_file::BlocksFile;
pub use tile_files::write_tiling;
pub use tiled::TiledSample;
pub use trial::trial_sample;
