//! Pictures in Netpbm's PPM form, binary (P6), with a maxval of at most 255.
//!
//! The grammar is in specs/Header.antt and specs/Pictures.antt, as a relation between a whole list
//! of bytes and a picture, with the place of each refusal. `read_p6` promises the picture or the first
//! refusal, `write_p6` the one spelling of a picture that it writes, and `one_reading` that the grammar
//! gives each list of bytes one answer at most and takes what the writer writes.
#![tactic(auto)]

mod header;
mod law;
mod picture;
mod raster;
mod read;
mod scan;
mod write;

pub use law::one_reading;
pub use picture::Picture;
pub use read::read_p6;
pub use write::write_p6;
