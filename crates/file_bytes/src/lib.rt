//! Fields of binary files over a shelf: written through one buffer without memory, and read with the
//! place of each.
//!
//! The contracts speak of the whole text that has been put to a file, and of the bytes of a file up to
//! a place. `field` has the numbers of 2, 4 and 8 bytes, `writer` writes, `reader` reads. A number has its
//! most significant byte first.
#![tactic(auto)]

mod field;
mod reader;
mod writer;

pub use field::Field;
pub use reader::{FileReader, make_room};
pub use writer::FileWriter;
