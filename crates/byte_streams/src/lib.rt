//! Whole reads and writes of bytes, and files that are read from any place and written piece by piece.
//!
//! The contracts say which bytes were read and written, wherever the reader, the writer or the file
//! tells its bytes; the system's own files tell none. `pieces` reads and writes over std's `Read` and
//! `Write`, `input` from a place of an open file, and `last_bytes` keeps the end of what was read. Upon
//! these stand `input_reader`, a file that is read from any place, and `output_writer`, one that is
//! written. specs/ has the words of their contracts.
#![tactic(auto)]

mod input;
mod input_reader;
mod last_bytes;
mod output;
mod output_writer;
mod pieces;

pub use input::{InputFile, read_at};
pub use input_reader::InputReader;
pub use last_bytes::LastBytes;
pub use output::OutputFile;
pub use output_writer::OutputWriter;
pub use pieces::{read_full, read_some, write_all_of};
