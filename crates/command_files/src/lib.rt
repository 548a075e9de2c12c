//! The files that commands write, each as a value that the crate command writes in its turn.
//!
//! `OutFile` is the picture or clip, `CellMapFile` a map of cells, and `CutsFile` a record of placements, the last two
//! under their part in the run. Each has its text, which the writer of its form leaves (specs/Outs.antt has that of
//! the out file), and what it asks for. None takes memory when it is written: `writer_for` makes beforehand what
//! writes the out file. `records_fit` shows that flows have 16 bits, which their spelling asks for.
#![tactic(auto)]

mod files;
mod flows;
mod out;

pub use files::{CellMapFile, CutsFile};
pub use flows::records_fit;
pub use out::{OutFile, OutWriter, writer_for};
