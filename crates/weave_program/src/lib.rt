//! The whole program, as functions of a library: all that `main` does but for five lines.
//!
//! `run_program` runs words over the files and streams of the system. Its contract states each clause of
//! `run` of weave_engine at the record of this run, from the state of no calls to the state after, and that
//! each file that was opened was asked for. `words_of` gives the words of the command line, and `status_of`
//! the status that the program ends with, which tells whether the last file is on the disk.
#![tactic(auto)]

mod ending;
mod program;
mod words;

pub use ending::{Ran, status_of};
pub use program::run_program;
pub use words::words_of;
