//! The files of the system as a shelf, and its standard output and error as sinks.
//!
//! `real` has the shelf, over `files`, and `streams` the sinks. `nodes` knows the files by more than
//! their names. What is read and written goes through byte_streams, and what is opened through
//! system_calls.
#![tactic(auto)]

mod files;
mod nodes;
mod real;
mod start;
mod streams;

pub use real::RealShelf;
pub use start::{Start, Unknown};
pub use streams::{ErrorOutput, Output, hold_streams};
