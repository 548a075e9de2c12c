//! The outside of a program, as two traits, and stores in memory that keep them.
//!
//! The traits, and the answers that readers and writers share, are those of `shelf_traits`, on which
//! readers and writers stand. `mem_shelf` and `mem_sink` are stores whose calls can be listed to fail;
//! `sure_shelf` and `sure_sink` never fail, and take no memory once they are made.
#![tactic(auto)]

mod bytes;
mod calls;
mod listing;
mod mem_shelf;
mod mem_sink;
mod pieces;
mod sure_shelf;
mod sure_sink;
mod tape;

pub use listing::Call;
pub use mem_shelf::MemShelf;
pub use mem_sink::MemSink;
pub use shelf_traits::{Failed, FormFault, ReadError, Shelf, Sink, What, WriteFault};
pub use sure_shelf::SureShelf;
pub use sure_sink::SureSink;
