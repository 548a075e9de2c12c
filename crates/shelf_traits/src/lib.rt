//! The outside as two traits, a shelf of named files and a sink of bytes. A reader or a writer is
//! written once over any shelf.
//!
//! The contracts say, for each call, what it did to the bytes where the object tells them, and that
//! a fault comes only where a count of faults rose in that call. `shelf` has the traits and `fault`
//! the answers that readers and writers share. specs/Files.antt has the words of the traits,
//! specs/Written.antt those for texts that are written one after another, and proofs/FileLaws.antt and
//! proofs/WrittenLaws.antt their laws. Stores in memory that keep the traits are in `shelf_core`.
#![tactic(auto)]

mod fault;
mod shelf;

pub use fault::{FormFault, ReadError, What, WriteFault};
pub use shelf::{Failed, Shelf, Sink};
