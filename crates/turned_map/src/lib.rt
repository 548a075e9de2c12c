//! The file of a map over turned samples: a map file of version 2 and kind 2, both ways.
//!
//! The map has places of the turned samples (crate turned); the file names for each output cell the cell of the
//! sample as it is before the turn, and the turn. The contracts say which bytes the file has
//! (specs/TurnedFiles.antt). `turned_file` writes, `turned_reading` reads, `law` has what holds of writing and
//! reading together. README.md says the definitions and the promises in words.
#![tactic(auto)]

mod law;
mod turned_file;
mod turned_reading;

pub use law::one_turned_reading;
pub use turned_file::{TURNED_KIND, TURNED_VERSION, TurnedFile, write_turned_map};
pub use turned_reading::read_turned_map;
