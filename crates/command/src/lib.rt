//! What a run of any command leaves and promises, and the one writer of its files and its report.
//!
//! A command is a value (specs/Commands.antt): the files that it reads and writes, in their order, what
//! it refuses of them and what it makes. What its run leaves, by its answer, is defined once for any
//! command (specs/Outcomes.antt), and so is each promise of a run (specs/Promises.antt), which
//! proofs/Promising.antt proves for any command that has one answer. `files` has the files of a run as
//! they are written one after another, `write` the writing of a whole run, and `answer` its end.
#![tactic(auto)]

mod answer;
mod files;
mod write;

pub use answer::{finish, read_fault};
pub use files::{RunFiles, Then};
pub use write::{report_run, write_run};
