//! The command that checks the files of a run: samples, out file, map and record.
//!
//! `check_files` answers that they stand exactly where they do, and else the first rule that they break
//! (specs/Checks.antt has what it reads and refuses, and the crate standing_files the rules). It writes no
//! file. `reading` reads the files in their order and judges them, and `check` reports the verdict.
#![tactic(auto)]

mod check;
mod reading;

pub use check::check_files;
