//! The words of a run, and the job that they ask for.
//!
//! `read_job` gives exactly the job of a list of words or its first refusal, for every list of words
//! (specs/Jobs.antt), and a job that it gives has values in the ranges of its keys and file names that
//! differ. specs/Words.antt has the settings of words by a table of keys, and specs/Tables.antt the
//! kinds of values. Each command has a module with its table and its job, as `grow` and `upgrade`; README.md says
//! how one is added.
#![tactic(auto)]

mod check;
mod fields;
mod grow;
mod job;
mod keys;
mod loop_words;
mod merge;
mod name;
mod quilt;
mod read;
mod settings;
mod table;
mod tile;
mod transfer;
mod trial;
mod upgrade;

pub use cells::Taps;
pub use check::CheckJob;
pub use grow::{GrowJob, Place};
pub use job::{Job, Names, WordFault};
pub use keys::Key;
pub use loop_words::LoopJob;
pub use merge::{MergeJob, read_merge};
pub use name::{Name, Names16, Words};
pub use quilt::QuiltJob;
pub use read::read_job;
pub use tile::{TileJob, TilePlan, Wrap, read_tile};
pub use transfer::{TransferJob, read_transfer};
pub use trial::TrialJob;
pub use upgrade::UpgradeJob;
