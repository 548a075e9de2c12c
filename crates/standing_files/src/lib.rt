//! Whether samples, an out picture, a map file and a record file stand.
//!
//! `judge_record_file` says that they stand exactly where they do (specs/Standing.antt), and else names the first
//! broken rule with the number of its record and its place. Rules 1 to 6 are those of cut records, which the crate
//! cut_check judges, rules 7 to 11 those of block records, of the crate block_check, and rules 12 to 14 those of walk
//! records, of the crate loop_walk. The three rules of whole files are here: `together` tries whether the files go
//! together, `records` whether the map is the one that the records leave, and `picture` whether the out picture is
//! that of the map.
//!
//! The record file is judged as it is read, with one record of cuts or of blocks in memory at a time (`as_read`, and
//! for these two kinds `cuts_as_read` and `blocks_as_read`); a walk is read whole before.
#![tactic(auto)]

mod as_read;
mod blocks_as_read;
mod cuts_as_read;
mod laws;
mod picture;
mod records;
mod together;
mod verdict;

pub use as_read::judge_record_file;
pub use laws::{
    files_of_a_loop_stand, files_of_a_quilt_stand, files_of_a_run_stand, one_first_broken_rule,
    standing_records_are_least, versions_do_not_count,
};
pub use verdict::{MAP_RULE, PICTURE_RULE, TOGETHER_RULE, Verdict};
