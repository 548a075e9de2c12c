//! Record files: what shows that each step of a picture or a loop was a least one, as bytes.
#![tactic(auto)]

mod block_fields;
mod blocks;
mod choices;
mod cut_fields;
mod cut_reading;
mod cuts;
mod file;
mod law;
mod number_lists;
mod walk_fields;
mod walks;

pub use block_check::BlockRecord;
pub use blocks::{read_block, write_blocks};
pub use cells::Taps;
pub use cut_check::{CutRecord, Flow};
pub use cut_reading::{cells_of, read_cut};
pub use file::{
    BLOCKS, CUTS, RecordFile, read_count, read_record_file, read_record_head,
    read_version_one_cuts, write_cuts,
};
pub use items::Items;
pub use law::{
    blocks_have_one_spelling, blocks_read_again, cuts_have_one_spelling, cuts_read_again,
    no_record_begins_another, one_reading, version_one_cuts_are_cuts, walk_has_one_spelling,
    walk_read_again,
};
pub use source_map::{Head, Version};
pub use strip_boundary::BoundaryRecord;
pub use walks::{read_walk_file, write_walk};
