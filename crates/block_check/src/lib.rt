//! The record of a block of a quilt, and its check.
//!
//! `check_block` accepts exactly the records that stand over a canvas (specs/Records.antt), and names the first
//! broken rule of any other; what it accepts has least boundaries, whoever made it. `put_block` puts in the cells
//! of a block that every boundary of its record calls new (specs/Blocks.antt). What several records leave, each
//! judged against the map that the records before it leave, and which is the first that doesn't stand, are words
//! of specs/Several.antt. `laws` says that records that stand have least boundaries and break no rule, and that a
//! first broken record is one, with one fault.
//!
//! `block` has the record of a block, `check` the rules, `choice` its new cells. Where blocks lie, and the errors
//! of their strips, are those of the crate block_strips; least boundaries are those of strip_boundary. How a
//! block is picked and laid is the crate quilt's: no word here is of a search.
#![tactic(auto)]

mod block;
mod check;
mod choice;
mod laws;

pub use block::BlockRecord;
pub use check::{BlockError, FIT_RULE, OVERLAP_RULE, check_block};
pub use choice::put_block;
pub use laws::{
    blocks_that_stand, broken_block_stands_not, one_first_broken_block, standing_blocks_are_least,
};
