//! Least closed walks through the frames of a clip: the loops of a fixed length that show the least
//! change at their jumps, and records that let anyone verify that they are least.
//!
//! `least_loop` promises a closed walk of the length such that no closed walk of that length costs
//! less, from the smallest frame that any such walk visits, and answers `NoLoop` exactly where there
//! is no closed walk. Of several such walks it takes the first by the middles of their parts.
//! `check_loop` accepts exactly the records that stand, names the first broken rule and its first place
//! otherwise, and what it accepts is least, whoever made it. specs/Walks.antt defines walks and their
//! costs over lists of frames alone, specs/FirstWalks.antt which of several is the first,
//! specs/Tables.antt the tables of a record, and specs/Records.antt a record that stands.
//!
//! `product` has the sums of two tables and `rests` those of a row in lanes of 32 bits, `tables` the
//! tables along the digits of a length, `trace` a way out of the tables, `record` the least walk and its
//! record, `sums` the entries of a record against their sums, `rules` the rules of a record and `check`
//! the checker.
#![tactic(auto)]

mod check;
mod fault;
mod laws;
mod product;
mod record;
mod rests;
mod rules;
mod sums;
mod tables;
mod trace;

pub use check::check_loop;
pub use fault::{DIAGONAL_RULE, LoopFault, TABLES_RULE, WALK_RULE};
pub use items::Items;
pub use laws::{
    closed_walk_visits_frames, first_walk_is_one, standing_record_has_no_fault,
    tight_tables_are_one,
};
pub use record::{LoopError, LoopRecord, least_loop};
pub use tables::table_count;
