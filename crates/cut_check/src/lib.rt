//! The checker of cuts: whether the record of a placement shows that its choice between old and new
//! costs the least.
//!
//! `check_held`, and `check_cut` with no cell held, accept exactly the records that stand
//! (specs/Records.antt), and name the first broken rule and its first place of any other. What they accept
//! is least among all admissible choices without a held cell, whoever made it: the flow of the record bounds
//! the cost of every choice (proofs/Least.antt). No memory is taken.
//!
//! `record` has the types, `check` the rules in their order, `rules` those of the choice, `bounds` that of
//! pairs, `balance` that of free cells with the value, and `flows` the flows of the pairs of a cell. All of
//! them go over the box in raster order, most row by row (`rows`).
#![tactic(auto)]

mod balance;
mod bounds;
mod check;
mod flows;
mod laws;
mod record;
mod rows;
mod rules;

pub use check::{check_cut, check_held};
pub use laws::{choice_of_a_record_is_least, standing_record_has_no_fault};
pub use record::{
    BALANCE_RULE, BOUNDS_RULE, CutFault, CutRecord, FILL_RULE, FIT_RULE, Flow, KEEP_RULE,
    VALUE_RULE,
};
