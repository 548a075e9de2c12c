//! The texts of a run: the report of what was done, and the line of a fault with its status.
//!
//! `status` is the status of the fault, and `say_fault` and `report` tell a sink exactly the fault's
//! line and the summary's report (specs/Texts.antt): the whole text with Ok, and where the sink fails
//! a prefix of it. No call takes memory. `fault` has the faults, `summary` the summaries, `piece` the
//! telling of a text in pieces, and `say` the texts.
#![tactic(auto)]

mod fault;
mod piece;
mod reports;
mod say;
mod summary;

pub use fault::{Fault, FileOf, status};
pub use reports::report;
pub use say::say_fault;
pub use summary::Summary;
