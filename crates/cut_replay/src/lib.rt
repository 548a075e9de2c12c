//! Cut records over one another: each is judged against the map that the records before it leave.
//!
//! `replay_cuts` accepts exactly the lists of which each record stands so, and leaves the map that they leave
//! (specs/Replay.antt); of any other list it names the first record that doesn't stand, with its first fault.
//! It takes no memory. Records come from files too, so nothing is asked of where their boxes lie. One record
//! is judged by the crate cut_check. `laws` says what follows of records that stand.
#![tactic(auto)]

mod laws;
mod records;

pub use laws::{broken_record_stands_not, records_that_stand};
pub use records::{Broken, replay_cuts};
