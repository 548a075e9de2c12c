//! Files in memory whose bytes are known, which give and take one byte at a time.
//!
//! That they keep the traits of byte_streams is proved, so the clauses of these can be kept where bytes
//! are known.
#![tactic(auto)]

mod input;
mod output;

pub use input::SlowInput;
pub use output::SlowOutput;
