//! The one door to the files of the system by their names, and the record of what went through it.
#![tactic(auto)]

mod call;
mod record;
mod system;

pub use call::{Call, Opening};
pub use record::Record;
pub use system::System;
