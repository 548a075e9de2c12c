//! Least boundaries through the strips in which quilted blocks overlap.
//!
//! Two blocks that overlap leave a strip: a table of the squared differences between what is
//! there already and what comes (Efros and Freeman, SIGGRAPH 2001). A boundary goes through the
//! strip, one column per strip row, and says where the new block begins.
//!
//! What the contracts promise: `least_boundary` gives a boundary that no other undercuts, always the
//! same one among equals, with a record of running sums. `check_boundary` accepts exactly the records
//! that stand, names the first broken rule of any other, and what it accepts is least, whoever made
//! it.
//!
//! Read on in `strip.rt`, `boundary.rt` and `check.rt`. The definitions are in `specs/`: `Strips`,
//! `Boundaries` and `Records`.
#![tactic(auto)]

mod boundary;
mod check;
mod laws;
mod strip;
mod sums;
mod trace;

pub use boundary::{BoundaryRecord, least_boundary};
pub use check::{BlockFault, COST_RULE, PATH_RULE, SUMS_RULE, check_boundary};
pub use items::Items;
pub use laws::{first_least_boundary_is_one, tight_sums_are_one};
pub use strip::{GREATEST_ERROR, Strip};
