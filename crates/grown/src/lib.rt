//! What a grown run is: placements, one after another, until an output is full, and then rounds of refinement.
//!
//! The definitions say which placement comes next, which least choice puts it in, where the run ends, and where
//! it passes the bound on the cells of its boxes (specs/Grown.antt, specs/Rounds.antt). `laws` says that of a plan and
//! a sample there is one answer, but for the flows of records and for out of memory, that no round raises
//! the total, and that rounds follow placements (specs/OneRun.antt). In modes `Grid` and `Sub` sizes alone say the
//! boxes of placements (specs/BoxLimit.antt), so `first_past` counts them without a pick, and a run passes the bound
//! where they do. Nothing here searches: crate grow_run makes the run.
//!
//! `plan` has what is asked and answered, `limit` the count of boxes, `laws` what the definitions mean.
#![tactic(auto)]

mod laws;
mod limit;
mod plan;

pub use laws::{
    no_round_raises_the_total, rounds_follow_placements, the_run_passes_where_boxes_do,
    there_is_one_grown_run, there_is_one_round,
};
pub use limit::first_past;
pub use plan::{GrowError, GrowPlan, Grown};
