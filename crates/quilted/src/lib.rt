//! What a quilted run is: blocks of a sample along least boundaries, one after another, until an output is full.
//!
//! The crate defines the run and searches nothing. specs/Runs.antt has a step by any rating of places, and the run
//! that steps make. specs/Quilted.antt has what is asked for, and what each answer means. What is counted of a run
//! is here too: what its boundaries cost (`totals`), and where its boxes pass the bound on their cells, by the plan
//! alone (`first_past`). `laws` says what the definitions mean: records over one another leave the map, there is one
//! run, and one number at the limit, which a run passes.
//!
//! `asked` has the types, `limit` the count of boxes, `totals` what is reported of a record. The crate quilt
//! lays blocks; those that write what they lay stand on this one alone.
#![tactic(auto)]

mod asked;
mod laws;
mod limit;
mod totals;

pub use asked::{QuiltError, QuiltRun, Quilted};
pub use laws::{
    a_run_passes_where_blocks_do, quilts_replay, there_is_one_quilt, there_is_one_quilt_limit,
};
pub use limit::first_past;
pub use totals::{block_boundaries, block_cost, block_fits};
