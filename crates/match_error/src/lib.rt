//! Overlap errors: how far a patch of the sample is from the cells that it would be laid over.
//!
//! specs/Errors.antt defines the error of a placement: the sum over the filled cells of its box, and the
//! samples of each, of the squared differences from the cells that the placement would put there, and
//! beside it the count of those cells. The calls of this crate give exactly that, `error_sum_within`
//! with leave to stop where the sum passes a limit, and `within` compares two errors per filled cell,
//! with a tolerance. `FilledRuns` has the filled cells of one box, gathered once for the sums of all its
//! placements (specs/Runs.antt), `FilledRows` those of the rows of a box, gathered once for the sums of
//! all boxes in it (specs/Rows.antt), and `FilledCounts` how many cells are filled, summed up once for
//! the counts of many boxes (specs/Tables.antt). `FilledRuns::gather`, `FilledRows::gather` and
//! `FilledCounts::make` take memory, and no other call does. `overlap` has the sums, `gathered` the runs
//! of one box, `filled_rows` those of the rows, `counts` the counts of single boxes, `table` those of
//! many, `rows` where the rows and the cells of a box are, `fronts` where by the index of the box's
//! first cell, `bytes` the sum over two runs of bytes, `error` the error and the comparison.
#![tactic(auto)]

mod bytes;
mod counts;
mod error;
mod filled_rows;
mod fronts;
mod gathered;
mod overlap;
mod rows;
mod table;

pub use counts::filled_count;
pub use error::{Error, within};
pub use filled_rows::FilledRows;
pub use gathered::FilledRuns;
pub use overlap::{error_sum_within, overlap_error};
pub use table::FilledCounts;
