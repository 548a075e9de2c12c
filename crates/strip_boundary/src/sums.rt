// The running sums of a strip: the cost of the cheapest way from the first row to each cell.
ghost use Rattle.std.specs.Prelude.{◌+◌, ◌*◌, ◌<◌, ◌≤◌, IfOk, OnOk, length, slice_index};
ghost use Rattle.strip_boundary.specs.Records.{AreTightSums, IsTightSum};
ghost use Rattle.strip_boundary.specs.Tables.{IsFirstLeastWithin, IsFirstLeastNear, AreTightUpTo};

use crate::strip::Strip;
use std::alloc::{AllocError, Global};

/// The tight sums of all cells, row by row.
pub fn running_sums(alloc: Global, strip: &Strip) -> Result<Vec<u32>, AllocError>
    ensures { IfOk result (λ sums. AreTightSums strip.now sums.items) }
{
    let mut sums = Vec::with_capacity(alloc, strip.rows() * strip.cols())?;
    for row in 0..strip.rows() {
        add_row(strip, row, &mut sums)?;
    }
    Ok(sums)
}

/// Adds the sums of one more row.
fn add_row(strip: &Strip, row: usize, sums: &mut Vec<u32>) -> Result<(), AllocError>
    requires row { row < strip.now.rows }
    requires above { AreTightUpTo strip.now sums.old.items row 0 }
    ensures { OnOk result (AreTightUpTo strip.now sums.new.items (row + 1) 0) }
{
    for col in 0..strip.cols() {
        let sum = tight_sum(strip, sums.as_slice(), row, col);
        sums.push(sum)?;
    }
    Ok(())
}

/// The error of a cell, and below the first row the least of the sums above added to it.
fn tight_sum(strip: &Strip, sums: &[u32], row: usize, col: usize) -> u32
    requires row { row < strip.now.rows }
    requires col { col < strip.now.cols }
    requires above { AreTightUpTo strip.now sums.now row col }
    ensures { IsTightSum strip.now sums.now row col result }
{
    let error = strip.error(row, col);
    if row == 0 {
        return error;
    }
    let above = strip.row_of(sums, row - 1);
    error + above[first_least_near(above, col)]
}

/// The first of the up to three columns near `col` whose number is least.
pub fn first_least_near(row: &[u32], col: usize) -> usize
    requires { col < length row.now }
    ensures { IsFirstLeastNear (slice_index row.now) (length row.now) col result }
{
    first_least(row, col.saturating_sub(1), row.len().min(col + 2))
}

/// The first column from `start` up to `end` whose number is least.
pub fn first_least(row: &[u32], start: usize, end: usize) -> usize
    requires some { start < end }
    requires inside { end ≤ length row.now }
    ensures { IsFirstLeastWithin (slice_index row.now) start end result }
{
    let mut least = start;
    for col in start + 1..end {
        if row[col] < row[least] {
            least = col;
        }
    }
    least
}
