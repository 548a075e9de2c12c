// The check of a boundary record against its strip.
ghost use Rattle.std.specs.Prelude.{◌≡◌, ◌+◌, ◌*◌, ◌<◌, ◌↔◌, length, IsTrue, IsOk, IfErr, IfSome, IfNone, OnOk, MatchOption, ℕ};
ghost use Rattle.strip_boundary.specs.Boundaries.{IsBoundary, IsLeastBoundary, boundary_cost};
ghost use Rattle.strip_boundary.specs.Records.{BoundaryStands, IsFirstBoundaryFault, SumHolds, SumsHold, IsLeastOfLastRow, ColumnHolds, FirstBadColumn, FirstBadSum};

use crate::boundary::BoundaryRecord;
use crate::strip::Strip;
use crate::sums::{first_least, first_least_near};

/// The rule that the path is a boundary of the strip, by its number in a report.
pub const PATH_RULE: u32 = 9;

/// The rule that every sum holds, by its number in a report.
pub const SUMS_RULE: u32 = 10;

/// The rule that the cost of the path is the least sum of the last row, by its number in a report.
pub const COST_RULE: u32 = 11;

/// The first broken rule of a record, and the first place where it is broken.
#[derive(Clone, Copy, Debug, PartialEq, Eq)]
pub struct BlockFault {
    /// The number of the rule.
    pub kind: u32,
    /// A strip row for the path, a strip cell (row by row) for the sums, and 0 for the cost.
    pub place: u64,
}

/// Tests that a record stands for a strip. It takes no memory.
///
/// Every way down the strip costs at least the sum of the cell at which it ends, where the sums hold.
/// So a path that costs the least sum of the last row is least.
pub fn check_boundary(strip: &Strip, boundary: &BoundaryRecord) -> Result<(), BlockFault>
    requires { length boundary.now.sums ≡ strip.now.rows * strip.now.cols }
    ensures stands { IsOk result ↔ BoundaryStands strip.now boundary.now }
    ensures broken { IfErr result (λ fault. IsFirstBoundaryFault strip.now boundary.now fault) }
    ensures least { OnOk result (IsLeastBoundary strip.now boundary.now.path) }
{
    let path = boundary.path.as_slice();
    let sums = boundary.sums.as_slice();
    if let Some(row) = first_bad_column(strip, path) {
        return Err(BlockFault {
            kind: PATH_RULE,
            place: row as u64,
        });
    }
    if let Some(cell) = first_bad_sum(strip, sums) {
        return Err(BlockFault {
            kind: SUMS_RULE,
            place: cell as u64,
        });
    }
    if !has_least_cost(strip, path, sums) {
        return Err(BlockFault {
            kind: COST_RULE,
            place: 0,
        });
    }
    Ok(())
}

/// The first strip row without a fit column, or the number of strip rows where only the path goes on.
fn first_bad_column(strip: &Strip, path: &[u16]) -> Option<usize>
    ensures { MatchOption result (IsBoundary strip.now path.now)
        (FirstBadColumn strip.now path.now) }
{
    for row in 0..strip.rows() {
        if !column_holds(strip, path, row) {
            return Some(row);
        }
    }
    if path.len() > strip.rows() {
        return Some(strip.rows());
    }
    None
}

/// Whether a row of the path has a column of the strip, near that of the row before.
fn column_holds(strip: &Strip, path: &[u16], row: usize) -> bool
    ensures { IsTrue result ↔ ColumnHolds strip.now path.now row }
{
    if row >= path.len() || usize::from(path[row]) >= strip.cols() {
        return false;
    }
    row == 0 || path[row - 1].abs_diff(path[row]) <= 1
}

/// The first strip cell whose sum doesn't hold.
fn first_bad_sum(strip: &Strip, sums: &[u32]) -> Option<usize>
    requires { length sums.now ≡ strip.now.rows * strip.now.cols }
    ensures { MatchOption result (SumsHold strip.now sums.now)
        (FirstBadSum strip.now sums.now) }
{
    for row in 0..strip.rows() {
        if let Some(col) = first_bad_sum_of(strip, sums, row) {
            return Some(row * strip.cols() + col);
        }
    }
    None
}

/// The first column of a row whose sum doesn't hold.
fn first_bad_sum_of(strip: &Strip, sums: &[u32], row: usize) -> Option<usize>
    requires row { row < strip.now.rows }
    requires sums { length sums.now ≡ strip.now.rows * strip.now.cols }
    ensures none { IfNone result ((col : ℕ) → col < strip.now.cols →
        SumHolds strip.now sums.now row col) }
    ensures inside { IfSome result (λ col. col < strip.now.cols) }
    ensures before { IfSome result (λ col. (c : ℕ) → c < col → SumHolds strip.now sums.now row c) }
    ensures here { IfSome result (λ col. ¬ (SumHolds strip.now sums.now row col)) }
{
    for col in 0..strip.cols() {
        if !sum_holds(strip, sums, row, col) {
            return Some(col);
        }
    }
    None
}

/// Whether the sum of a cell is the error in the first row, and at most the error plus each of the
/// sums above in a later one.
fn sum_holds(strip: &Strip, sums: &[u32], row: usize, col: usize) -> bool
    requires row { row < strip.now.rows }
    requires col { col < strip.now.cols }
    requires sums { length sums.now ≡ strip.now.rows * strip.now.cols }
    ensures { IsTrue result ↔ SumHolds strip.now sums.now row col }
{
    let sum = strip.row_of(sums, row)[col];
    let error = strip.error(row, col);
    if row == 0 {
        return sum == error;
    }
    let above = strip.row_of(sums, row - 1);
    let least = above[first_least_near(above, col)];
    // The sums of a record may be any numbers, so their total may not fit 32 bits.
    u64::from(sum) <= u64::from(error) + u64::from(least)
}

/// Whether the cost of a boundary, the sum of the errors along it, is the least sum of the last row.
fn has_least_cost(strip: &Strip, path: &[u16], sums: &[u32]) -> bool
    requires path { IsBoundary strip.now path.now }
    requires sums { length sums.now ≡ strip.now.rows * strip.now.cols }
    ensures { IsTrue result ↔ IsLeastOfLastRow strip.now sums.now
        (boundary_cost strip.now path.now) }
{
    let mut cost = 0;
    for row in 0..strip.rows() {
        cost += strip.error(row, usize::from(path[row]));
    }
    let last = strip.row_of(sums, strip.rows() - 1);
    cost == last[first_least(last, 0, strip.cols())]
}
