// What is reported of the record of a block.
ghost use Rattle.std.specs.Prelude.{◌≡◌, ◌≤◌, ◌<◌, ◌+◌, ◌-◌, ◌^◌, ℕ, All, length, slice_index};
ghost use Rattle.block_strips.specs.Strips.{strip_rows};
ghost use Rattle.block_check.specs.Blocks.{HasColumnsOn, IsFormedBlock};
ghost use Rattle.quilted.specs.Costs.{block_boundaries, side_count};
ghost use Rattle.quilted.specs.Totals.{BlockCostsSo, CostsSo, HasBlockWidths, HasSideWidths, IsLeastAt, SideCostsSo};

use block_check::BlockRecord;
use block_strips::Side;
use map_canvas::Placement;
use strip_boundary::BoundaryRecord;

// The place of the first least number.
fn least_at(numbers: &[u32]) -> usize
    requires { 1 ≤ length numbers.now }
    ensures { IsLeastAt numbers.now (length numbers.now) result }
{
    let mut least = 0;
    for i in 1..numbers.len() {
        if numbers[i] < numbers[least] {
            least = i;
        }
    }
    least
}

// The last so many of some numbers.
fn last_row(numbers: &[u32], cols: usize) -> &[u32]
    requires { cols ≤ length numbers.now }
    ensures count { length result.now ≡ cols }
    ensures cells { (i : ℕ) → i < cols →
        slice_index result.now i ≡ slice_index numbers.now (length numbers.now - cols + i) }
{
    let start = numbers.len() - cols;
    &numbers[start..start + cols]
}

// What a boundary through a strip of so many strip rows costs: the least sum of its last strip row.
fn cost_of(rows: u32, boundary: &BoundaryRecord) -> u32
    requires rows { 1 ≤ rows }
    requires sums { rows ≤ length boundary.now.sums }
    ensures { CostsSo rows boundary.now result }
{
    let sums = boundary.sums.as_slice();
    let cols = sums.len() / rows as usize;
    let last = last_row(sums, cols);
    last[least_at(last)]
}

// What the boundary on a side of a placement costs.
fn side_cost(side: Side, placement: &Placement, boundary: &Option<BoundaryRecord>) -> u64
    requires rows { 1 ≤ strip_rows side placement.now.rect.size }
    requires columns { HasColumnsOn side placement.now boundary.now }
    ensures cost { SideCostsSo side placement.now boundary.now result }
    ensures small { result < 2 ^ 32 }
{
    match boundary {
        Some(boundary) => u64::from(cost_of(side.rows(placement.rect.size), boundary)),
        None => 0,
    }
}

/// What the boundaries of a block cost, by its record, which stands.
pub fn block_cost(block: &BlockRecord) -> u64
    requires { IsFormedBlock block.now }
    ensures cost { BlockCostsSo block.now result }
    ensures small { result < 2 ^ 33 }
{
    side_cost(Side::Left, &block.placement, &block.left)
        + side_cost(Side::Top, &block.placement, &block.top)
}

// How many boundaries there are on a side.
fn side_count(boundary: &Option<BoundaryRecord>) -> u64
    ensures { result ≡ side_count boundary.now }
{
    match boundary {
        Some(_) => 1,
        None => 0,
    }
}

/// How many boundaries a block has.
pub fn block_boundaries(block: &BlockRecord) -> u64
    ensures count { result ≡ block_boundaries block.now }
    ensures small { result ≤ 2 }
{
    side_count(&block.left) + side_count(&block.top)
}

// Each column has 16 bits by its type, and each sum 32. They are read only to show that to the check.
fn column_fits(column: &u16)
    ensures { column.now < 2 ^ 16 }
{
    let _column = *column;
}

fn columns_fit(columns: &[u16])
    ensures { All (λ column. column < 2 ^ 16) columns.now }
{
    for column in columns {
        column_fits(column);
    }
}

fn sum_fits(sum: &u32)
    ensures { sum.now < 2 ^ 32 }
{
    let _sum = *sum;
}

fn sums_fit(sums: &[u32])
    ensures { All (λ sum. sum < 2 ^ 32) sums.now }
{
    for sum in sums {
        sum_fits(sum);
    }
}

fn side_fits(boundary: &Option<BoundaryRecord>)
    ensures { HasSideWidths boundary.now }
{
    if let Some(boundary) = boundary {
        columns_fit(boundary.path.as_slice());
        sums_fit(boundary.sums.as_slice());
    }
}

/// The columns and the sums of a record have the widths of their types, which this shows to the check.
pub fn block_fits(block: &BlockRecord)
    ensures { HasBlockWidths block.now }
{
    side_fits(&block.left);
    side_fits(&block.top);
}
