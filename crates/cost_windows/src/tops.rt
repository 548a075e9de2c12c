// The greatest sum of each row of corners, so that the worst window is found without a look at all sums.
ghost use Rattle.std.specs.Prelude.{◌≡◌, ◌≤◌, ◌<◌, ℕ, ◌+◌, ◌*◌, max, length, slice_index};
ghost use Rattle.cells.specs.Boxes.{HasCells};
ghost use Rattle.cells.specs.Places.{IsSmall, cell_count};
ghost use Rattle.cost_windows.specs.Slides.{HoldsBlock, IsOnRun, block_size};
ghost use Rattle.cost_windows.specs.Tables.{IsGreatest};
ghost use Rattle.cost_windows.specs.Tops.{AreTops, max_to, row_top};

use crate::block::Block;
use cells::Size;
use limits::{GREATEST_AXIS, MOST_CELLS};

// The greatest number of a row; 0 where there is none.
fn top_of(row: &[u64]) -> u64
    ensures { result ≡ max_to (length row.now) (slice_index row.now) }
{
    let mut top = 0;
    for k in 0..row.len() {
        top = top.max(row[k]);
    }
    top
}

// Makes right the greatest numbers of the rows of a range.
fn fill_tops(sums: &[u64], tops: &mut [u64], w: usize, from: usize, end: usize)
    requires width { w ≤ MOST_CELLS }
    requires rows { length tops.old ≤ MOST_CELLS }
    requires sums { length sums.now ≡ w * length tops.old }
    requires from { from ≤ end }
    requires end { end ≤ length tops.old }
    ensures made { (r : ℕ) → from ≤ r → r < end → slice_index tops.new r ≡ row_top w sums.now r }
    ensures before { (r : ℕ) → r < from → slice_index tops.new r ≡ slice_index tops.old r }
    ensures after { (r : ℕ) → end ≤ r → slice_index tops.new r ≡ slice_index tops.old r }
{
    for r in from..end {
        tops[r] = top_of(&sums[w * r..w * r + w]);
    }
}

/// Makes right the greatest sums of all rows of corners, where only those of a block may be wrong.
pub(crate) fn refresh_tops(sums: &[u64], tops: &mut [u64], size: Size, block: &Block)
    requires small { IsSmall size }
    requires some { HasCells (block_size block.now) }
    requires inside { HoldsBlock size block.now }
    requires sums { length sums.now ≡ cell_count size }
    requires tops { length tops.old ≡ size.h * size.f }
    requires others { (r : ℕ) → r < size.h * size.f → ((y f : ℕ) → IsOnRun block.now.y y →
        IsOnRun block.now.f f → r ≡ y + size.h * f → ⊥) →
        slice_index tops.old r ≡ row_top size.w sums.now r }
    ensures { AreTops size sums.now tops.new }
{
    let h = size.h as usize;
    let from = block.y.from as usize + h * block.f.from as usize;
    let last = (block.y.from + block.y.len - 1) as usize
        + h * (block.f.from + block.f.len - 1) as usize;
    fill_tops(sums, tops, size.w as usize, from, last + 1);
}

// The index of the greatest number, and the first where several are.
fn greatest(numbers: &[u64]) -> usize
    requires { 0 < length numbers.now }
    ensures { IsGreatest numbers.now (length numbers.now) result }
{
    let mut best = 0;
    for i in 1..numbers.len() {
        if numbers[i] > numbers[best] {
            best = i;
        }
    }
    best
}

/// The index of the greatest sum of all, and the first where several are. The first row whose greatest is the
/// greatest of all has it.
pub(crate) fn greatest_by_rows(sums: &[u64], tops: &[u64], size: Size) -> usize
    requires small { IsSmall size }
    requires sums { length sums.now ≡ cell_count size }
    requires tops { AreTops size sums.now tops.now }
    ensures { IsGreatest sums.now (length sums.now) result }
{
    let w = size.w as usize;
    let r = greatest(tops);
    let k = greatest(&sums[w * r..w * r + w]);
    w * r + k
}
