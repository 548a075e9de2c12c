// The rows of a box, those of all frames one after another. What tells one row from another is found once in it.
ghost use Rattle.std.specs.Prelude.{◌≤◌, ◌<◌, ◌+◌, ◌*◌};
ghost use Rattle.cells.specs.Places.{IsSmall};
ghost use Rattle.cut_check.specs.Steps.{IsAt, IsRow};

use boxes::Counts;
use cells::Size;

/// The cell at an index that is one of a row's.
#[inline(always)]
pub fn cell_of_row(size: Size, row: u32, i: usize) -> Counts
    requires small { IsSmall size }
    requires row { IsRow size row }
    requires from { size.w * row ≤ i }
    requires end { i < size.w * row + size.w }
    ensures { IsAt size i result }
{
    Counts {
        x: (i - size.w as usize * row as usize) as u32,
        y: row % size.h,
        f: row / size.h,
    }
}
