// What the blocks of a box and the sums of the sample are both made with: cells by their counts, where
// they come in raster order, and the bytes of a row.
ghost use Rattle.std.specs.Prelude.{◌≡◌, ◌≤◌, ◌<◌, ◌+◌, ◌*◌, ◌^◌, ℕ, drop, length, sum, take};
ghost use Rattle.cells.specs.Places.{raster_index, spot};
ghost use Rattle.search_squares.specs.Gathered.{HasShortRows, IsCellStep};

use cells::{At, Size};
use limits::GREATEST_AXIS;

/// The step from a box's corner to one of its cells.
pub(crate) fn step_to(x: u32, y: u32, f: u32) -> At
    requires { (x < GREATEST_AXIS) × (y < GREATEST_AXIS) × (f < GREATEST_AXIS) }
    ensures { result ≡ spot x y f }
{
    At {
        x: x as i32,
        y: y as i32,
        f: f as i32,
    }
}

/// How many cells come before the one that a step leads to from the first, in raster order, in a box of a
/// size. It isn't tested whether the cell is in such a box.
#[inline(always)]
pub(crate) fn entries_before(size: Size, step: At) -> usize
    requires rows { HasShortRows size }
    requires step { IsCellStep step }
    ensures { (x y f : ℕ) → step ≡ spot x y f → result ≡ raster_index size x y f }
{
    let (x, y, f) = (step.x as usize, step.y as usize, step.f as usize);
    x + size.w as usize * (y + size.h as usize * f)
}

/// The bytes of a cell of a row, by its number in it.
pub(crate) fn cell_of(row: &[u8], k: usize, x: usize) -> &[u8]
    requires { k * x + k ≤ length row.now }
    ensures bytes { result.now ≡ take k (drop (k * x) row.now) }
    ensures long { length result.now ≡ k }
{
    let start = k * x;
    &row[start..start + k]
}

/// The sum of the bytes of a row.
pub(crate) fn byte_sum(bytes: &[u8]) -> u16
    requires { 255 * length bytes.now < 2 ^ 16 }
    ensures sum { result ≡ sum bytes.now }
    ensures small { result ≤ 255 * length bytes.now }
{
    let mut sum = 0;
    for byte in bytes {
        sum += u16::from(*byte);
    }
    sum
}
