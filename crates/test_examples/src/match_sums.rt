// Worked examples of match_error.
ghost use Rattle.map_canvas.specs.Canvases.{StandsOver};

use crate::cases::{Case, Over};
use crate::samples::{GREYS, SIX, fits, laid_at};
use cells::Volume;
use map_canvas::Canvas;
use match_error::{Error, overlap_error, within};

// Over an empty row, and over one of which two cells of the box are filled, with 30 and 40 where the sample has 10 and
// 20. Then which errors are within a tolerance of that one.
pub(crate) const ERRORS: &[Case<'static>] = &[
    (GREYS, SIX, &[], Over::Error(0, 0)),
    (GREYS, SIX, &[0, 1, 2, 3], Over::Error(2400, 2)),
    (GREYS, SIX, &[0, 1, 2, 3], Over::Within(10, 2640, 2, true)),
    (GREYS, SIX, &[0, 1, 2, 3], Over::Within(10, 2641, 2, false)),
    (GREYS, SIX, &[0, 1, 2, 3], Over::Within(10, 1320, 1, true)),
    (GREYS, SIX, &[0, 1, 2, 3], Over::Within(10, 1321, 1, false)),
    (GREYS, SIX, &[0, 1, 2, 3], Over::Within(10, 3960, 3, true)),
    (GREYS, SIX, &[0, 1, 2, 3], Over::Within(0, 2400, 2, true)),
    (GREYS, SIX, &[0, 1, 2, 3], Over::Within(0, 2401, 2, false)),
];

pub(crate) fn is_error(canvas: &Canvas, sample: &Volume, sum: u64, count: u32) -> bool
    requires { StandsOver canvas.now sample.now }
{
    let placement = laid_at(2, 4);
    if !fits(canvas, sample, &placement) {
        return false;
    }
    let found = overlap_error(canvas, sample, &placement);
    found.sum == sum && found.count == count
}

pub(crate) fn is_within(
    canvas: &Canvas,
    sample: &Volume,
    tol: u32,
    sum: u64,
    count: u32,
    holds: bool,
) -> bool
    requires { StandsOver canvas.now sample.now }
{
    let placement = laid_at(2, 4);
    if !fits(canvas, sample, &placement) {
        return false;
    }
    let best = overlap_error(canvas, sample, &placement);
    best.count >= 1
        && count >= 1
        && sum < 9_999
        && within(tol, &best, &Error { sum, count }) == holds
}
