// How many cells of a box are filled.
ghost use Rattle.std.specs.Prelude.{◌≡◌, ◌≤◌, ◌<◌, ◌*◌, length, sum};
ghost use Rattle.cells.specs.Boxes.{HoldsBox};
ghost use Rattle.cells.specs.Places.{cell_count, plus, spot};
ghost use Rattle.map_canvas.specs.Maps.{map_at};
ghost use Rattle.boxes.specs.Sums.{sum_to};
ghost use Rattle.match_error.specs.Errors.{filled_cells, one_filled};

use crate::rows::row_start;
use cells::Box3;
use limits::{GREATEST_AXIS, MOST_CHANNELS};
use map_canvas::Canvas;

// The sum of the marks of a row of cells.
fn mark_sum(marks: &[u8]) -> u32
    requires { length marks.now ≤ MOST_CHANNELS * GREATEST_AXIS }
    ensures { result ≡ sum marks.now }
{
    marks.iter().map(|mark| u32::from(*mark)).sum()
}

// The filled cells of a row of the box. Each has k marks of 1, and the others have marks of 0.
fn row_count(canvas: &Canvas, rect: &Box3, y: u32, f: u32) -> u32
    requires inside { HoldsBox canvas.now.map.size rect.now.corner rect.now.size }
    requires counts { (1 ≤ rect.now.size.w) × (y < rect.now.size.h) × (f < rect.now.size.f) }
    ensures count { result ≡ sum_to rect.now.size.w
        (λ x. one_filled (map_at canvas.now.map (plus rect.now.corner (spot x y f)))) }
    ensures small { result ≤ rect.now.size.w }
{
    let samples = canvas.picture().samples();
    let at = row_start(rect.corner, y, f);
    mark_sum(canvas.filled_row(at, rect.size.w)) / samples
}

// The filled cells of a frame of the box.
fn frame_count(canvas: &Canvas, rect: &Box3, f: u32) -> u32
    requires inside { HoldsBox canvas.now.map.size rect.now.corner rect.now.size }
    requires counts { (1 ≤ rect.now.size.w) × (f < rect.now.size.f) }
    ensures count { result ≡ sum_to rect.now.size.h
        (λ y. sum_to rect.now.size.w (λ x.
        one_filled (map_at canvas.now.map (plus rect.now.corner (spot x y f))))) }
    ensures small { result ≤ rect.now.size.w * rect.now.size.h }
{
    // The map is taken for its contract only: it shows the prover that its size is small.
    let _map = canvas.map();
    let mut count = 0;
    for y in 0..rect.size.h {
        count += row_count(canvas, rect, y, f);
    }
    count
}

/// How many cells of a box inside the output are filled.
pub fn filled_count(canvas: &Canvas, rect: &Box3) -> u32
    requires inside { HoldsBox canvas.now.map.size rect.now.corner rect.now.size }
    ensures count { result ≡ filled_cells canvas.now.map rect.now }
    ensures small { result ≤ cell_count rect.now.size }
{
    // A box without columns may lie past the last one, where there is no row to read.
    if rect.size.w == 0 {
        return 0;
    }
    // The map is taken for its contract only: it shows the prover that its size is small.
    let _map = canvas.map();
    let mut count = 0;
    for f in 0..rect.size.f {
        count += frame_count(canvas, rect, f);
    }
    count
}
