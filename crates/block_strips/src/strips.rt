// The errors of strips.
ghost use Rattle.std.specs.Prelude.{◌≡◌, ◌≤◌, ◌<◌, ◌*◌, IfOk, Some, length};
ghost use Rattle.cells.specs.Cells.{HasCell};
ghost use Rattle.cells.specs.Places.{SumFits, plus, spot};
ghost use Rattle.lane_kernels.specs.Sums.{squared_difference, sum_of_squared_differences};
ghost use Rattle.map_canvas.specs.Maps.{sample_cell};
ghost use Rattle.map_canvas.specs.Canvases.{StandsOver};
ghost use Rattle.map_canvas.specs.Choices.{Fits};
ghost use Rattle.map_canvas.specs.CellErrors.{spot_error};
ghost use Rattle.block_strips.specs.Strips.{most_cols, strip_error, strip_of, strip_rows};

use crate::Side;
use cells::{At, Volume};
use limits::GREATEST_AXIS;
use map_canvas::{Canvas, Placement};
use std::alloc::{AllocError, Global};
use strip_boundary::{GREATEST_ERROR, Strip};

// The place that is so many columns and rows from another.
fn place_from(corner: At, x: u32, y: u32) -> At
    requires counts { (x < GREATEST_AXIS) × (y < GREATEST_AXIS) }
    requires fits { SumFits corner (spot x y 0) }
    ensures { result ≡ plus corner (spot x y 0) }
{
    let step = At {
        x: x as i32,
        y: y as i32,
        f: 0,
    };
    corner.plus(step)
}

// The samples of a place that has a cell.
fn cell_of(sample: &Volume, at: At) -> &[u8]
    requires { HasCell sample.now at }
    ensures bytes { result.now ≡ sample_cell sample.now (Some at) }
    ensures samples { length result.now ≡ sample.now.k }
{
    sample.cell(at).unwrap()
}

// The square of the difference of two bytes.
#[inline(always)]
fn square(a: u8, b: u8) -> u32
    ensures is { result ≡ squared_difference (a, b) }
    ensures small { result ≤ 255 * 255 }
{
    let apart = u32::from(a.abs_diff(b));
    apart * apart
}

// The sum of the squared differences of the three samples of two cells, without a loop.
#[inline(always)]
fn squares(a: &[u8], b: &[u8]) -> u32
    requires lengths { (length a.now ≡ 3) × (length b.now ≡ 3) }
    ensures sum { result ≡ sum_of_squared_differences a.now b.now }
    ensures small { result ≤ GREATEST_ERROR }
{
    match (a, b) {
        ([a0, a1, a2], [b0, b1, b2]) => square(*a0, *b0) + square(*a1, *b1) + square(*a2, *b2),
        _ => unreachable!(),
    }
}

// The squared difference of what is at a cell of a block, by its column and row, and what comes
// there; 0 where nothing is there.
#[inline(always)]
fn error_at(canvas: &Canvas, sample: &Volume, placement: &Placement, x: u32, y: u32) -> u32
    requires over { StandsOver canvas.now sample.now }
    requires samples { sample.now.k ≡ 3 }
    requires fits { Fits canvas.now.map.size sample.now placement.now }
    requires counts { (x < placement.now.rect.size.w) × (y < placement.now.rect.size.h) }
    ensures error { result ≡ spot_error canvas.now.map sample.now placement.now x y 0 }
    ensures small { result ≤ GREATEST_ERROR }
{
    // Called for its contract only: it shows the prover that the sample is a volume.
    let _samples = sample.samples();
    let map = canvas.map();
    let Some(old) = map.at(place_from(placement.rect.corner, x, y)) else {
        return 0;
    };
    let new = place_from(placement.from, x, y);
    squares(cell_of(sample, old), cell_of(sample, new))
}

// The error of a strip cell.
fn strip_error(
    canvas: &Canvas,
    sample: &Volume,
    placement: &Placement,
    side: Side,
    row: u32,
    col: u32,
) -> u32
    requires over { StandsOver canvas.now sample.now }
    requires samples { sample.now.k ≡ 3 }
    requires fits { Fits canvas.now.map.size sample.now placement.now }
    requires row { row < strip_rows side placement.now.rect.size }
    requires col { col < most_cols side placement.now.rect.size }
    ensures error { result ≡ strip_error side canvas.now.map sample.now placement.now row col }
    ensures small { result ≤ GREATEST_ERROR }
{
    match side {
        Side::Left => error_at(canvas, sample, placement, col, row),
        Side::Top => error_at(canvas, sample, placement, row, col),
    }
}

/// A strip of a block, with so many strip columns, over what is there before the block: the squared
/// differences of the output's cells from those of the block. The one error is out of memory.
pub fn strip_of(
    alloc: Global,
    canvas: &Canvas,
    sample: &Volume,
    placement: &Placement,
    side: Side,
    cols: u32,
) -> Result<Strip, AllocError>
    requires over { StandsOver canvas.now sample.now }
    requires samples { sample.now.k ≡ 3 }
    requires fits { Fits canvas.now.map.size sample.now placement.now }
    requires some { 1 ≤ cols }
    requires most { cols ≤ most_cols side placement.now.rect.size }
    ensures { IfOk result (λ strip. strip
        ≡ strip_of side canvas.now.map sample.now placement.now cols) }
{
    // Called for its contract only: it shows the prover that this is a map.
    let _map = canvas.map();
    let rows = side.rows(placement.rect.size);
    let count = rows * cols;
    let mut errors = Vec::with_capacity(alloc, count as usize)?;
    for i in 0..count {
        let error = strip_error(canvas, sample, placement, side, i / cols, i % cols);
        errors.push_reserved(error);
    }
    Ok(Strip::from_vec(rows, cols, errors))
}
