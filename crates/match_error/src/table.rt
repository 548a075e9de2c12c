// How many cells are filled, summed up once for many boxes.
ghost use Rattle.std.specs.Prelude.{◌≡◌, ◌≤◌, ◌<◌, ◌+◌, ◌*◌, ◌+ℤ◌, pos, ℕ, IfOk, IfSome, OnOk, length, slice_index};
ghost use Rattle.cells.specs.Boxes.{HoldsBox, cell_in};
ghost use Rattle.cells.specs.Places.{cell_count};
ghost use Rattle.map_canvas.specs.Maps.{map_at};
ghost use Rattle.boxes.specs.Sums.{sum_to};
ghost use Rattle.match_error.specs.Errors.{filled_cells, one_filled};
ghost use Rattle.match_error.specs.Runs.{IsInRow};
ghost use Rattle.match_error.specs.Tables.{AreFilledCounts, AreMoreEntries, filled_before, one_in_row};

use crate::counts::filled_count;
use crate::rows::step_to;
use cells::{Box3, Size};
use limits::{GREATEST_AXIS, MOST_CELLS};
use map_canvas::Canvas;
use std::alloc::{AllocError, Global};

/// How many cells of a box of the output are filled, summed up as far as each of its cells. They serve
/// the counts of all boxes, as long as the canvas stays as it is.
#[derive(Drop)]
pub struct FilledCounts {
    rect: Box3,
    // for each row of all frames, and one more: of the rows before it, how many of the first 0, 1, .. w
    // cells are filled
    entries: Vec<u32>,
}

// 1 for a filled cell of the box.
fn one_filled(canvas: &Canvas, rect: &Box3, x: u32, y: u32, f: u32) -> u32
    requires inside { HoldsBox canvas.now.map.size rect.now.corner rect.now.size }
    requires row { IsInRow rect.now (x + 1) y f }
    ensures { result ≡ one_filled (map_at canvas.now.map (cell_in rect.now x y f)) }
{
    // Called for its contract only: it shows the prover that this is a canvas.
    let _picture = canvas.picture();
    if canvas.is_filled(rect.corner.plus(step_to(x, y, f))) {
        return 1;
    }
    0
}

// The entries of one more row: those from `above` on, and the filled cells of a row of the box added.
fn add_row(
    entries: &mut Vec<u32>,
    canvas: &Canvas,
    rect: &Box3,
    above: usize,
    y: u32,
    f: u32,
) -> Result<(), AllocError>
    requires inside { HoldsBox canvas.now.map.size rect.now.corner rect.now.size }
    requires row { IsInRow rect.now 0 y f }
    requires above { length entries.old.items ≡ above + (rect.now.size.w + 1) }
    requires small { (x : ℕ) → x ≤ rect.now.size.w →
        slice_index entries.old.items (above + x) ≤ MOST_CELLS }
    ensures { OnOk result (AreMoreEntries canvas.now.map rect.now above y f
        entries.old.items entries.new.items) }
{
    // The map is taken for its contract only: it shows the prover that its size is small.
    let _map = canvas.map();
    let mut filled = 0;
    entries.push(entries[above])?;
    for x in 0..rect.size.w {
        filled += one_filled(canvas, rect, x, y, f);
        let before = entries.as_slice()[above + 1 + x as usize];
        entries.push(before + filled)?;
    }
    Ok(())
}

/// How many cells a run along one axis begins after another that it lies in; None where it doesn't.
pub(crate) fn step_in(corner: i32, len: u32, outer: i32, n: u32) -> Option<u32>
    ensures step { IfSome result (λ step. corner ≡ outer +ℤ pos step) }
    ensures room { IfSome result (λ step. step + len ≤ n) }
{
    let step = i64::from(corner) - i64::from(outer);
    if step < 0 || step + i64::from(len) > i64::from(n) {
        return None;
    }
    Some(step as u32)
}

impl FilledCounts {
    /// The counts of a box inside the output. They take 4 bytes a cell, and as many for one more row and
    /// column. The one error is out of memory.
    pub fn make(alloc: Global, canvas: &Canvas, rect: &Box3) -> Result<FilledCounts, AllocError>
        requires inside { HoldsBox canvas.now.map.size rect.now.corner rect.now.size }
        ensures { IfOk result (AreFilledCounts canvas.now.map) }
    {
        // The map is taken for its contract only: it shows the prover that its size is small.
        let _map = canvas.map();
        let h = rect.size.h;
        let across = rect.size.w as usize + 1;
        let mut entries = vec![in alloc; 0u32; across]?;
        for row in 0..h * rect.size.f {
            add_row(
                &mut entries,
                canvas,
                rect,
                across * row as usize,
                row % h,
                row / h,
            )?;
        }
        Ok(FilledCounts {
            rect: *rect,
            entries,
        })
    }

    // The filled cells among the first x columns of the first rows.
    fn before(&self, canvas: &Canvas, x: u32, row: u32) -> u32
        requires counts { AreFilledCounts canvas.now.map self.now }
        requires column { x ≤ self.now.rect.size.w }
        requires row { row ≤ self.now.rect.size.h * self.now.rect.size.f }
        ensures count { result ≡ filled_before canvas.now.map self.now.rect x row }
        ensures small { result ≤ MOST_CELLS }
    {
        // The map is taken for its contract only: it shows the prover that its size is small.
        let _map = canvas.map();
        let across = self.rect.size.w as usize + 1;
        let entries = self.entries.as_slice();
        entries[across * row as usize + x as usize]
    }

    // The filled cells among w columns from one on and h rows from one on.
    fn row_count(&self, canvas: &Canvas, x: u32, row: u32, w: u32, h: u32) -> u32
        requires counts { AreFilledCounts canvas.now.map self.now }
        requires columns { x + w ≤ self.now.rect.size.w }
        requires rows { row + h ≤ self.now.rect.size.h * self.now.rect.size.f }
        ensures count { result ≡ sum_to h (λ j. sum_to w (λ i.
            one_in_row canvas.now.map self.now.rect (x + i) (row + j))) }
        ensures small { result ≤ w * h }
    {
        // The map is taken for its contract only: it shows the prover that its size is small.
        let _map = canvas.map();
        let inner = self.before(canvas, x, row);
        let right = self.before(canvas, x + w, row);
        let below = self.before(canvas, x, row + h);
        let outer = self.before(canvas, x + w, row + h);
        outer + inner - (right + below)
    }

    // The filled cells of a box of this size, from counts from the corner on.
    fn box_count(&self, canvas: &Canvas, size: Size, x: u32, y: u32, f: u32) -> u32
        requires counts { AreFilledCounts canvas.now.map self.now }
        requires columns { x + size.w ≤ self.now.rect.size.w }
        requires rows { y + size.h ≤ self.now.rect.size.h }
        requires frames { f + size.f ≤ self.now.rect.size.f }
        ensures { result ≡ sum_to size.f (λ k. sum_to size.h (λ j. sum_to size.w (λ i.
            one_in_row canvas.now.map self.now.rect (x + i)
            (y + self.now.rect.size.h * (f + k) + j)))) }
    {
        // The map is taken for its contract only: it shows the prover that its size is small.
        let _map = canvas.map();
        let mut count = 0;
        for k in 0..size.f {
            let row = y + self.rect.size.h * (f + k);
            count += self.row_count(canvas, x, row, size.w, size.h);
        }
        count
    }

    /// How many cells of a box inside the output are filled. Where the box lies in that of the counts, no
    /// cell of it is looked at.
    pub fn count(&self, canvas: &Canvas, rect: &Box3) -> u32
        requires counts { AreFilledCounts canvas.now.map self.now }
        requires inside { HoldsBox canvas.now.map.size rect.now.corner rect.now.size }
        ensures count { result ≡ filled_cells canvas.now.map rect.now }
        ensures small { result ≤ cell_count rect.now.size }
    {
        let Box3 { corner, size } = self.rect;
        let x = step_in(rect.corner.x, rect.size.w, corner.x, size.w);
        let y = step_in(rect.corner.y, rect.size.h, corner.y, size.h);
        let f = step_in(rect.corner.f, rect.size.f, corner.f, size.f);
        match (x, y, f) {
            (Some(x), Some(y), Some(f)) => self.box_count(canvas, rect.size, x, y, f),
            _ => filled_count(canvas, rect),
        }
    }
}
