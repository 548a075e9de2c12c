// The filled cells of the rows of a box as runs along X, gathered once for the sums of many boxes.
ghost use Rattle.std.specs.Prelude.{◌≡◌, ◌≤◌, ◌<◌, ◌*◌, ◌-◌, ◌/◌, ◌%◌, IfOk, IfSome, OnOk, drop, length, take};
ghost use Rattle.cells.specs.Boxes.{HoldsBox};
ghost use Rattle.match_error.specs.Rows.{AreFilledRows, AreLaidRuns, AreMoreRuns, AreRunsOf, IsFilledAt, IsInset};
ghost use Rattle.match_error.specs.Runs.{IsInRow};

use crate::gathered::filled_from;
use crate::rows::step_to;
use crate::table::step_in;
use cells::Box3;
use map_canvas::Canvas;
use std::alloc::{AllocError, Global};

/// A run of filled cells of a row of the box.
#[derive(Clone, Copy, Drop)]
pub(crate) struct RowRun {
    // the column of its first cell, counted from the box's corner
    pub(crate) first: u32,
    // and that after its last one
    pub(crate) end: u32,
}

/// How far a box is in another: from corner to corner.
#[derive(Clone, Copy, Drop)]
pub(crate) struct Inset {
    pub(crate) x: u32,
    pub(crate) y: u32,
    pub(crate) f: u32,
}

/// The filled cells of a box of the output, as runs along X, row by row. They serve the overlap errors of
/// all placements whose boxes lie in it, as long as the canvas stays as it is.
#[derive(Drop)]
pub struct FilledRows {
    rect: Box3,
    // for each row of all frames, how many runs the rows before it have; and at the end, how many all have
    starts: Vec<usize>,
    // of all rows, one after another
    runs: Vec<RowRun>,
}

// The runs of a row of the box, put after others.
fn add_row(
    runs: &mut Vec<RowRun>,
    canvas: &Canvas,
    rect: &Box3,
    y: u32,
    f: u32,
) -> Result<(), AllocError>
    requires inside { HoldsBox canvas.now.map.size rect.now.corner rect.now.size }
    requires row { IsInRow rect.now 0 y f }
    ensures { OnOk result (AreMoreRuns (IsFilledAt canvas.now.map rect.now y f) rect.now.size.w
        runs.old.items runs.new.items) }
{
    // Called for its contract only: it shows the prover that this is a canvas.
    let _picture = canvas.picture();
    let w = rect.size.w;
    let mut x = 0;
    'cells: while x < w {
        let n = filled_from(canvas, rect.corner.plus(step_to(x, y, f)), w - x);
        if n > 0 {
            runs.push(RowRun {
                first: x,
                end: x + n,
            })?;
            x += n;
        } else {
            x += 1;
        }
    }
    Ok(())
}

impl FilledRows {
    /// The filled cells of a box inside the output. They take 8 bytes for each run of filled cells of a
    /// row, and 8 for each row. The one error is out of memory.
    pub fn gather(alloc: Global, canvas: &Canvas, rect: &Box3) -> Result<FilledRows, AllocError>
        requires inside { HoldsBox canvas.now.map.size rect.now.corner rect.now.size }
        ensures { IfOk result (AreFilledRows canvas.now.map) }
    {
        // The map is taken for its contract only: it shows the prover that its size is small.
        let _map = canvas.map();
        let h = rect.size.h;
        let mut starts = Vec::new(alloc);
        starts.push(0)?;
        let mut runs = Vec::new(alloc);
        for row in 0..h * rect.size.f {
            add_row(&mut runs, canvas, rect, row % h, row / h)?;
            let end = runs.as_slice().len();
            starts.push(end)?;
        }
        Ok(FilledRows {
            rect: *rect,
            starts,
            runs,
        })
    }

    /// How far another box is in theirs; None where it doesn't lie in it.
    pub(crate) fn inset_of(&self, rect: &Box3) -> Option<Inset>
        ensures { IfSome result (IsInset self.now.rect rect.now) }
    {
        let Box3 { corner, size } = self.rect;
        let across = step_in(rect.corner.x, rect.size.w, corner.x, size.w)?;
        let down = step_in(rect.corner.y, rect.size.h, corner.y, size.h)?;
        let frames = step_in(rect.corner.f, rect.size.f, corner.f, size.f)?;
        Some(Inset {
            x: across,
            y: down,
            f: frames,
        })
    }

    /// The runs of that row in which a row of another box lies, which is so far in theirs. Its row
    /// begins at column `inset.x` of the runs.
    pub(crate) fn runs_of(
        &self,
        canvas: &Canvas,
        rect: &Box3,
        inset: Inset,
        y: u32,
        f: u32,
    ) -> &[RowRun]
        requires rows { AreFilledRows canvas.now.map self.now }
        requires inset { IsInset self.now.rect rect.now inset }
        requires row { (y < rect.now.size.h) × (f < rect.now.size.f) }
        ensures { AreLaidRuns canvas.now.map rect.now inset.x y f result.now }
    {
        // The map is taken for its contract only: it shows the prover that its size is small.
        let _map = canvas.map();
        let row = inset.y + self.rect.size.h * (inset.f + f) + y;
        let starts = self.starts.as_slice();
        let start = starts[row as usize];
        let end = starts[row as usize + 1];
        &self.runs.as_slice()[start..end]
    }
}
