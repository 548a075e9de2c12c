// Worked examples of patch_place: the steps of each mode over a row.
ghost use Rattle.std.specs.Prelude.{IsTrue};
ghost use Rattle.map_canvas.specs.Canvases.{StandsOver};
ghost use Rattle.patch_picks.specs.Fitting.{HasPatch};

use crate::cases::{Case, Over, Step};
use crate::samples::{GREYS, SIX};
use cells::Volume;
use map_canvas::Canvas;
use patch_picks::{Draws, Mode};
use patch_place::next_placement;
use std::alloc::{AllocError, Global};

const GRID: Mode = Mode::Grid { overlap: 1 };

const WHOLE: Mode = Mode::Whole { tol: 0 };

const BROAD: Mode = Mode::Sub {
    side: 3,
    overlap: 2,
    tol: 0,
};

// Three cells from the second on, with sources from the second on.
const LATER: Option<(i32, u32, i32, i32)> = Some((0, 3, 1, 0));

const COPY: Option<(i32, u32, i32, i32)> = Some((0, 4, 0, 0));

const MOVED: Option<(i32, u32, i32, i32)> = Some((1, 4, 0, 0));

const SHORT: Option<(i32, u32, i32, i32)> = Some((0, 3, 0, 0));

// Over an empty row, over one of 20 and 10, and over a full one. The draws of numbers 0 and 1 are 0 and 1 of 2; the draw
// of number 2^64 - 1 is 1 of 2, and number 0 comes after it. The sample laid from cell 2 on covers no filled cell, so
// mode `Whole` always lays it from cell 1 on. Over the full row no step is left, and none is drawn.
pub(crate) const STEPS: &[Case<'static>] = &[
    (GREYS, SIX, &[], Over::Step(GRID, 1, (COPY, 1))),
    (GREYS, SIX, &[], Over::Step(Mode::Random, 1, (LATER, 2))),
    (GREYS, SIX, &[], Over::Step(WHOLE, 1, (LATER, 2))),
    (GREYS, SIX, &[], Over::Step(WHOLE, 0, (COPY, 1))),
    (GREYS, SIX, &[], Over::Step(BROAD, 1, (LATER, 2))),
    (GREYS, SIX, &[], Over::Step(BROAD, u64::MAX, (LATER, 0))),
    (GREYS, SIX, &[1, 0], Over::Step(GRID, 1, (COPY, 1))),
    (GREYS, SIX, &[1, 0], Over::Step(Mode::Random, 1, (MOVED, 2))),
    (GREYS, SIX, &[1, 0], Over::Step(WHOLE, 1, (MOVED, 2))),
    (GREYS, SIX, &[1, 0], Over::Step(WHOLE, 0, (MOVED, 1))),
    (GREYS, SIX, &[1, 0], Over::Step(BROAD, 1, (SHORT, 2))),
    (GREYS, SIX, &[1, 0], Over::Step(BROAD, u64::MAX, (SHORT, 0))),
    (
        GREYS,
        SIX,
        &[1, 0, 0, 0, 3, 2],
        Over::Step(Mode::Random, 9, (None, 9)),
    ),
];

/// Whether the patches that a mode takes have a cell.
pub(crate) fn has_patch(mode: &Mode) -> bool
    ensures { IsTrue result → HasPatch mode.now }
{
    match mode {
        Mode::Grid { .. } | Mode::Random | Mode::Whole { .. } => true,
        Mode::Sub { side, .. } => *side > 0,
    }
}

/// The step by the draw of a number.
pub(crate) fn step_at(
    alloc: Global,
    mode: &Mode,
    canvas: &Canvas,
    sample: &Volume,
    number: u64,
) -> Result<Step, AllocError>
    requires over { StandsOver canvas.now sample.now }
    requires patch { HasPatch mode.now }
{
    let mut draws = Draws::from_seed(0);
    draws.go_to(number);
    let next = next_placement(alloc, mode, canvas, sample, &mut draws)?;
    let step = next.map(|p| (p.rect.corner.x, p.rect.size.w, p.from.x, p.from.f));
    Ok((step, draws.place()))
}

pub(crate) fn is_step(
    alloc: Global,
    mode: &Mode,
    canvas: &Canvas,
    sample: &Volume,
    number: u64,
    step: &Step,
) -> Result<bool, AllocError>
    requires { StandsOver canvas.now sample.now }
{
    if !has_patch(mode) {
        return Ok(false);
    }
    Ok(step_at(alloc, mode, canvas, sample, number)? == *step)
}
