// Steps of tiling one by one, and outputs laid twice along each axis on which their edges meet.
ghost use Rattle.std.specs.Prelude.{◌≤◌, IsTrue};
ghost use Rattle.cells.specs.Places.{IsSmall};
ghost use Rattle.job_words.specs.TileWords.{IsWide};
ghost use Rattle.map_canvas.specs.Canvases.{StandsOver};

use crate::cases::{Case, Over};
use crate::samples::{
    Sample, Source, THREE, TWO_GREYS, UNFILLED, canvas_over, has_sources, is_one_part, is_size, put,
};
use cells::{At, Size, Volume};
use costs::total;
use job_words::{TilePlan, Wrap};
use map_canvas::Canvas;
use patch_picks::Draws;
use std::alloc::{AllocError, Global};
use tile_run::{next_tile, tile_canvas};
use torus::{RunPlan, torus_total};

const ACROSS: Wrap = Wrap {
    x: true,
    y: false,
    f: false,
};

const BOTH: Wrap = Wrap {
    x: true,
    y: true,
    f: false,
};

const ALL: Wrap = Wrap {
    x: true,
    y: true,
    f: true,
};

const GREEDY: TilePlan = TilePlan {
    wrap: ACROSS,
    side: 32,
    overlap: 8,
    tol: 10,
};

const LONGEST: TilePlan = TilePlan {
    wrap: ACROSS,
    side: 4096,
    overlap: 0,
    tol: 0,
};

const LONG: Size = Size {
    w: 4096,
    h: 1,
    f: 1,
};

pub(crate) const TILES: &[Case<'static>] = &[
    // Over two greys the first patch has the cells 2 and 0 of a row of three, and the second the cells 0 and 1, of
    // which the first is kept. Then the row is full, and stays as it is.
    (
        TWO_GREYS,
        THREE,
        &[],
        Over::Tile(GREEDY, 0, Some((2, 2, 0)), &[(1, 0), UNFILLED, (0, 0)]),
    ),
    (
        TWO_GREYS,
        THREE,
        &[1, -1, 0],
        Over::Tile(GREEDY, 1, Some((0, 2, 0)), &[(1, 0), (1, 0), (0, 0)]),
    ),
    (
        TWO_GREYS,
        THREE,
        &[1, 1, 0],
        Over::Tile(GREEDY, 2, None, &[(1, 0), (1, 0), (0, 0)]),
    ),
    // A patch of the longest axis is cut to two cells less than a volume may have. The draw of number 0 is 0 of 3.
    (
        ((LONG, 1, &[]), None),
        LONG,
        &[],
        Over::Tile(LONGEST, 0, Some((0, 4094, 0)), &[(0, 0)]),
    ),
];

// Whether the axes on which edges meet have three cells or more.
fn is_wide(wrap: &Wrap, size: Size) -> bool
    ensures { IsTrue result → IsWide wrap.now size }
{
    if wrap.x && size.w < 3 {
        return false;
    }
    if wrap.y && size.h < 3 {
        return false;
    }
    !wrap.f || size.f >= 3
}

/// Whether the step by the draw of a number lays this patch, and leaves these sources. A patch takes one draw.
pub(crate) fn is_tile(
    alloc: Global,
    plan: &TilePlan,
    canvas: &mut Canvas,
    sample: &Volume,
    number: u64,
    patch: Option<(i32, u32, i32)>,
    sources: &[Source],
) -> Result<bool, AllocError>
    requires { StandsOver canvas.old sample.now }
{
    let size = canvas.map().size();
    if !is_size(size) || !is_wide(&plan.wrap, size) || plan.side < 1 || !is_one_part(sample) {
        return Ok(false);
    }
    let mut draws = Draws::from_seed(0);
    draws.go_to(number);
    let laid = next_tile(alloc, plan, canvas, sample, &mut draws)?;
    let found = laid.map(|it| (it.rect.corner.x, it.rect.size.w, it.from.x));
    let drawn = draws.place().wrapping_sub(number);
    Ok(found == patch && drawn == u64::from(patch.is_some()) && has_sources(canvas, sources))
}

const ROW: RunPlan = RunPlan {
    size: Size { w: 5, h: 1, f: 1 },
    tile: TilePlan {
        wrap: ACROSS,
        side: 3,
        overlap: 1,
        tol: 10,
    },
    seed: 0,
};

const ROW_OF_TWO: RunPlan = RunPlan {
    size: Size { w: 6, h: 1, f: 1 },
    tile: TilePlan {
        wrap: ACROSS,
        side: 3,
        overlap: 0,
        tol: 10,
    },
    seed: 0,
};

const PICTURE: RunPlan = RunPlan {
    size: Size { w: 5, h: 4, f: 1 },
    tile: TilePlan {
        wrap: BOTH,
        side: 3,
        overlap: 1,
        tol: 10,
    },
    seed: 0,
};

const PICTURE_OF_FOUR: RunPlan = RunPlan {
    size: Size { w: 6, h: 6, f: 1 },
    tile: TilePlan {
        wrap: BOTH,
        side: 3,
        overlap: 0,
        tol: 10,
    },
    seed: 0,
};

const CLIP: RunPlan = RunPlan {
    size: Size { w: 3, h: 3, f: 3 },
    tile: TilePlan {
        wrap: ALL,
        side: 2,
        overlap: 1,
        tol: 10,
    },
    seed: 0,
};

const CLIP_OF_EIGHT: RunPlan = RunPlan {
    size: Size { w: 4, h: 4, f: 4 },
    tile: TilePlan {
        wrap: ALL,
        side: 2,
        overlap: 0,
        tol: 10,
    },
    seed: 0,
};

const NINE: &[u8] = &[0, 10, 50, 30, 70, 100, 20, 60, 90];

const NINE_IN_A_ROW: Sample<'static> = ((Size { w: 9, h: 1, f: 1 }, 1, NINE), None);

const NINE_IN_A_SQUARE: Sample<'static> = ((Size { w: 3, h: 3, f: 1 }, 1, NINE), None);

const CUBE: Sample<'static> = (
    (
        Size { w: 3, h: 3, f: 3 },
        1,
        &[
            3, 200, 7, 90, 41, 250, 130, 18, 77, 5, 160, 222, 31, 99, 64, 180, 12, 245, 53, 140,
            71, 9, 210, 35, 118, 27, 66,
        ],
    ),
    None,
);

// Each output is laid twice along each axis on which its edges meet. A row of five over nine greys in a row, a picture of
// them in a square, and a clip of three frames. Where patches overlap, one lies across each edge and closes it; where
// they don't, the edges are theirs, and cost something.
pub(crate) const TWICE: &[Case<'static>] = &[
    (
        NINE_IN_A_ROW,
        THREE,
        &[],
        Over::Twice(ROW, Size { w: 10, h: 1, f: 1 }, 1, false),
    ),
    (
        NINE_IN_A_ROW,
        THREE,
        &[],
        Over::Twice(ROW_OF_TWO, Size { w: 12, h: 1, f: 1 }, 1, true),
    ),
    (
        NINE_IN_A_SQUARE,
        THREE,
        &[],
        Over::Twice(PICTURE, Size { w: 10, h: 8, f: 1 }, 2, false),
    ),
    (
        NINE_IN_A_SQUARE,
        THREE,
        &[],
        Over::Twice(PICTURE_OF_FOUR, Size { w: 12, h: 12, f: 1 }, 2, true),
    ),
    (
        CUBE,
        THREE,
        &[],
        Over::Twice(CLIP, Size { w: 6, h: 6, f: 6 }, 4, false),
    ),
    (
        CUBE,
        THREE,
        &[],
        Over::Twice(CLIP_OF_EIGHT, Size { w: 8, h: 8, f: 8 }, 4, true),
    ),
];

// A coordinate of what is laid twice along an axis of n cells, in the first of the two.
fn in_first(z: i32, n: u32) -> i32 {
    if z < 0 || (z as u32) < n {
        z
    } else {
        (z as u32 - n) as i32
    }
}

// Gives a cell of what is laid the source that its output has.
fn lay_cell(laid: &mut Canvas, output: &Canvas, sample: &Volume, i: usize)
    requires { StandsOver laid.old sample.now }
    ensures { StandsOver laid.new sample.now }
{
    let size = output.map().size();
    let twice = laid.map().size();
    if i >= twice.cells() {
        return;
    }
    let p = twice.place_at(i);
    let from = output.map().at(At {
        x: in_first(p.x, size.w),
        y: in_first(p.y, size.h),
        f: in_first(p.f, size.f),
    });
    if let Some(from) = from {
        put(laid, sample, p, from);
    }
}

// The plain total of an output that is laid twice along each axis on which it has half as many cells as asked for.
fn laid_twice(
    alloc: Global,
    output: &Canvas,
    sample: &Volume,
    twice: Size,
) -> Result<u64, AllocError>
    requires { IsSmall twice }
{
    let mut laid = canvas_over(alloc, twice, sample)?;
    'cells: for i in 0..twice.cells() {
        lay_cell(&mut laid, output, sample, i);
    }
    Ok(total(&laid, sample))
}

// Whether the plain total of what is laid twice is this share of an output's plain total and torus total together, and
// whether its edges cost something.
fn is_share(plain: u64, torus: u64, whole: u64, half: u64, cost: bool) -> bool
    requires { 1 ≤ half }
{
    let both = u128::from(plain) + u128::from(torus);
    let is_share = whole % half == 0 && u128::from(whole / half) == both;
    plain <= torus && (plain < torus) == cost && is_share
}

/// Tiles an output and lays it twice along each axis on which its edges meet. Each edge lies between two copies as often as
/// half the copies are, so that the plain total of what is laid is that share of the copies' plain totals and torus totals
/// together. `cost` says whether these edges cost something.
pub(crate) fn is_twice(
    alloc: Global,
    plan: &RunPlan,
    sample: &Volume,
    twice: Size,
    half: u64,
    cost: bool,
) -> Result<bool, AllocError> {
    let RunPlan { size, tile, .. } = *plan;
    if !is_size(size) || !is_wide(&tile.wrap, size) || tile.side < 1 || half < 1 {
        return Ok(false);
    }
    if !is_size(twice) || !is_one_part(sample) {
        return Ok(false);
    }
    let tiled = tile_canvas(alloc, plan, sample)?;
    let plain = total(&tiled.canvas, sample);
    let torus = torus_total(&tiled.canvas, sample, &tile.wrap);
    let whole = laid_twice(alloc, &tiled.canvas, sample, twice)?;
    Ok(is_share(plain, torus, whole, half, cost))
}
