// Worked examples of costs and cost_windows: the costs of a row, what of a window lies outside the output, copies
// of one cell, and the worst window.
ghost use Rattle.std.specs.Prelude.{◌≡◌};
ghost use Rattle.cells.specs.Distances.{distance};
ghost use Rattle.map_canvas.specs.Canvases.{StandsOver};
ghost use Rattle.map_canvas.specs.Maps.{map_at};
ghost use Rattle.cost_windows.specs.Tables.{IsRight, IsWindow};

use crate::expect::{expect_row, expect_true};
use crate::laying::{Laid, canvas_with};
use crate::pictures::{assert_fits, at, volume_of};
use cells::{At, Axis, Box3, Size, Volume};
use cost_windows::SeamTable;
use costs::{are_marks, pair_cost, total, window};
use map_canvas::{Canvas, Placement};
use std::alloc::Global;
use std::process::Abort;

const FOUR: Size = Size { w: 4, h: 1, f: 1 };

const SIX: Size = Size { w: 6, h: 1, f: 1 };

// A sample of a row of four cells.
const GREYS: (Size, &[u8]) = (FOUR, &[10, 10, 10, 20, 20, 20, 30, 30, 30, 40, 40, 40]);

// The row 0, 1, 2, 1, 2, 3.
const FIRST_ROW: &[Laid] = &[
    ((0, 0, 0), (0, 0, 0)),
    ((1, 0, 0), (1, 0, 0)),
    ((2, 0, 0), (2, 0, 0)),
    ((3, 0, 0), (1, 0, 0)),
    ((4, 0, 0), (2, 0, 0)),
    ((5, 0, 0), (3, 0, 0)),
];

// The row 0, 1, 0, 1, 2, 3.
const LATER_ROW: &[Laid] = &[
    ((0, 0, 0), (0, 0, 0)),
    ((1, 0, 0), (1, 0, 0)),
    ((2, 0, 0), (0, 0, 0)),
    ((3, 0, 0), (1, 0, 0)),
    ((4, 0, 0), (2, 0, 0)),
    ((5, 0, 0), (3, 0, 0)),
];

const ONE: (Size, &[u8]) = (Size { w: 1, h: 1, f: 1 }, &[7, 8, 9]);

// Copies of one cell in a row of three, and in two.
const THREE_COPIES: &[Laid] = &[
    ((0, 0, 0), (0, 0, 0)),
    ((1, 0, 0), (0, 0, 0)),
    ((2, 0, 0), (0, 0, 0)),
];

const SIX_COPIES: &[Laid] = &[
    ((0, 0, 0), (0, 0, 0)),
    ((1, 0, 0), (0, 0, 0)),
    ((2, 0, 0), (0, 0, 0)),
    ((0, 1, 0), (0, 0, 0)),
    ((1, 1, 0), (0, 0, 0)),
    ((2, 1, 0), (0, 0, 0)),
];

// Windows of the first row, by their first column and their width, and what their seams cost. A window may lie partly outside,
// wholly outside, or be far larger than the output.
const WINDOWS: &[(i32, u32, u64)] = &[
    (0, 4, 120),
    (2, 4, 120),
    (3, 4, 0),
    (-1, 4, 0),
    (-1, 5, 120),
    (-4, 4, 0),
    (6, 4, 0),
    (i32::MIN, u32::MAX, 120),
    (i32::MIN, 2147483648, 0),
    (i32::MAX, u32::MAX, 0),
    (0, 0, 0),
];

// Windows of the later row. The pair that ends the window isn't in it.
const LATER_WINDOWS: &[(i32, u32, u64)] = &[(0, 4, 825), (1, 4, 825), (2, 4, 0)];

// A sample, an output with its cells, what all seams cost, and windows with what theirs do.
type Seams<'a> = (
    (Size, &'a [u8]),
    Size,
    &'a [Laid],
    u64,
    &'a [(i32, u32, u64)],
);

const SEAMS: &[Seams<'static>] = &[
    (GREYS, SIX, &[], 0, &[]),
    (GREYS, SIX, FIRST_ROW, 120, WINDOWS),
    (GREYS, SIX, LATER_ROW, 825, LATER_WINDOWS),
    (ONE, Size { w: 3, h: 2, f: 1 }, THREE_COPIES, 3060, &[]),
    (ONE, Size { w: 3, h: 2, f: 1 }, SIX_COPIES, 10710, &[]),
];

// Asserts that all seams cost what a row says. A window is a box of one row.
fn expect_seams(rt: &impl Abort, alloc: Global, of: &Seams) {
    let ((size, bytes), output, cells, sum, windows) = *of;
    let sample = volume_of(rt, alloc, size, 3, bytes);
    let canvas = canvas_with(rt, alloc, output, &sample, cells);
    expect_true(rt, total(&canvas, &sample) == sum);
    for (i, (x, w, cost)) in windows.iter().enumerate() {
        let rect = Box3 {
            corner: at((*x, 0, 0)),
            size: Size { w: *w, h: 1, f: 1 },
        };
        expect_row(rt, i, window(&canvas, &sample, &rect) == *cost);
    }
}

#[test]
fn seams_of_rows(rt: HostRuntime) {
    for of in SEAMS.iter() {
        expect_seams(&rt, rt.alloc(), of);
    }
}

// The columns of the first row, and what the seam on the right of each costs. Below the row there is none.
const PAIRS: &[(i32, u32)] = &[(-1, 0), (0, 0), (1, 0), (2, 120), (3, 0), (5, 0), (6, 0)];

fn expect_pairs(rt: &impl Abort, canvas: &Canvas, sample: &Volume) {
    for (i, (x, cost)) in PAIRS.iter().enumerate() {
        let p = at((*x, 0, 0));
        let right = pair_cost(canvas, sample, p, Axis::X);
        let below = pair_cost(canvas, sample, p, Axis::Y);
        expect_row(rt, i, (right == *cost) & (below == 0));
    }
}

// Marks, and whether they are marks of filled cells alone.
const MARKS: &[(Option<&[bool]>, bool)] = &[
    (None, true),
    (Some(&[false; 4]), true),
    (Some(&[true, true, false, false]), true),
    (Some(&[true, true, true, false]), false),
    (Some(&[false, false, false, true]), false),
    (Some(&[true, true, false]), false),
    (Some(&[true, true, false, false, false]), false),
];

// A box that lies over the right edge of a row of six.
const OVER_THE_EDGE: Placement = Placement {
    rect: Box3 {
        corner: At { x: 3, y: 0, f: 0 },
        size: Size { w: 4, h: 1, f: 1 },
    },
    from: At { x: 0, y: 0, f: 0 },
};

const FIVE_COPIES: &[Laid] = &[
    ((0, 0, 0), (0, 0, 0)),
    ((1, 0, 0), (0, 0, 0)),
    ((2, 0, 0), (0, 0, 0)),
    ((3, 0, 0), (0, 0, 0)),
    ((4, 0, 0), (0, 0, 0)),
];

#[test]
fn marks_of_filled_cells(rt: HostRuntime) {
    let (size, bytes) = ONE;
    let sample = volume_of(&rt, rt.alloc(), size, 3, bytes);
    let canvas = canvas_with(&rt, rt.alloc(), SIX, &sample, FIVE_COPIES);
    for (i, (held, are)) in MARKS.iter().enumerate() {
        expect_row(&rt, i, are_marks(&canvas, &OVER_THE_EDGE, *held) == *are);
    }
}

// Asserts that an output has windows of a size.
fn assert_window(rt: &impl Abort, output: Size, window: Size)
    ensures { IsWindow output window }
{
    assert!(rt; (1 <= window.w) & (1 <= window.h) & (1 <= window.f));
    assert!(rt; (window.w <= output.w) & (window.h <= output.h) & (window.f <= output.f));
}

// Makes all cells of a box new, and the table right again.
fn put_box(
    rt: &impl Abort,
    canvas: &mut Canvas,
    table: &mut SeamTable,
    sample: &Volume,
    placement: &Placement,
    all: &[bool],
)
    requires stands { StandsOver canvas.old sample.now }
    requires size { canvas.old.map.size ≡ table.old.output }
    requires right { IsRight (distance sample.now) (map_at canvas.old.map) table.old }
{
    assert_fits(rt, canvas.map().size(), sample, placement);
    let size = placement.rect.size;
    assert!(rt; (size.w <= 9) & (size.h == 1) & (size.f == 1));
    assert!(rt; all.len() == size.w as usize);
    canvas.put_choice(sample, placement, all);
    table.update(canvas, sample, &placement.rect);
}

// Whether the worst window is the first one, at this cost.
fn is_worst(table: &SeamTable, cost: u64) -> bool {
    let worst = table.worst();
    (worst.corner == at((0, 0, 0))) & (worst.cost == cost)
}

// A box of four cells from the third on, with the sample's four cells.
const FROM_THE_THIRD: Placement = Placement {
    rect: Box3 {
        corner: At { x: 2, y: 0, f: 0 },
        size: Size { w: 4, h: 1, f: 1 },
    },
    from: At { x: 0, y: 0, f: 0 },
};

// The worst window of the first row is right, and still is once the placement is put in.
#[test]
fn pairs_and_the_worst_window(rt: HostRuntime) {
    let (size, bytes) = GREYS;
    let sample = volume_of(&rt, rt.alloc(), size, 3, bytes);
    let mut canvas = canvas_with(&rt, rt.alloc(), SIX, &sample, FIRST_ROW);
    expect_pairs(&rt, &canvas, &sample);
    assert_window(&rt, canvas.map().size(), FOUR);
    let Ok(mut table) = SeamTable::make(rt.alloc(), &canvas, &sample, FOUR) else {
        rt.abort()
    };
    expect_true(&rt, is_worst(&table, 120));
    put_box(
        &rt,
        &mut canvas,
        &mut table,
        &sample,
        &FROM_THE_THIRD,
        &[true; 4],
    );
    expect_true(&rt, is_worst(&table, 825));
}
