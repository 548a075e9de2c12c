// Worked examples of map_canvas: that the calls that take memory succeed while there is some, what choices leave, and which
// cells are kept.
use crate::expect::{expect_row, expect_true};
use crate::laying::{Laid, canvas_with, put_choice};
use crate::pictures::{Place, at, holds_axis, volume_of};
use cells::{At, Box3, Size, Volume};
use map_canvas::{Canvas, Map};
use std::alloc::Global;
use std::process::Abort;

// What a choice leaves: the sources of the first row, as far as they are named, the samples, which cells of the last row are
// filled, and the first unfilled cell.
struct Left {
    sources: &'static [Option<At>],
    picture: &'static [u8],
    filled: [u8; 5],
    first: Option<At>,
}

// Asserts what a choice leaves of a canvas of five columns.
fn expect_left(rt: &impl Abort, canvas: &Canvas, sample: &Volume, left: &Left) {
    let size = canvas.map().size();
    assert!(rt; size.h <= 9);
    let last = at((0, size.h as i32 - 1, 0));
    assert!(rt; size.index_of(last).is_some());
    assert!(rt; holds_axis(size.w, last.x, 5));
    let is_left = (canvas.picture().bytes() == left.picture)
        & (canvas.filled_row(last, 5) == left.filled.as_slice())
        & (canvas.first_unfilled() == left.first)
        & canvas.render_equals(sample);
    expect_true(rt, is_left);
    for (x, source) in left.sources.iter().enumerate() {
        assert!(rt; x < 9);
        let p = at((x as i32, 0, 0));
        let is_source = (canvas.map().at(p) == *source) & (canvas.is_filled(p) == source.is_some());
        expect_row(rt, x, is_source);
    }
}

// The sources of a sample of one row.
const LEFT: Option<At> = Some(At { x: 0, y: 0, f: 0 });

const RIGHT: Option<At> = Some(At { x: 1, y: 0, f: 0 });

// Where a choice over a row of five begins, whether each of its cells is new, and what it leaves.
const CHOICES: &[(i32, &[bool], Left)] = &[
    // Nothing yet.
    (
        0,
        &[false],
        Left {
            sources: &[None; 5],
            picture: &[0; 5],
            filled: [0; 5],
            first: Some(At { x: 0, y: 0, f: 0 }),
        },
    ),
    (
        0,
        &[true, true],
        Left {
            sources: &[LEFT, RIGHT, None, None, None],
            picture: &[10, 20, 0, 0, 0],
            filled: [1, 1, 0, 0, 0],
            first: Some(At { x: 2, y: 0, f: 0 }),
        },
    ),
    // Cell 1 stays old.
    (
        1,
        &[false, true],
        Left {
            sources: &[LEFT, RIGHT, RIGHT, None, None],
            picture: &[10, 20, 20, 0, 0],
            filled: [1, 1, 1, 0, 0],
            first: Some(At { x: 3, y: 0, f: 0 }),
        },
    ),
    // Cell 3 stays unfilled, before a filled one.
    (
        4,
        &[true],
        Left {
            sources: &[LEFT, RIGHT, RIGHT, None, LEFT],
            picture: &[10, 20, 20, 0, 10],
            filled: [1, 1, 1, 0, 1],
            first: Some(At { x: 3, y: 0, f: 0 }),
        },
    ),
    (
        3,
        &[true, false],
        Left {
            sources: &[LEFT, RIGHT, RIGHT, LEFT, LEFT],
            picture: &[10, 20, 20, 10, 10],
            filled: [1; 5],
            first: None,
        },
    ),
];

// Puts in each choice over the canvas that the one before leaves.
fn expect_choices(rt: &impl Abort, alloc: Global, sample: &Volume) {
    let mut canvas = canvas_with(rt, alloc, Size { w: 5, h: 1, f: 1 }, sample, &[]);
    let first = at((0, 0, 0));
    'choices: for (x, choice, left) in CHOICES.iter() {
        assert!(rt; choice.len() <= 2);
        let size = (choice.len() as u32, 1);
        put_choice(
            rt,
            &mut canvas,
            sample,
            at((*x, 0, 0)),
            first,
            size,
            *choice,
        );
        expect_left(rt, &canvas, sample, left);
    }
}

#[test]
fn choices_fill_a_canvas(rt: HostRuntime) {
    let sample = volume_of(&rt, rt.alloc(), Size { w: 2, h: 1, f: 1 }, 1, &[10, 20]);
    expect_choices(&rt, rt.alloc(), &sample);
}

const CORNER: Option<At> = Some(At { x: 0, y: 0, f: 0 });

// Runs of new cells of every length in two rows of three, from every place of a row, and what is left of two rows of five.
const RUNS: &[([bool; 6], Left)] = &[
    (
        [true, true, true, true, true, true],
        Left {
            sources: &[],
            picture: &[0, 0, 1, 2, 3, 0, 0, 4, 5, 6],
            filled: [0, 0, 1, 1, 1],
            first: CORNER,
        },
    ),
    (
        [false, true, true, true, false, true],
        Left {
            sources: &[],
            picture: &[0, 0, 0, 2, 3, 0, 0, 4, 0, 6],
            filled: [0, 0, 1, 0, 1],
            first: CORNER,
        },
    ),
    (
        [true, false, true, false, true, true],
        Left {
            sources: &[],
            picture: &[0, 0, 1, 0, 3, 0, 0, 0, 5, 6],
            filled: [0, 0, 0, 1, 1],
            first: CORNER,
        },
    ),
    (
        [true, true, false, true, true, false],
        Left {
            sources: &[],
            picture: &[0, 0, 1, 2, 0, 0, 0, 4, 5, 0],
            filled: [0, 0, 1, 1, 0],
            first: CORNER,
        },
    ),
];

// Puts in a choice, and asserts what it leaves.
fn expect_run(rt: &impl Abort, alloc: Global, sample: &Volume, choice: &[bool; 6], left: &Left) {
    let mut canvas = canvas_with(rt, alloc, Size { w: 5, h: 2, f: 1 }, sample, &[]);
    put_choice(
        rt,
        &mut canvas,
        sample,
        at((2, 0, 0)),
        at((0, 0, 0)),
        (3, 2),
        choice,
    );
    expect_left(rt, &canvas, sample, left);
}

#[test]
fn runs_of_new_cells(rt: HostRuntime) {
    let size = Size { w: 3, h: 2, f: 1 };
    let sample = volume_of(&rt, rt.alloc(), size, 1, &[1, 2, 3, 4, 5, 6]);
    for (choice, left) in RUNS.iter() {
        expect_run(&rt, rt.alloc(), &sample, choice, left);
    }
}

// A sample of one row, of 2 samples a cell.
const TWO: Size = Size { w: 2, h: 1, f: 1 };

const TWO_CELLS: &[u8] = &[10, 11, 20, 21];

// A canvas of two rows over it, with three filled cells.
const EIGHT: Size = Size { w: 4, h: 2, f: 1 };

const THREE_FILLED: &[Laid] = &[
    ((0, 0, 0), (0, 0, 0)),
    ((1, 0, 0), (1, 0, 0)),
    ((1, 1, 0), (1, 0, 0)),
];

// A box's corner and size, a cell, and whether it is kept: cells (0, 0), (1, 0) and (1, 1) are filled.
const KEPT: &[(Place, (u32, u32), Place, bool)] = &[
    ((1, 0, 0), (3, 2), (1, 0, 0), true),
    ((1, 0, 0), (3, 2), (1, 1, 0), false),
    ((1, 0, 0), (3, 2), (2, 0, 0), false),
    ((1, 0, 0), (3, 2), (0, 0, 0), false),
    ((0, 0, 0), (4, 2), (1, 0, 0), false),
    ((0, 0, 0), (4, 1), (0, 0, 0), false),
    ((0, 0, 0), (4, 1), (1, 0, 0), true),
    ((0, 1, 0), (4, 1), (1, 1, 0), true),
    ((-9, 0, 0), (9, 2), (-1, 0, 0), false),
];

fn expect_kept(rt: &impl Abort, canvas: &Canvas) {
    for (i, (corner, size, cell, kept)) in KEPT.iter().enumerate() {
        let (w, h) = *size;
        let rect = Box3 {
            corner: at(*corner),
            size: Size { w, h, f: 1 },
        };
        expect_row(rt, i, canvas.is_kept(&rect, at(*cell)) == *kept);
    }
}

// Of a sample its width, its bytes, the samples of a cell, and whether the canvas stands over it.
const OTHERS: &[(u32, &[u8], u32, bool)] = &[
    (3, &[10, 11, 20, 21, 30, 31], 2, true),
    (2, &[10, 11, 20, 22], 2, false),
    (1, &[10, 11], 2, false),
    (2, &[10, 20], 1, false),
];

fn expect_others(rt: &impl Abort, alloc: Global, canvas: &Canvas) {
    for (i, (w, bytes, k, stands)) in OTHERS.iter().enumerate() {
        let size = Size { w: *w, h: 1, f: 1 };
        let other = volume_of(rt, alloc, size, *k, *bytes);
        expect_row(rt, i, canvas.render_equals(&other) == *stands);
    }
}

// Which cells of a box are kept, and which samples the canvas stands over.
#[test]
fn three_filled_cells(rt: HostRuntime) {
    let sample = volume_of(&rt, rt.alloc(), TWO, 2, TWO_CELLS);
    let canvas = canvas_with(&rt, rt.alloc(), EIGHT, &sample, THREE_FILLED);
    expect_kept(&rt, &canvas);
    expect_others(&rt, rt.alloc(), &canvas);
}

#[test]
fn a_map_by_itself(rt: HostRuntime) {
    let Ok(mut map) = Map::empty(rt.alloc(), Size { w: 2, h: 2, f: 1 }) else {
        rt.abort()
    };
    let from = at((131072, 0, 131072));
    map.set(at((1, 1, 0)), from);
    map.set(at((0, 1, 0)), at((7, 7, 0)));
    map.set(at((0, 1, 0)), at((8, 8, 0)));
    let are_sources = map.at(at((0, 0, 0))).is_none()
        & map.at(at((1, 0, 0))).is_none()
        & map.at(at((2, 1, 0))).is_none()
        & (map.at(at((0, 1, 0))) == Some(at((8, 8, 0))))
        & (map.at(at((1, 1, 0))) == Some(from));
    expect_true(&rt, are_sources);
}
