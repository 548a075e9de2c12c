// Canvases that are made of a map over a sample of one part or three: empty, full and half filled.
use crate::expect::expect_row;
use crate::laying::{Laid, canvas_with};
use crate::pictures::volume_of;
use cells::{Size, Volume};
use map_canvas::{Canvas, Map};
use std::alloc::Global;
use std::process::Abort;

const FOUR: Size = Size { w: 4, h: 1, f: 1 };

const PAIR: Size = Size { w: 2, h: 1, f: 1 };

// The parts begin at the frames 0, 2 and 4.
fn three_parts(rt: &impl Abort, alloc: Global) -> Volume {
    let mut volume = volume_of(rt, alloc, PAIR, 1, &[10, 20]);
    let second = volume_of(rt, alloc, PAIR, 1, &[30, 40]);
    let third = volume_of(rt, alloc, PAIR, 1, &[50, 60]);
    let Ok(()) = volume.add_part(&second) else {
        rt.abort()
    };
    let Ok(()) = volume.add_part(&third) else {
        rt.abort()
    };
    volume
}

// Cells of a row with their sources, and the picture.
type Row<'a> = (&'a [Laid], [u8; 4]);

const OF_ONE_PART: &[Row<'static>] = &[
    (&[], [0; 4]),
    (
        &[
            ((0, 0, 0), (0, 0, 0)),
            ((1, 0, 0), (1, 0, 0)),
            ((2, 0, 0), (1, 0, 0)),
            ((3, 0, 0), (0, 0, 0)),
        ],
        [10, 20, 20, 10],
    ),
    (
        &[((1, 0, 0), (1, 0, 0)), ((3, 0, 0), (0, 0, 0))],
        [0, 20, 0, 10],
    ),
];

const OF_THREE_PARTS: &[Row<'static>] = &[
    (&[], [0; 4]),
    (
        &[
            ((0, 0, 0), (0, 0, 2)),
            ((1, 0, 0), (1, 0, 4)),
            ((2, 0, 0), (0, 0, 0)),
            ((3, 0, 0), (1, 0, 2)),
        ],
        [30, 60, 10, 40],
    ),
    (
        &[((0, 0, 0), (0, 0, 4)), ((2, 0, 0), (1, 0, 2))],
        [50, 0, 40, 0],
    ),
];

// Whether the canvas that is made of the map of another has that map, and this picture.
fn is_remade(rt: &impl Abort, alloc: Global, sample: &Volume, row: &Row) -> bool {
    let canvas = canvas_with(rt, alloc, FOUR, sample, row.0);
    let map = canvas.map();
    let Ok(sources) = Vec::from_slice(alloc, map.sources()) else {
        rt.abort()
    };
    let map = Map::from_sources(map.size(), sources);
    let Ok(made) = Canvas::of_map(alloc, map, sample) else {
        rt.abort()
    };
    (made.map().sources() == canvas.map().sources())
        & (made.picture().bytes() == row.1.as_slice())
        & (made.first_unfilled() == canvas.first_unfilled())
        & made.render_equals(sample)
}

// Asserts that that is so of each row.
fn expect_remade(rt: &impl Abort, alloc: Global, sample: &Volume, table: &[Row]) {
    for (i, row) in table.iter().enumerate() {
        expect_row(rt, i, is_remade(rt, alloc, sample, row));
    }
}

#[test]
fn canvases_of_maps(rt: HostRuntime) {
    let one_part = volume_of(&rt, rt.alloc(), PAIR, 1, &[10, 20]);
    expect_remade(&rt, rt.alloc(), &one_part, OF_ONE_PART);
    let three_parts = three_parts(&rt, rt.alloc());
    expect_remade(&rt, rt.alloc(), &three_parts, OF_THREE_PARTS);
}
