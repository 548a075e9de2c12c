// Worked examples of cells: that the calls that take memory succeed while there is some, and what the
// definitions give at the corners of small volumes.
use crate::expect::{expect_row, expect_true};
use crate::pictures::{Place, at, volume_of};
use cells::{At, Axis, Box3, PartPlace, Size, Volume, cell_distance};
use std::alloc::Global;
use std::process::Abort;

// Corners of a volume of 3x2x2 with their indices, and places outside.
const INDICES: &[(Place, Option<usize>)] = &[
    ((0, 0, 0), Some(0)),
    ((2, 0, 0), Some(2)),
    ((0, 1, 0), Some(3)),
    ((2, 1, 0), Some(5)),
    ((0, 0, 1), Some(6)),
    ((2, 1, 1), Some(11)),
    ((-1, 0, 0), None),
    ((3, 0, 0), None),
    ((0, 2, 0), None),
    ((0, 0, 2), None),
    ((i32::MIN, 1, 1), None),
];

const TWELVE: Size = Size { w: 3, h: 2, f: 2 };

// Whether a place has this index, and the index that place.
fn has_index(place: At, index: Option<usize>) -> bool {
    let is_so = TWELVE.index_of(place) == index;
    let Some(i) = index else { return is_so };
    is_so && i < TWELVE.cells() && TWELVE.place_at(i) == place
}

fn are_steps() -> bool {
    let step = at((10, 20, -30));
    (at((1, -2, 3)).plus(step) == at((11, 18, -27)))
        & (at((1, -2, 3)).minus(step) == at((-9, -22, 33)))
        & (Axis::F.unit() == at((0, 0, 1)))
}

#[test]
fn places_in_raster_order(rt: HostRuntime) {
    for (i, (place, index)) in INDICES.iter().enumerate() {
        expect_row(&rt, i, has_index(at(*place), *index));
    }
    expect_true(&rt, (TWELVE.cells() == 12) & are_steps());
}

// The bytes once cells (2, 1, 1) and (1, 1, 0) are set.
const TWO_SET: &[u8] = &[
    0, 0, 0, 0, 0, 0, 0, 0, 7, 8, 0, 0, 0, 0, 0, 0, 0, 0, 0, 0, 0, 0, 9, 10,
];

const LOWER_ROW: Box3 = Box3 {
    corner: At { x: 0, y: 1, f: 0 },
    size: Size { w: 3, h: 1, f: 1 },
};

#[test]
fn cells_and_rows(rt: HostRuntime) {
    let Ok(mut volume) = Volume::make(rt.alloc(), TWELVE, 2) else {
        rt.abort()
    };
    let is_made = (volume.size() == TWELVE) & (volume.samples() == 2) & volume.holds(&LOWER_ROW);
    volume.set_cell(at((2, 1, 1)), &[9, 10]);
    volume.set_cell(at((1, 1, 0)), &[7, 8]);
    let is_set = (volume.bytes() == TWO_SET)
        & (volume.row(at((1, 1, 0)), 2) == [7, 8, 0, 0].as_slice());
    volume.set_row(at((0, 0, 1)), 2, &[1, 2, 3, 4]);
    volume.fill_row(at((1, 1, 1)), 1, 5);
    let are_rows = (volume.row(at((0, 0, 1)), 3) == [1, 2, 3, 4, 0, 0].as_slice())
        & (volume.row(at((0, 1, 1)), 3) == [0, 0, 5, 5, 9, 10].as_slice());
    expect_true(&rt, is_made & is_set & are_rows);
}

// Cells of a part of 2x1 and of one of 1x3, which is in frame 2.
const PARTS: &[(Place, Option<&[u8]>)] = &[
    ((0, 0, 0), Some(&[10])),
    ((1, 0, 0), Some(&[20])),
    ((0, 0, 1), None),
    ((0, 0, 2), Some(&[20])),
    ((0, 2, 2), Some(&[40])),
    ((1, 0, 2), None),
];

// A volume of these parts.
fn two_parts(rt: &impl Abort, alloc: Global) -> Volume {
    let mut volume = volume_of(rt, alloc, Size { w: 2, h: 1, f: 1 }, 1, &[10, 20]);
    let part = volume_of(rt, alloc, Size { w: 1, h: 3, f: 1 }, 1, &[20, 30, 40]);
    expect_true(rt, volume.add_part(&part).is_ok());
    volume
}

// Whether the parts have these sizes and distances.
fn are_parts(volume: &Volume) -> bool {
    let sizes = volume.sizes();
    let there = PartPlace {
        part: 2,
        at: at((0, 2, 0)),
    };
    (cell_distance(volume, at((1, 0, 0)), at((0, 0, 2))) == 0)
        & (cell_distance(volume, at((0, 0, 1)), at((0, 0, 2))) == 255)
        & (sizes.len() == 2)
        & (sizes.part_of(at((0, 2, 2))) == Some(there))
        & (sizes.part_of(at((0, 0, 1))) == None)
}

#[test]
fn parts_of_a_volume(rt: HostRuntime) {
    let volume = two_parts(&rt, rt.alloc());
    for (i, (place, cell)) in PARTS.iter().enumerate() {
        expect_row(&rt, i, volume.cell(at(*place)) == *cell);
    }
    expect_true(&rt, are_parts(&volume));
}

// Cells of (10, 10, 10), (20, 30, 5) and (255, 0, 0), and places outside.
const DISTANCES: &[(Place, Place, u32)] = &[
    ((0, 0, 0), (0, 0, 0), 0),
    ((0, 0, 0), (1, 0, 0), 35),
    ((0, 0, 0), (2, 0, 0), 265),
    ((1, 0, 0), (2, 0, 0), 270),
    ((2, 0, 0), (3, 0, 0), 765),
    ((0, -1, 0), (0, 0, 0), 765),
    ((0, 0, 1), (-8192, 8192, 0), 0),
];

#[test]
fn distances_of_cells(rt: HostRuntime) {
    let cells = [10, 10, 10, 20, 30, 5, 255, 0, 0];
    let volume = volume_of(&rt, rt.alloc(), Size { w: 3, h: 1, f: 1 }, 3, &cells);
    for (i, (a, b, distance)) in DISTANCES.iter().enumerate() {
        expect_row(&rt, i, cell_distance(&volume, at(*a), at(*b)) == *distance);
    }
}

// Boxes, and whether parts of 3x2x2 and of 2x2x2 hold them. The second part has the frames 3 and 4, and frame 2 is empty.
const BOXES: &[(Place, (u32, u32, u32), bool)] = &[
    ((0, 0, 0), (3, 2, 2), true),
    ((1, 1, 1), (2, 1, 1), true),
    ((0, 0, 3), (2, 2, 2), true),
    ((0, 0, 1), (1, 1, 2), false),
    ((0, 0, 1), (1, 1, 3), false),
    ((0, 0, 3), (3, 1, 1), false),
    ((1, 0, 0), (3, 1, 1), false),
    ((-1, 0, 0), (2, 1, 1), false),
    ((-5, 9, 9), (0, 1, 1), true),
];

#[test]
fn boxes_in_a_volume(rt: HostRuntime) {
    let mut volume = volume_of(&rt, rt.alloc(), TWELVE, 1, &[0; 12]);
    let part = volume_of(&rt, rt.alloc(), Size { w: 2, h: 2, f: 2 }, 1, &[0; 8]);
    expect_true(&rt, volume.add_part(&part).is_ok());
    for (i, (corner, size, held)) in BOXES.iter().enumerate() {
        let (w, h, f) = *size;
        let rect = Box3 {
            corner: at(*corner),
            size: Size { w, h, f },
        };
        expect_row(&rt, i, volume.holds(&rect) == *held);
    }
}
