// The steps of merges of three pictures of twelve cells: which picture each cell comes from after them.
ghost use Rattle.map_canvas.specs.Canvases.{StandsOver};

use crate::expect::expect_row;
use crate::laying::{canvas_with, put_choice};
use crate::pictures::{assert_fits, volume_of};
use cells::{At, Box3, Size, Volume};
use costs::are_marks;
use graph_place::place_held;
use map_canvas::{Canvas, Placement};
use std::alloc::Global;
use std::process::Abort;

// Three columns and four rows.
const TWELVE: Size = Size { w: 3, h: 4, f: 1 };

const PICTURES: [[u8; 12]; 3] = [
    [10, 20, 30, 40, 50, 60, 70, 80, 90, 15, 25, 35],
    [12, 80, 31, 45, 90, 61, 72, 81, 140, 13, 26, 33],
    [9, 21, 70, 41, 200, 62, 69, 120, 91, 16, 24, 90],
];

// The parts begin at the frames 0, 2 and 4.
fn three_pictures(rt: &impl Abort, alloc: Global) -> Volume {
    let mut pictures = volume_of(rt, alloc, TWELVE, 1, &PICTURES[0]);
    let second = volume_of(rt, alloc, TWELVE, 1, &PICTURES[1]);
    let third = volume_of(rt, alloc, TWELVE, 1, &PICTURES[2]);
    let Ok(()) = pictures.add_part(&second) else {
        rt.abort()
    };
    let Ok(()) = pictures.add_part(&third) else {
        rt.abort()
    };
    pictures
}

// The place at an index, in the first frame of a picture.
fn place(i: usize, picture: u8) -> At {
    let i = (i % 12) as i32;
    At {
        x: i % 3,
        y: i / 3,
        f: 2 * (i32::from(picture) - 1),
    }
}

// A canvas whose cells come from these pictures, and none from number 0.
fn laid(rt: &impl Abort, alloc: Global, pictures: &Volume, labels: &[u8; 12]) -> Canvas
    ensures { StandsOver result pictures.now }
{
    let mut canvas = canvas_with(rt, alloc, TWELVE, pictures, &[]);
    'cells: for (i, label) in labels.iter().enumerate() {
        if *label != 0 {
            let (p, from) = (place(i, 1), place(i, *label));
            put_choice(rt, &mut canvas, pictures, p, from, (1, 1), &[true]);
        }
    }
    canvas
}

// One step: the labels before it, without the cells marked with the picture, the cells that are held, the picture's
// number, and the labels after it.
struct Step {
    before: [u8; 12],
    held: [bool; 12],
    number: u8,
    after: [u8; 12],
}

const NONE: [bool; 12] = [false; 12];

const ONES: [u8; 12] = [1; 12];

const STEPS: &[Step] = &[
    // No marks: all cells are free.
    Step {
        before: ONES,
        held: NONE,
        number: 2,
        after: [2; 12],
    },
    // Marks 0 3 0 / 0 1 0 / 0 0 0 / 0 0 0: no cell is marked with the second picture, and none of it is left.
    Step {
        before: ONES,
        held: [
            false, false, false, false, true, false, false, false, false, false, false, false,
        ],
        number: 2,
        after: ONES,
    },
    Step {
        before: [1, 0, 1, 1, 1, 1, 1, 1, 1, 1, 1, 1],
        held: [
            false, false, false, false, true, false, false, false, false, false, false, false,
        ],
        number: 3,
        after: [3, 3, 1, 1, 1, 1, 1, 1, 1, 1, 1, 1],
    },
    // Marks 0 0 0 / 0 2 0 / 0 3 0 / 1 0 0.
    Step {
        before: [1, 1, 1, 1, 0, 1, 1, 1, 1, 1, 1, 1],
        held: [
            false, false, false, false, false, false, false, false, false, true, false, false,
        ],
        number: 2,
        after: [2, 2, 2, 2, 2, 2, 2, 2, 2, 1, 2, 2],
    },
    Step {
        before: [2, 2, 2, 2, 2, 2, 2, 0, 2, 1, 2, 2],
        held: [
            false, false, false, false, true, false, false, false, false, true, false, false,
        ],
        number: 3,
        after: [2, 2, 2, 2, 2, 2, 3, 3, 3, 1, 3, 3],
    },
    // Marks 0 1 0 / 0 0 0 / 2 0 0 / 0 3 0.
    Step {
        before: [1, 1, 1, 1, 1, 1, 0, 1, 1, 1, 1, 1],
        held: [
            false, true, false, false, false, false, false, false, false, false, false, false,
        ],
        number: 2,
        after: [1, 1, 1, 1, 1, 1, 2, 1, 1, 2, 1, 1],
    },
    Step {
        before: [1, 1, 1, 1, 1, 1, 2, 1, 1, 2, 0, 1],
        held: [
            false, true, false, false, false, false, true, false, false, false, false, false,
        ],
        number: 3,
        after: [1, 1, 1, 1, 1, 1, 2, 1, 3, 2, 3, 3],
    },
];

// Lays the picture of a step, and asserts which picture each cell comes from after it.
fn expect_step(rt: &impl Abort, alloc: Global, pictures: &Volume, step: &Step) {
    let mut canvas = laid(rt, alloc, pictures, &step.before);
    let rect = Box3 {
        corner: place(0, 1),
        size: TWELVE,
    };
    let from = place(0, step.number);
    let placement = Placement { rect, from };
    assert_fits(rt, canvas.map().size(), pictures, &placement);
    let held = Some(step.held.as_slice());
    assert!(rt; are_marks(&canvas, &placement, held));
    let is_placed = place_held(alloc, &mut canvas, pictures, placement, held).is_ok();
    for (i, label) in step.after.iter().enumerate() {
        let source = Some(place(i, *label));
        expect_row(rt, i, is_placed & (canvas.map().at(place(i, 1)) == source));
    }
}

#[test]
fn steps_of_merges(rt: HostRuntime) {
    let pictures = three_pictures(&rt, rt.alloc());
    for step in STEPS.iter() {
        expect_step(&rt, rt.alloc(), &pictures, step);
    }
}
