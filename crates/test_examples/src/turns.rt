// Worked examples of turned samples: the bytes of all turns, written by hand, and the cell that comes to a place.
ghost use Rattle.std.specs.Prelude.{◌≤◌, length};

use crate::expect::{expect_row, expect_true};
use crate::pictures::{Place, at, volume_of};
use cells::{At, Size, Sizes};
use std::alloc::Global;
use std::process::Abort;
use turned::{Turned, turn_all, turned_place, turned_sizes, untouched};

// The eight turns of a picture of 3x2 with the cells 1 2 3 / 4 5 6, row by row.
const SIX_TURNED: &[u8] = &[
    1, 2, 3, 4, 5, 6, 4, 1, 5, 2, 6, 3, 6, 5, 4, 3, 2, 1, 3, 6, 2, 5, 1, 4, 3, 2, 1, 6, 5, 4, 6, 3,
    5, 2, 4, 1, 4, 5, 6, 1, 2, 3, 1, 4, 2, 5, 3, 6,
];

// The eight turns of a clip of two frames of 2x1 with cells of 3 samples, of which frame 0 has the cells (1, 2, 3) and
// (4, 5, 6), frame 1 (7, 8, 9) and (10, 11, 12). Each turn across keeps the two cells of a row or exchanges them.
const FRAMES_TURNED: &[u8] = &[
    1, 2, 3, 4, 5, 6, 7, 8, 9, 10, 11, 12, 1, 2, 3, 4, 5, 6, 7, 8, 9, 10, 11, 12, 4, 5, 6, 1, 2, 3,
    10, 11, 12, 7, 8, 9, 4, 5, 6, 1, 2, 3, 10, 11, 12, 7, 8, 9, 4, 5, 6, 1, 2, 3, 10, 11, 12, 7, 8,
    9, 4, 5, 6, 1, 2, 3, 10, 11, 12, 7, 8, 9, 1, 2, 3, 4, 5, 6, 7, 8, 9, 10, 11, 12, 1, 2, 3, 4, 5,
    6, 7, 8, 9, 10, 11, 12,
];

// A sample by its size, the samples of a cell and its bytes, and the bytes of its turns.
type Turns<'a> = (Size, u32, &'a [u8], &'a [u8]);

const TURNS: &[Turns<'static>] = &[
    (
        Size { w: 3, h: 2, f: 1 },
        1,
        &[1, 2, 3, 4, 5, 6],
        SIX_TURNED,
    ),
    (
        Size { w: 2, h: 1, f: 2 },
        3,
        &[1, 2, 3, 4, 5, 6, 7, 8, 9, 10, 11, 12],
        FRAMES_TURNED,
    ),
];

// Whether these are the sizes of the eight turns of one sample.
fn are_turned(sizes: &Sizes, size: Size) -> bool {
    if sizes.len() != 8 {
        return false;
    }
    let across = Size {
        w: size.h,
        h: size.w,
        f: size.f,
    };
    let mut are = true;
    for turn in 0..8 {
        let expected = if turn % 2 == 0 { size } else { across };
        are &= sizes.at(turn + 1) == expected;
    }
    are
}

fn is_turned(rt: &impl Abort, alloc: Global, of: &Turns) -> bool {
    let (size, k, bytes, expected) = *of;
    let sample = volume_of(rt, alloc, size, k, bytes);
    assert!(rt; size.cells() <= 64);
    let Ok(turned) = turn_all(alloc, &sample) else {
        rt.abort()
    };
    (turned.bytes() == expected) & are_turned(&turned.sizes(), size)
}

// The turns of a picture of 2x2 with the cells 10 20 / 30 40, and then those of one of 3x1 with the cells 1 2 3.
const BOTH_TURNED: &[u8] = &[
    10, 20, 30, 40, 30, 10, 40, 20, 40, 30, 20, 10, 20, 40, 10, 30, 20, 10, 40, 30, 40, 20, 30, 10,
    30, 40, 10, 20, 10, 30, 20, 40, 1, 2, 3, 1, 2, 3, 3, 2, 1, 3, 2, 1, 3, 2, 1, 3, 2, 1, 1, 2, 3,
    1, 2, 3,
];

fn are_two_turned(rt: &impl Abort, alloc: Global) -> bool {
    let mut samples = volume_of(rt, alloc, Size { w: 2, h: 2, f: 1 }, 1, &[10, 20, 30, 40]);
    let second = volume_of(rt, alloc, Size { w: 3, h: 1, f: 1 }, 1, &[1, 2, 3]);
    let Ok(()) = samples.add_part(&second) else {
        rt.abort()
    };
    let Ok(turned) = turn_all(alloc, &samples) else {
        rt.abort()
    };
    (turned.bytes() == BOTH_TURNED) & (turned.sizes().len() == 16)
}

#[test]
fn turns_of_samples(rt: HostRuntime) {
    for (i, of) in TURNS.iter().enumerate() {
        expect_row(&rt, i, is_turned(&rt, rt.alloc(), of));
    }
    expect_true(&rt, are_two_turned(&rt, rt.alloc()));
}

// The cell that comes to a place of the turned samples, if that leads back there.
fn there_and_back(samples: &Sizes, place: At) -> Option<Turned>
    requires { length samples.now ≤ 2 }
{
    let sizes = turned_sizes(samples);
    let _part = sizes.part_of(place)?;
    let there = untouched(samples, place);
    if turned_place(samples, &sizes, there) == place {
        Some(there)
    } else {
        None
    }
}

// A place of the turned samples, and the sample, the turn and the cell that comes there.
type Comes = (Place, Option<(u32, u32, Place)>);

// Samples of 3x2 and 1x1, each turn of which has one frame and an empty one after it.
const COMES: &[Comes] = &[
    ((2, 1, 0), Some((1, 0, (2, 1, 0)))),
    ((0, 0, 2), Some((1, 1, (0, 1, 0)))),
    ((1, 2, 2), Some((1, 1, (2, 0, 0)))),
    ((0, 0, 4), Some((1, 2, (2, 1, 0)))),
    ((0, 0, 6), Some((1, 3, (2, 0, 0)))),
    ((1, 2, 6), Some((1, 3, (0, 1, 0)))),
    ((0, 1, 8), Some((1, 4, (2, 1, 0)))),
    ((0, 0, 10), Some((1, 5, (2, 1, 0)))),
    ((1, 0, 10), Some((1, 5, (2, 0, 0)))),
    ((0, 0, 12), Some((1, 6, (0, 1, 0)))),
    ((1, 0, 14), Some((1, 7, (0, 1, 0)))),
    ((0, 0, 16), Some((2, 0, (0, 0, 0)))),
    ((0, 0, 30), Some((2, 7, (0, 0, 0)))),
    // Outside.
    ((-1, 0, 0), None),
    ((3, 0, 0), None),
    ((0, 0, 1), None),
    ((2, 0, 2), None),
    ((0, 2, 16), None),
    ((0, 0, 32), None),
    ((0, 0, -1), None),
];

// What a row says of its place.
fn comes(of: &Comes) -> Option<Turned> {
    let (sample, turn, place) = of.1?;
    Some(Turned {
        sample,
        turn,
        at: at(place),
    })
}

#[test]
fn places_there_and_back(rt: HostRuntime) {
    let mut samples = Sizes::one(Size { w: 3, h: 2, f: 1 });
    samples.add(Size { w: 1, h: 1, f: 1 });
    for (i, of) in COMES.iter().enumerate() {
        expect_row(&rt, i, there_and_back(&samples, at(of.0)) == comes(of));
    }
}
