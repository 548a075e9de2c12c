// Worked examples of cut_check: records along each axis, with a held cell, over all choices, and boxes on two
// and three axes whose flows are forced.
ghost use Rattle.map_canvas.specs.Canvases.{StandsOver};

use crate::expect::{expect_row, expect_true};
use crate::laying::{Laid, canvas_with, put_choice};
use crate::pictures::{Place, assert_fits, assert_small, at, volume_of};
use boxes::pair_count;
use cells::{At, Axis, Box3, Size, Volume};
use costs::{are_marks, window_after};
use cut_check::{
    BALANCE_RULE, BOUNDS_RULE, CutFault, CutRecord, FILL_RULE, FIT_RULE, Flow, KEEP_RULE,
    VALUE_RULE, check_held,
};
use items::Items;
use map_canvas::{Canvas, Placement};
use std::alloc::Global;
use std::process::Abort;

// What a check says: the kind and the place of the record's fault, or that it stands.
type Verdict = Result<(), CutFault>;

// What the check says of a record of this choice and these flows.
fn verdict(
    rt: &impl Abort,
    alloc: Global,
    canvas: &Canvas,
    sample: &Volume,
    placement: Placement,
    choice: &[bool],
    flows: &[Flow],
    held: Option<&[bool]>,
) -> Verdict
    requires { StandsOver canvas.now sample.now }
{
    let size = placement.rect.size;
    assert_small(rt, size);
    assert!(rt; (choice.len() == size.cells()) & (flows.len() as u64 == pair_count(size)));
    assert!(rt; are_marks(canvas, &placement, held));
    let Ok(choice) = Vec::from_slice(alloc, choice) else {
        rt.abort()
    };
    let Ok(flows) = Vec::from_slice(alloc, flows) else {
        rt.abort()
    };
    let cut = CutRecord {
        placement,
        choice: Items::from_vec(choice),
        flows: Items::from_vec(flows),
    };
    check_held(canvas, sample, &cut, held)
}

// A box of n cells along an axis.
fn line(axis: Axis, n: u32) -> Size {
    match axis {
        Axis::X => Size { w: n, h: 1, f: 1 },
        Axis::Y => Size { w: 1, h: n, f: 1 },
        Axis::F => Size { w: 1, h: 1, f: n },
    }
}

// The place n cells along an axis.
fn along(axis: Axis, n: i32) -> At {
    match axis {
        Axis::X => At { x: n, y: 0, f: 0 },
        Axis::Y => At { x: 0, y: n, f: 0 },
        Axis::F => At { x: 0, y: 0, f: n },
    }
}

// A canvas of six cells along an axis over a sample, the first of them with these sources along it.
fn canvas_along(
    rt: &impl Abort,
    alloc: Global,
    sample: &Volume,
    axis: Axis,
    sources: &[i32],
) -> Canvas
    ensures { StandsOver result sample.now }
{
    let mut canvas = canvas_with(rt, alloc, line(axis, 6), sample, &[]);
    'sources: for (n, from) in sources.iter().enumerate() {
        assert!(rt; n < 6);
        let (p, from) = (along(axis, n as i32), along(axis, *from));
        put_choice(rt, &mut canvas, sample, p, from, (1, 1), &[true]);
    }
    canvas
}

// Greys 10 apart, three times each.
const GREYS: &[u8] = &[10, 10, 10, 20, 20, 20, 30, 30, 30, 40, 40, 40];

// The sources of the first cells of six, which cells of a box of four are held, and records: where the box begins, its choice,
// the flows, and what the check says.
struct Case {
    sources: &'static [i32],
    held: Option<&'static [bool]>,
    records: &'static [(i32, [bool; 4], &'static [Flow], Verdict)],
}

const INNER: [bool; 4] = [false, true, true, false];

const BUT_THE_FIRST: [bool; 4] = [false, true, true, true];

const BUT_THE_LAST: [bool; 4] = [true, true, true, false];

const LAST_TWO: [bool; 4] = [false, false, true, true];

const BOTH_SIDES: &[Flow] = &[
    Flow { x: 60, y: 60 },
    Flow { x: 60, y: -60 },
    Flow { x: -60, y: -60 },
];

const ONE_SIDE: &[Flow] = &[
    Flow { x: 120, y: 120 },
    Flow { x: 120, y: 0 },
    Flow { x: 0, y: 0 },
];

const CASES: [Case; 3] = [
    // Between old cells.
    Case {
        sources: &[0, 1, 2, 1, 2, 3],
        held: None,
        records: &[
            (1, INNER, BOTH_SIDES, Ok(())),
            (
                1,
                INNER,
                &[
                    Flow { x: 60, y: 59 },
                    Flow { x: 60, y: -60 },
                    Flow { x: -60, y: -60 },
                ],
                Err(CutFault {
                    kind: BOUNDS_RULE,
                    place: 0,
                }),
            ),
            (
                1,
                BUT_THE_LAST,
                BOTH_SIDES,
                Err(CutFault {
                    kind: KEEP_RULE,
                    place: 0,
                }),
            ),
            (
                1,
                BUT_THE_FIRST,
                BOTH_SIDES,
                Err(CutFault {
                    kind: KEEP_RULE,
                    place: 3,
                }),
            ),
            (
                3,
                INNER,
                BOTH_SIDES,
                Err(CutFault {
                    kind: FIT_RULE,
                    place: 0,
                }),
            ),
            (
                -1,
                INNER,
                BOTH_SIDES,
                Err(CutFault {
                    kind: FIT_RULE,
                    place: 0,
                }),
            ),
        ],
    },
    // Over the edge of the filled.
    Case {
        sources: &[0, 1, 2, 3],
        held: None,
        records: &[
            (2, BUT_THE_FIRST, ONE_SIDE, Ok(())),
            (
                2,
                BUT_THE_FIRST,
                &[
                    Flow { x: 120, y: 120 },
                    Flow { x: 119, y: 0 },
                    Flow { x: 0, y: 0 },
                ],
                Err(CutFault {
                    kind: BALANCE_RULE,
                    place: 1,
                }),
            ),
            (
                2,
                BUT_THE_FIRST,
                &[
                    Flow { x: 119, y: 119 },
                    Flow { x: 119, y: 0 },
                    Flow { x: 0, y: 0 },
                ],
                Err(CutFault {
                    kind: VALUE_RULE,
                    place: 0,
                }),
            ),
            (
                2,
                BUT_THE_FIRST,
                &[
                    Flow { x: 121, y: 121 },
                    Flow { x: 121, y: 0 },
                    Flow { x: 0, y: 0 },
                ],
                Err(CutFault {
                    kind: BOUNDS_RULE,
                    place: 0,
                }),
            ),
            (
                2,
                LAST_TWO,
                ONE_SIDE,
                Err(CutFault {
                    kind: VALUE_RULE,
                    place: 0,
                }),
            ),
            (
                2,
                [false, true, false, true],
                ONE_SIDE,
                Err(CutFault {
                    kind: FILL_RULE,
                    place: 2,
                }),
            ),
        ],
    },
    // With a held cell.
    Case {
        sources: &[0, 1, 2, 3],
        held: Some(&[false, true, false, false]),
        records: &[
            (
                2,
                LAST_TWO,
                &[
                    Flow { x: 100, y: 100 },
                    Flow { x: 825, y: 0 },
                    Flow { x: 0, y: 0 },
                ],
                Ok(()),
            ),
            (
                2,
                BUT_THE_FIRST,
                ONE_SIDE,
                Err(CutFault {
                    kind: KEEP_RULE,
                    place: 1,
                }),
            ),
            (
                2,
                LAST_TWO,
                ONE_SIDE,
                Err(CutFault {
                    kind: VALUE_RULE,
                    place: 0,
                }),
            ),
        ],
    },
];

// Asserts what the check says along an axis. The sources of a box begin at the sample's first cell.
fn expect_case(rt: &impl Abort, alloc: Global, axis: Axis, case: &Case) {
    let sample = volume_of(rt, alloc, line(axis, 4), 3, GREYS);
    let canvas = canvas_along(rt, alloc, &sample, axis, case.sources);
    for (i, (n, choice, flows, expected)) in case.records.iter().enumerate() {
        let rect = Box3 {
            corner: along(axis, *n),
            size: line(axis, 4),
        };
        let from = along(axis, 0);
        let placement = Placement { rect, from };
        let held = case.held;
        let said = verdict(rt, alloc, &canvas, &sample, placement, choice, *flows, held);
        expect_row(rt, i, said == *expected);
    }
}

const AXES: [Axis; 3] = [Axis::X, Axis::Y, Axis::F];

#[test]
fn records_along_each_axis(rt: HostRuntime) {
    for n in 0..9 {
        expect_case(&rt, rt.alloc(), AXES[n % 3], &CASES[n / 3]);
    }
}

// A sample, an output with the cells that are filled, a box whose sources begin at the sample's first cell, its choice, the
// flows that are forced, and its window sum.
struct Forced {
    sample: (Size, &'static [u8]),
    output: Size,
    cells: &'static [Laid],
    rect: (Place, Size),
    choice: &'static [bool],
    flows: &'static [Flow],
    cost: u64,
}

const NO: Flow = Flow { x: 0, y: 0 };

const FORCED: &[Forced] = &[
    Forced {
        sample: (Size { w: 3, h: 2, f: 1 }, &[0, 10, 50, 30, 70, 100]),
        output: Size { w: 3, h: 2, f: 1 },
        cells: &[((0, 0, 0), (1, 1, 0)), ((1, 0, 0), (2, 0, 0))],
        rect: ((1, 0, 0), Size { w: 2, h: 2, f: 1 }),
        choice: &[false, true, true, true],
        flows: &[Flow { x: 305, y: 0 }, Flow { x: 120, y: 0 }, NO, NO],
        cost: 425,
    },
    Forced {
        sample: (
            Size { w: 2, h: 2, f: 2 },
            &[0, 10, 30, 70, 150, 200, 90, 255],
        ),
        output: Size { w: 3, h: 2, f: 2 },
        cells: &[((2, 1, 1), (0, 0, 0)), ((1, 1, 1), (0, 1, 1))],
        rect: ((0, 0, 0), Size { w: 2, h: 2, f: 2 }),
        choice: &[true, true, true, true, true, true, true, false],
        flows: &[
            NO,
            NO,
            NO,
            NO,
            NO,
            NO,
            NO,
            Flow { x: 0, y: -205 },
            NO,
            NO,
            Flow { x: 0, y: -215 },
            Flow { x: 0, y: -420 },
        ],
        cost: 840,
    },
];

// The choice whose cells are new as the bits of a number say, the first by the lowest.
fn choice_of(bits: usize) -> [bool; 8] {
    [
        bits & 1 != 0,
        bits & 2 != 0,
        bits & 4 != 0,
        bits & 8 != 0,
        bits & 16 != 0,
        bits & 32 != 0,
        bits & 64 != 0,
        bits & 128 != 0,
    ]
}

// Asserts that no other choice over the box stands with the flows.
fn expect_no_other_choice(
    rt: &impl Abort,
    alloc: Global,
    canvas: &Canvas,
    sample: &Volume,
    placement: Placement,
    of: &Forced,
)
    requires { StandsOver canvas.now sample.now }
{
    let n = of.choice.len();
    assert!(rt; n <= 8);
    for bits in 0..256 {
        let all = choice_of(bits);
        let choice = &all[..n];
        let said = verdict(rt, alloc, canvas, sample, placement, choice, of.flows, None);
        expect_row(rt, bits, said.is_ok() == (choice == of.choice));
    }
}

// One more and one less in each of the two numbers of a flow.
const MOVES: [(i16, i16); 4] = [(1, 0), (-1, 0), (0, 1), (0, -1)];

// Asserts that the choice doesn't stand with a flow that is one more or one less anywhere.
fn expect_no_other_flow(
    rt: &impl Abort,
    alloc: Global,
    canvas: &Canvas,
    sample: &Volume,
    placement: Placement,
    of: &Forced,
)
    requires { StandsOver canvas.now sample.now }
{
    assert!(rt; of.flows.len() <= 12);
    for n in 0..4 * of.flows.len() {
        let (x, y) = MOVES[n % 4];
        let Ok(mut flows) = Vec::from_slice(alloc, of.flows) else {
            rt.abort()
        };
        if let Some(moved) = flows.get_mut(n / 4) {
            *moved = Flow {
                x: moved.x.wrapping_add(x),
                y: moved.y.wrapping_add(y),
            };
        }
        let said = verdict(
            rt, alloc, canvas, sample, placement, of.choice, &flows, None,
        );
        expect_row(rt, n, said.is_err());
    }
}

// Asserts that a choice stands with its flows, and is alone in that, and its window sum.
fn expect_forced(rt: &impl Abort, alloc: Global, of: &Forced) {
    let sample = volume_of(rt, alloc, of.sample.0, 1, of.sample.1);
    let canvas = canvas_with(rt, alloc, of.output, &sample, of.cells);
    let rect = Box3 {
        corner: at(of.rect.0),
        size: of.rect.1,
    };
    let from = at((0, 0, 0));
    let placement = Placement { rect, from };
    let said = verdict(
        rt, alloc, &canvas, &sample, placement, of.choice, of.flows, None,
    );
    assert_fits(rt, canvas.map().size(), &sample, &placement);
    let cost = window_after(&canvas, &sample, &placement, of.choice);
    expect_true(rt, said.is_ok() & (cost == of.cost));
    expect_no_other_choice(rt, alloc, &canvas, &sample, placement, of);
    expect_no_other_flow(rt, alloc, &canvas, &sample, placement, of);
}

#[test]
fn flows_that_are_forced(rt: HostRuntime) {
    for of in FORCED.iter() {
        expect_forced(&rt, rt.alloc(), of);
    }
}
