// Worked examples, and the calls that take memory once each.
use crate::expect::{expect_row, expect_true};
use crate::pictures::volume_of;
use cells::{Size, Taps};
use frame_distance::{StepCosts, distances, filtered};
use std::alloc::Global;
use std::process::Abort;

// Two frames of two cells, of three bytes each.
const PAIR: &[u8] = &[1, 2, 3, 4, 5, 6, 2, 2, 3, 5, 5, 9];

#[test]
fn distances_over_all_samples(rt: HostRuntime) {
    let clip = volume_of(&rt, rt.alloc(), Size { w: 2, h: 1, f: 2 }, 3, PAIR);
    let Ok(table) = distances(rt.alloc(), &clip) else {
        rt.abort()
    };
    assert!(rt; table.frames() == 2);
    let is_even = (table.at(0, 0) == 0) & (table.at(1, 1) == 0);
    expect_true(
        &rt,
        is_even & (table.at(0, 1) == 11) & (table.at(1, 0) == 11),
    );
}

/// The step costs of a clip of one byte a frame.
pub(crate) fn costs_of(
    rt: &impl Abort,
    alloc: Global,
    frames: &[u8],
    taps: Taps,
    gap: u32,
) -> StepCosts {
    assert!(rt; frames.len() <= 16);
    let f = frames.len() as u32;
    let clip = volume_of(rt, alloc, Size { w: 1, h: 1, f }, 1, frames);
    let Ok(table) = distances(alloc, &clip) else {
        rt.abort()
    };
    let Ok(costs) = filtered(alloc, &table, taps, gap) else {
        rt.abort()
    };
    costs
}

// Taps, a gap, two frames, and the cost of the step between them where there is one. The frames of one sample are 0, 1, 3, 7
// and 12.
type Step = (Taps, u32, u32, u32, Option<u64>);

const STEPS: &[Step] = &[
    (Taps::None0, 1, 0, 0, Some(1)),
    (Taps::None0, 1, 0, 1, Some(0)),
    (Taps::None0, 1, 1, 1, Some(4)),
    (Taps::None0, 1, 4, 0, None),
    (Taps::Two, 2, 1, 4, Some(117)),
    (Taps::Two, 2, 1, 3, None),
    (Taps::Two, 2, 1, 2, Some(0)),
    (Taps::Two, 2, 1, 0, None),
    (Taps::Four, 1, 1, 3, Some(86)),
    (Taps::Four, 1, 2, 2, Some(86)),
    (Taps::Four, 1, 0, 3, None),
    (Taps::Four, 1, 3, 4, Some(0)),
    (Taps::Four, 2, 1, 3, None),
    (Taps::Four, 2, 2, 2, None),
];

fn is_step(rt: &impl Abort, alloc: Global, of: &Step) -> bool {
    let (taps, gap, from, to, cost) = *of;
    let costs = costs_of(rt, alloc, &[0, 1, 3, 7, 12], taps, gap);
    assert!(rt; costs.frames() == 5);
    assert!(rt; (from < 5) & (to < 5));
    costs.step(from, to) == cost
}

#[test]
fn steps_by_filter_and_gap(rt: HostRuntime) {
    for (i, of) in STEPS.iter().enumerate() {
        expect_row(&rt, i, is_step(&rt, rt.alloc(), of));
    }
}
