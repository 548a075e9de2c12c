// Worked examples, and records that don't stand.
use crate::expect::expect_row;
use crate::frames::costs_of;
use cells::Taps;
use frame_distance::StepCosts;
use loop_walk::{LoopError, LoopFault, LoopRecord, check_loop, least_loop, table_count};
use std::alloc::Global;
use std::process::Abort;

// What the checker says of a record whose tables have the right size.
fn verdict(
    rt: &impl Abort,
    costs: &StepCosts,
    walk: &[u16],
    tables: &[u64],
) -> Result<(), LoopFault> {
    let n = costs.frames() as usize;
    assert!(rt; (1 <= walk.len()) & (walk.len() <= 4096));
    assert!(rt; tables.len() == table_count(walk.len() as u32) as usize * (n * n));
    check_loop(costs, walk, tables)
}

const NONE: u64 = u64::MAX;

// The least costs of two steps between the frames 0, 3, 0 and 3.
const TABLE: &[u64] = &[0, 9, 0, 9, 9, 0, 9, 0, 0, 9, 0, 9, NONE, NONE, NONE, NONE];

const FOUR: &[u8] = &[0, 3, 0, 3];

// Frames, taps, a gap and a length; then the cost of a least loop, and its walk and its tables where the example names them.
// None where there is no loop.
type Least<'a> = (
    &'a [u8],
    Taps,
    u32,
    u32,
    Option<(u64, &'a [u16], &'a [u64])>,
);

const LEAST: &[Least<'static>] = &[
    (FOUR, Taps::None0, 1, 1, Some((9, &[], &[]))),
    (FOUR, Taps::None0, 1, 2, Some((0, &[0, 1], TABLE))),
    // Of five least walks from frame 0 this one alone has 0 at position 2, the middle. 0, 0, 1 has the
    // smaller frame at position 1.
    (FOUR, Taps::None0, 1, 3, Some((9, &[0, 1, 0], &[]))),
    // The other least walk from frame 0 is 0, 1, 2, 1, with the greater frame in the middle.
    (FOUR, Taps::None0, 1, 4, Some((0, &[0, 1, 0, 1], &[]))),
    // Two frames with a gap of 3.
    (&[0, 3], Taps::None0, 3, 2, None),
    // Three frames of which no step has four taps.
    (&[0, 1, 2], Taps::Four, 1, 3, None),
];

// Whether a loop begins at frame 0, and is as an example says.
fn is_so(made: &LoopRecord, of: (u64, &[u16], &[u64])) -> bool {
    let (cost, walk, tables) = of;
    let found = made.walk.as_slice();
    (made.cost == cost)
        & (found.first() == Some(&0))
        & (walk.is_empty() | (found == walk))
        & (tables.is_empty() | (made.tables.as_slice() == tables))
}

fn is_least(rt: &impl Abort, alloc: Global, row: &Least) -> bool {
    let (frames, taps, gap, length, expected) = *row;
    let costs = costs_of(rt, alloc, frames, taps, gap);
    assert!(rt; (1 <= length) & (length <= 4096));
    match (least_loop(alloc, &costs, length), expected) {
        (Ok(made), Some(of)) => is_so(&made, of),
        (Err(error), None) => error == LoopError::NoLoop,
        _ => false,
    }
}

#[test]
fn least_loops(rt: HostRuntime) {
    for (i, row) in LEAST.iter().enumerate() {
        expect_row(&rt, i, is_least(&rt, rt.alloc(), row));
    }
}

// A walk, an entry of the table with another value, and what the checker says.
type Row<'a> = (&'a [u16], usize, u64, Result<(), LoopFault>);

const RECORDS: &[Row<'static>] = &[
    (&[0, 1], 0, 0, Ok(())),
    (&[3, 0], 0, 0, Err(LoopFault { kind: 12, place: 0 })),
    (&[0, 4], 0, 0, Err(LoopFault { kind: 12, place: 0 })),
    (&[2, 3], 0, 0, Err(LoopFault { kind: 12, place: 1 })),
    (&[0, 2], 0, 0, Err(LoopFault { kind: 14, place: 0 })),
    (&[0, 1], 6, 10, Err(LoopFault { kind: 13, place: 6 })),
    (&[0, 1], 5, NONE, Err(LoopFault { kind: 13, place: 5 })),
];

fn is_said(rt: &impl Abort, alloc: Global, row: &Row) -> bool {
    let (walk, at, value, said) = *row;
    let costs = costs_of(rt, alloc, FOUR, Taps::None0, 1);
    let Ok(mut table) = Vec::from_slice(alloc, TABLE) else {
        rt.abort()
    };
    if let Some(entry) = table.get_mut(at) {
        *entry = value;
    }
    verdict(rt, &costs, walk, &table) == said
}

#[test]
fn checked_records(rt: HostRuntime) {
    for (i, row) in RECORDS.iter().enumerate() {
        expect_row(&rt, i, is_said(&rt, rt.alloc(), row));
    }
}
