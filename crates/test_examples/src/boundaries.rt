// Worked examples: what the definitions mean on strips that are small enough to work by hand.
ghost use Rattle.std.specs.Prelude.{◌≡◌, ◌*◌};

use crate::expect::expect_row;
use std::alloc::Global;
use std::process::Abort;
use strip_boundary::{
    BlockFault, BoundaryRecord, GREATEST_ERROR, Items, Strip, check_boundary, least_boundary,
};

// Rows, columns and errors of a strip.
type Errors<'a> = (u32, u32, &'a [u32]);

// The strip with these errors.
fn strip_of(rt: &impl Abort, alloc: Global, rows: u32, cols: u32, errors: &[u32]) -> Strip
    ensures rows { result.rows ≡ rows }
    ensures cols { result.cols ≡ cols }
{
    assert!(rt; (1 <= rows) & (rows <= 16) & (1 <= cols) & (cols <= 16));
    assert!(rt; errors.len() == rows as usize * cols as usize);
    assert!(rt; errors.iter().all(|error| *error <= GREATEST_ERROR));
    let Ok(strip) = Strip::make(alloc, rows, cols, errors) else {
        rt.abort()
    };
    strip
}

// The record of this path and these sums.
fn record_of(rt: &impl Abort, alloc: Global, path: &[u16], sums: &[u32]) -> BoundaryRecord
    ensures { result.sums ≡ sums.now }
{
    let Ok(path) = Vec::from_slice(alloc, path) else {
        rt.abort()
    };
    let Ok(sums) = Vec::from_slice(alloc, sums) else {
        rt.abort()
    };
    BoundaryRecord {
        path: Items::from_vec(path),
        sums: Items::from_vec(sums),
    }
}

// A strip, and the path and the sums of its first least boundary.
type Least<'a> = (Errors<'a>, &'a [u16], &'a [u32]);

const LEAST: &[Least<'static>] = &[
    ((3, 2, &[5, 1, 1, 5, 1, 1]), &[1, 0, 0], &[5, 1, 2, 6, 3, 3]),
    ((2, 2, &[4, 4, 4, 4]), &[0, 0], &[4, 4, 8, 8]),
    ((1, 4, &[3, 2, 2, 9]), &[1], &[3, 2, 2, 9]),
    ((3, 1, &[7, 0, 5]), &[0, 0, 0], &[7, 7, 12]),
    // The least cells of the rows, 2 and 0, are two columns apart.
    ((2, 3, &[9, 5, 0, 0, 3, 4]), &[2, 1], &[9, 5, 0, 5, 3, 4]),
    ((1, 1, &[195_075]), &[0], &[195_075]),
];

fn is_least(rt: &impl Abort, alloc: Global, of: &Least) -> bool {
    let ((rows, cols, errors), path, sums) = *of;
    let strip = strip_of(rt, alloc, rows, cols, errors);
    let Ok(made) = least_boundary(alloc, &strip) else {
        rt.abort()
    };
    (made.path.as_slice() == path) & (made.sums.as_slice() == sums)
}

#[test]
fn least_boundaries(rt: HostRuntime) {
    for (i, of) in LEAST.iter().enumerate() {
        expect_row(&rt, i, is_least(&rt, rt.alloc(), of));
    }
}

// A strip, the path and the sums of a record, and the kind and the place of its first fault.
type Checked<'a> = (Errors<'a>, &'a [u16], &'a [u32], Result<(), BlockFault>);

const TWO: Errors<'static> = (3, 2, &[5, 1, 1, 5, 1, 1]);

const THREE: Errors<'static> = (2, 3, &[9, 9, 0, 1, 1, 1]);

const CHECKED: &[Checked<'static>] = &[
    (TWO, &[1, 0, 0], &[5, 1, 2, 6, 3, 3], Ok(())),
    (TWO, &[1, 0, 1], &[5, 1, 2, 6, 3, 3], Ok(())),
    (
        TWO,
        &[0, 0, 0],
        &[5, 1, 2, 6, 3, 3],
        Err(BlockFault { kind: 11, place: 0 }),
    ),
    // Lower sums hold, but show less than the cost.
    (
        TWO,
        &[1, 0, 0],
        &[5, 1, 2, 6, 3, 2],
        Err(BlockFault { kind: 11, place: 0 }),
    ),
    (
        TWO,
        &[],
        &[5, 1, 2, 6, 3, 3],
        Err(BlockFault { kind: 9, place: 0 }),
    ),
    (
        TWO,
        &[1, 0],
        &[5, 1, 2, 6, 3, 3],
        Err(BlockFault { kind: 9, place: 2 }),
    ),
    (
        TWO,
        &[1, 0, 0, 0],
        &[5, 1, 2, 6, 3, 3],
        Err(BlockFault { kind: 9, place: 3 }),
    ),
    (
        TWO,
        &[2, 0, 0],
        &[5, 1, 2, 6, 3, 3],
        Err(BlockFault { kind: 9, place: 0 }),
    ),
    (
        TWO,
        &[1, 2, 0],
        &[5, 1, 2, 6, 3, 3],
        Err(BlockFault { kind: 9, place: 1 }),
    ),
    // Above a column that is out of the strip all is well, and below it not tried.
    (
        TWO,
        &[1, 0, 2, 7],
        &[6, 1, 2, 6, 3, 3],
        Err(BlockFault { kind: 9, place: 2 }),
    ),
    (
        TWO,
        &[1, 0, 0],
        &[5, 1, 2, 7, 3, 3],
        Err(BlockFault { kind: 10, place: 3 }),
    ),
    (
        TWO,
        &[1, 0, 0],
        &[4, 1, 2, 6, 3, 4],
        Err(BlockFault { kind: 10, place: 0 }),
    ),
    (
        TWO,
        &[0, 0, 0],
        &[5, 1, 2, 6, 3, u32::MAX],
        Err(BlockFault { kind: 10, place: 5 }),
    ),
    (THREE, &[2, 2], &[9, 9, 0, 10, 1, 1], Ok(())),
    (
        THREE,
        &[0, 2],
        &[9, 9, 0, 10, 1, 1],
        Err(BlockFault { kind: 9, place: 1 }),
    ),
    // Only the third of the sums above is too small for this one.
    (
        THREE,
        &[2, 2],
        &[9, 9, 0, 10, 10, 1],
        Err(BlockFault { kind: 10, place: 4 }),
    ),
];

fn is_said(rt: &impl Abort, alloc: Global, of: &Checked) -> bool {
    let ((rows, cols, errors), path, sums, said) = *of;
    let strip = strip_of(rt, alloc, rows, cols, errors);
    let boundary = record_of(rt, alloc, path, sums);
    assert!(rt; sums.len() == rows as usize * cols as usize);
    check_boundary(&strip, &boundary) == said
}

#[test]
fn checked_records(rt: HostRuntime) {
    for (i, of) in CHECKED.iter().enumerate() {
        expect_row(&rt, i, is_said(&rt, rt.alloc(), of));
    }
}
