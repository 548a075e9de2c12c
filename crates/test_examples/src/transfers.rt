// Whole transfers.
use crate::expect::{expect_row, expect_true};
use crate::pictures::{at, greys};
use block_strips::QuiltPlan;
use cells::Volume;
use lane_kernels::ssd;
use limits::GREATEST_ALPHA;
use quilted::{QuiltRun, Quilted};
use std::alloc::Global;
use std::process::Abort;
use transfer::transfer_canvas;

// What is asked for, and what comes out.
struct Case {
    sample: (u32, u32, &'static [u8]),
    target: (u32, u32, &'static [u8]),
    block: u32,
    overlap: u32,
    tol: u32,
    alpha: u32,
    seed: u64,
    // the column and the row of the sample that each cell comes from, where the example names them
    sources: &'static [(i32, i32)],
    blocks: usize,
    boundaries: u64,
    cost: u64,
    matched: u64,
}

const ROW: (u32, u32, &'static [u8]) = (4, 1, &[10, 20, 30, 40]);

const SQUARE: (u32, u32, &'static [u8]) = (3, 3, &[10, 20, 30, 40, 50, 60, 70, 80, 90]);

const WANTED: (u32, u32, &'static [u8]) = (3, 3, &[90, 20, 50, 40, 10, 70, 30, 60, 80]);

const SOURCES: &[(i32, i32)] = &[
    (1, 0),
    (1, 0),
    (2, 0),
    (1, 0),
    (0, 1),
    (1, 1),
    (1, 1),
    (0, 2),
    (1, 2),
];

const CASES: &[Case] = &[
    Case {
        sample: ROW,
        target: (2, 1, &[30, 40]),
        block: 2,
        overlap: 0,
        tol: 0,
        alpha: 0,
        seed: 0,
        sources: &[(2, 0), (3, 0)],
        blocks: 1,
        boundaries: 0,
        cost: 0,
        matched: 0,
    },
    Case {
        sample: ROW,
        target: (3, 1, &[30, 40, 10]),
        block: 2,
        overlap: 1,
        tol: 0,
        alpha: 50,
        seed: 0,
        sources: &[(2, 0), (2, 0), (3, 0)],
        blocks: 2,
        boundaries: 1,
        cost: 300,
        matched: 3000,
    },
    Case {
        sample: SQUARE,
        target: WANTED,
        block: 2,
        overlap: 1,
        tol: 0,
        alpha: 50,
        seed: 0,
        sources: SOURCES,
        blocks: 4,
        boundaries: 4,
        cost: 5700,
        matched: 22500,
    },
    Case {
        sample: SQUARE,
        target: WANTED,
        block: 2,
        overlap: 1,
        tol: 0,
        alpha: 0,
        seed: 0,
        sources: SOURCES,
        blocks: 4,
        boundaries: 4,
        cost: 5700,
        matched: 22500,
    },
    Case {
        sample: SQUARE,
        target: WANTED,
        block: 2,
        overlap: 1,
        tol: 0,
        alpha: 100,
        seed: 0,
        sources: &[],
        blocks: 4,
        boundaries: 4,
        cost: 6000,
        matched: 24900,
    },
    Case {
        sample: SQUARE,
        target: WANTED,
        block: 2,
        overlap: 1,
        tol: 1000,
        alpha: 100,
        seed: 3,
        sources: &[],
        blocks: 4,
        boundaries: 4,
        cost: 37200,
        matched: 21600,
    },
];

// Asserts which places of the sample the cells of a picture of so many columns come from.
fn expect_sources(rt: &impl Abort, quilted: &Quilted, w: u32, sources: &[(i32, i32)]) {
    let map = quilted.canvas.map();
    assert!(rt; (1 <= w) & (w < 100));
    for (i, (x, y)) in sources.iter().enumerate() {
        assert!(rt; i < 100);
        let p = at((i as i32 % w as i32, i as i32 / w as i32, 0));
        expect_row(rt, i, map.at(p) == Some(at((*x, *y, 0))));
    }
}

// Whether what comes out is as a case says, but for its sources.
fn is_made(rt: &impl Abort, case: &Case, quilted: &Quilted, target: &Volume) -> bool {
    let (made, wanted) = (quilted.canvas.picture().bytes(), target.bytes());
    assert!(rt; made.len() == wanted.len());
    assert!(rt; made.len() < 1000);
    (quilted.blocks.as_slice().len() == case.blocks)
        & (quilted.boundaries == case.boundaries)
        & (quilted.cost == case.cost)
        & (ssd(made, wanted) == case.matched)
}

fn expect_case(rt: &impl Abort, alloc: Global, case: &Case) {
    let target = greys(rt, alloc, case.target);
    let sample = greys(rt, alloc, case.sample);
    let plan = QuiltPlan {
        block: case.block,
        overlap: case.overlap,
        tol: case.tol,
    };
    let asked = QuiltRun {
        size: target.size(),
        plan,
        seed: case.seed,
    };
    assert!(rt; (case.block >= 1) & (case.alpha <= GREATEST_ALPHA));
    let made = transfer_canvas(alloc, &asked, case.alpha, &target, &sample);
    let Ok(quilted) = made else { rt.abort() };
    expect_true(rt, is_made(rt, case, &quilted, &target));
    expect_sources(rt, &quilted, case.target.0, case.sources);
}

#[test]
fn worked_values(rt: HostRuntime) {
    for case in CASES.iter() {
        expect_case(&rt, rt.alloc(), case);
    }
}
