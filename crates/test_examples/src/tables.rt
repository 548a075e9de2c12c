// The tests: whether each case of each table holds.
ghost use Rattle.map_canvas.specs.Canvases.{StandsOver};

use crate::cases::{Case, Over};
use crate::cuts::{NETWORKS, is_network};
use crate::draws::wrong_draw;
use crate::eliminations::{RULED_OUT, is_ruled_out};
use crate::expect::expect_none;
use crate::growths::{CELLS, FOUR_TO_SIX, TWO_PATCHES, is_grown};
use crate::match_sums::{ERRORS, is_error, is_within};
use crate::networks::{wrong_solution, wrong_square};
use crate::offsets::{OFFSETS, are_sums, wrong_product};
use crate::picks::{OF_GRIDS, OF_ONE_PART, OF_TWO_PARTS, PICKS, are_listed, are_picks, is_listed};
use crate::placements::{FORCED, ROWS, is_cut, is_round};
use crate::quilts::{QUILTS, is_one_block, is_quilt};
use crate::samples::{canvas_of, sample_of};
use crate::steps::{STEPS, is_step};
use crate::tilings::{TILES, TWICE, is_tile, is_twice};
use cells::{Size, Volume};
use map_canvas::Canvas;
use patch_picks::{Candidates, window_size};
use std::alloc::{AllocError, Global};

// Whether this holds of a sample and a canvas over it.
fn holds_over(
    alloc: Global,
    canvas: &mut Canvas,
    sample: &Volume,
    over: &Over,
) -> Result<bool, AllocError>
    requires { StandsOver canvas.old sample.now }
{
    match over {
        Over::Error(sum, count) => Ok(is_error(canvas, sample, *sum, *count)),
        Over::Within(tol, sum, count, holds) => {
            Ok(is_within(canvas, sample, *tol, *sum, *count, *holds))
        }
        Over::Offsets => are_sums(alloc, canvas, sample),
        Over::Network(x, held, nodes) => is_network(alloc, canvas, sample, *x, *held, nodes),
        Over::Listed(mode, q, entries) => Ok(is_listed(canvas, sample, mode, *q, *entries)),
        Over::Boxed(rect, entries) => {
            let list = Candidates::Fits { rect: *rect };
            Ok(are_listed(&list, canvas.map().size(), sample, *entries))
        }
        Over::Window(side, size) => Ok(window_size(*side, canvas.map().size(), sample) == *size),
        Over::Step(mode, number, step) => is_step(alloc, mode, canvas, sample, *number, step),
        Over::Picks(mode, rect, eligible) => {
            are_picks(alloc, mode, canvas, sample, *rect, *eligible)
        }
        Over::Cut(cut) => is_cut(alloc, canvas, sample, cut),
        Over::Round => is_round(alloc, canvas, sample),
        Over::RuledOut(searched, covered, limit, gone) => {
            is_ruled_out(alloc, canvas, sample, *searched, *covered, *limit, *gone)
        }
        Over::Tile(plan, number, patch, sources) => {
            is_tile(alloc, plan, canvas, sample, *number, *patch, *sources)
        }
        Over::Twice(plan, twice, half, cost) => {
            is_twice(alloc, plan, sample, *twice, *half, *cost)
        }
        Over::Grown(plan, growth) => is_grown(alloc, plan, sample, growth),
        Over::Quilted(plan, sources, report) => {
            is_quilt(alloc, plan, canvas, sample, *sources, *report)
        }
        Over::Block(plan) => is_one_block(alloc, plan, sample),
    }
}

// Whether it holds of a canvas that is filled so.
fn holds_of(
    alloc: Global,
    sample: &Volume,
    part: Size,
    size: Size,
    sources: &[i32],
    over: &Over,
) -> Result<bool, AllocError> {
    let mut canvas = canvas_of(alloc, size, part, sample, sources)?;
    holds_over(alloc, &mut canvas, sample, over)
}

fn holds(alloc: Global, case: &Case) -> Result<bool, AllocError> {
    let (described, size, sources, over) = case;
    let (first, _) = described;
    let sample = sample_of(alloc, described)?;
    holds_of(alloc, &sample, first.0, *size, *sources, over)
}

// The number of the first case, from 0, that doesn't hold.
fn wrong_case(alloc: Global, table: &[Case]) -> Result<Option<usize>, AllocError> {
    for (i, case) in table.iter().enumerate() {
        if !holds(alloc, case)? {
            return Ok(Some(i));
        }
    }
    Ok(None)
}

#[test]
fn draws(rt: HostRuntime) {
    expect_none(&rt, Ok(wrong_draw()));
}

#[test]
fn match_sums(rt: HostRuntime) {
    expect_none(&rt, wrong_case(rt.alloc(), ERRORS));
    expect_none(&rt, wrong_product(rt.alloc()));
    expect_none(&rt, wrong_case(rt.alloc(), OFFSETS));
}

#[test]
fn eliminations(rt: HostRuntime) {
    expect_none(&rt, wrong_case(rt.alloc(), RULED_OUT));
}

#[test]
fn picks(rt: HostRuntime) {
    expect_none(&rt, wrong_case(rt.alloc(), OF_ONE_PART));
    expect_none(&rt, wrong_case(rt.alloc(), OF_GRIDS));
    expect_none(&rt, wrong_case(rt.alloc(), OF_TWO_PARTS));
    expect_none(&rt, wrong_case(rt.alloc(), STEPS));
    expect_none(&rt, wrong_case(rt.alloc(), PICKS));
}

#[test]
fn networks(rt: HostRuntime) {
    expect_none(&rt, wrong_solution(rt.alloc()));
    expect_none(&rt, wrong_square(rt.alloc()));
    expect_none(&rt, wrong_case(rt.alloc(), NETWORKS));
}

#[test]
fn placements(rt: HostRuntime) {
    expect_none(&rt, wrong_case(rt.alloc(), ROWS));
    expect_none(&rt, wrong_case(rt.alloc(), FORCED));
}

#[test]
fn runs(rt: HostRuntime) {
    expect_none(&rt, wrong_case(rt.alloc(), FOUR_TO_SIX));
    expect_none(&rt, wrong_case(rt.alloc(), CELLS));
    expect_none(&rt, wrong_case(rt.alloc(), TWO_PATCHES));
    expect_none(&rt, wrong_case(rt.alloc(), QUILTS));
    expect_none(&rt, wrong_case(rt.alloc(), TILES));
    expect_none(&rt, wrong_case(rt.alloc(), TWICE));
}
