// Worked examples of whole quilted runs over a row of four cells.
ghost use Rattle.std.specs.Prelude.{◌≤◌};
ghost use Rattle.block_strips.specs.Laid.{IsLaidByBlocks};
ghost use Rattle.quilted.specs.Runs.{HaveOneFrame};

use crate::cases::{Case, Over};
use crate::samples::{FOUR, GREYS, SIX, Source, has_sources, is_one_part};
use block_strips::{QuiltPlan, empty_map_is_laid};
use cells::Volume;
use map_canvas::Canvas;
use patch_picks::Draws;
use quilt::{next_block, quilt_canvas};
use quilted::QuiltRun;
use std::alloc::{AllocError, Global};

const WHOLE: QuiltPlan = QuiltPlan {
    block: 8,
    overlap: 5,
    tol: 10,
};

const HALVES: QuiltPlan = QuiltPlan {
    block: 4,
    overlap: 2,
    tol: 10,
};

// One block covers the row: it has no boundary. Two blocks overlap by two cells whose errors are both 1,200:
// the boundary costs that, and is in column 0.
pub(crate) const QUILTS: &[Case<'static>] = &[
    (
        GREYS,
        FOUR,
        &[],
        Over::Quilted(WHOLE, &[(0, 0), (1, 0), (2, 0), (3, 0)], (1, 0, 0)),
    ),
    (
        GREYS,
        SIX,
        &[],
        Over::Quilted(
            HALVES,
            &[(0, 0), (1, 0), (0, 0), (1, 0), (2, 0), (3, 0)],
            (2, 1, 1200),
        ),
    ),
    (GREYS, FOUR, &[], Over::Block(WHOLE)),
];

/// Whether a quilt as large as a canvas has these sources, and so many blocks and boundaries at this cost.
pub(crate) fn is_quilt(
    alloc: Global,
    plan: &QuiltPlan,
    canvas: &Canvas,
    sample: &Volume,
    sources: &[Source],
    report: (usize, u64, u64),
) -> Result<bool, AllocError> {
    let size = canvas.map().size();
    if size.f != 1 || plan.block < 1 || !is_one_part(sample) {
        return Ok(false);
    }
    if sample.size().f != 1 || sample.samples() != 3 {
        return Ok(false);
    }
    let asked = QuiltRun {
        size,
        plan: *plan,
        seed: 0,
    };
    let Ok(quilted) = quilt_canvas(alloc, &asked, sample) else {
        return Err(AllocError);
    };
    let blocks = quilted.blocks.as_slice().len();
    let is_report = (blocks, quilted.boundaries, quilted.cost) == report;
    Ok(is_report && has_sources(&quilted.canvas, sources))
}

// Whether the first block is laid with no boundary, by the first draw, and then the row is full.
fn is_first_block(
    alloc: Global,
    plan: &QuiltPlan,
    canvas: &mut Canvas,
    sample: &Volume,
) -> Result<bool, AllocError>
    requires block { 1 ≤ plan.now.block }
    requires pictures { HaveOneFrame canvas.old sample.now }
    requires laid { IsLaidByBlocks plan.now sample.now canvas.old.map }
{
    let mut draws = Draws::from_seed(0);
    let block = next_block(alloc, plan, canvas, sample, &mut draws)?;
    let is_alone = block.map(|block| block.left.is_none() && block.top.is_none());
    if is_alone != Some(true) {
        return Ok(false);
    }
    let more = next_block(alloc, plan, canvas, sample, &mut draws)?;
    Ok(more.is_none() && canvas.first_unfilled().is_none() && draws.place() == 1)
}

/// Whether one block covers a row of four cells.
pub(crate) fn is_one_block(
    alloc: Global,
    plan: &QuiltPlan,
    sample: &Volume,
) -> Result<bool, AllocError> {
    if plan.block < 1 || !is_one_part(sample) {
        return Ok(false);
    }
    if sample.size().f != 1 || sample.samples() != 3 {
        return Ok(false);
    }
    empty_map_is_laid();
    let mut canvas = Canvas::empty(alloc, FOUR, sample.samples())?;
    is_first_block(alloc, plan, &mut canvas, sample)
}
