// A transfer block by block.
ghost use Rattle.std.specs.Prelude.{◌≤◌};
ghost use Rattle.block_strips.specs.Laid.{IsLaidByBlocks};
ghost use Rattle.limits.specs.declared.bounds.TheConstants.{GREATEST_ALPHA};
ghost use Rattle.quilted.specs.Runs.{HaveOneFrame};
ghost use Rattle.transfer.specs.Search.{ServesTransfer};
ghost use Rattle.targets.specs.Targets.{IsTargetOf};

use crate::expect::expect_true;
use crate::pictures::{assert_fits, at, greys};
use block_check::BlockRecord;
use block_strips::{QuiltPlan, empty_map_is_laid};
use cells::{Box3, Size, Volume};
use map_canvas::{Canvas, Placement};
use patch_picks::Draws;
use std::alloc::{AllocError, Global};
use std::process::Abort;
use targets::target_error;
use transfer::{TargetSearch, TransferPlan, next_transfer, next_transfer_with};

// The column of the sample that a block comes from, and whether it has a boundary; None where no block is laid.
fn laid(rt: &impl Abort, block: Result<Option<BlockRecord>, AllocError>) -> Option<(i32, bool)> {
    match block {
        Ok(Some(block)) => Some((block.placement.from.x, block.left.is_some())),
        Ok(None) => None,
        Err(_) => rt.abort(),
    }
}

// Two blocks, both from the third column, each by the next draw; then the row is full.
fn assert_blocks(
    rt: &impl Abort,
    alloc: Global,
    plan: &TransferPlan,
    target: &Volume,
    search: &TargetSearch,
    canvas: &mut Canvas,
    sample: &Volume,
)
    requires block { 1 ≤ plan.now.quilt.block }
    requires alpha { plan.now.alpha ≤ GREATEST_ALPHA }
    requires target { IsTargetOf target.now.size sample.now target.now }
    requires search { ServesTransfer sample.now target.now search.now }
    requires pictures { HaveOneFrame canvas.old sample.now }
    requires laid { IsLaidByBlocks plan.now.quilt sample.now canvas.old.map }
{
    let size = target.size();
    let mut draws = Draws::from_seed(0);
    assert!(rt; canvas.map().size() == size);
    let first = laid(
        rt,
        next_transfer(alloc, plan, target, canvas, sample, &mut draws),
    );
    expect_true(rt, (first == Some((2, false))) & (draws.place() == 1));
    assert!(rt; canvas.map().size() == size);
    let second = next_transfer_with(alloc, plan, target, search, canvas, sample, &mut draws);
    expect_true(
        rt,
        (laid(rt, second) == Some((2, true))) & (draws.place() == 2),
    );
    assert!(rt; canvas.map().size() == size);
    let more = laid(
        rt,
        next_transfer(alloc, plan, target, canvas, sample, &mut draws),
    );
    expect_true(rt, more.is_none() & (draws.place() == 2));
}

// How far two cells from the third column on are from the target's, from a column of it on.
fn error_at(rt: &impl Abort, target: &Volume, sample: &Volume, x: i32) -> u64
    requires { IsTargetOf target.now.size sample.now target.now }
{
    let rect = Box3 {
        corner: at((x, 0, 0)),
        size: Size { w: 2, h: 1, f: 1 },
    };
    let from = at((2, 0, 0));
    let placement = Placement { rect, from };
    assert_fits(rt, target.size(), sample, &placement);
    target_error(target, sample, &placement)
}

const WANTED: Size = Size { w: 3, h: 1, f: 1 };

const PLAN: TransferPlan = TransferPlan {
    quilt: QuiltPlan {
        block: 2,
        overlap: 1,
        tol: 0,
    },
    alpha: 50,
};

// The first two cells of the target are the sample's last, and the next two are 3 * (10 * 10 + 30 * 30) from those.
#[test]
fn two_blocks(rt: HostRuntime) {
    let sample = greys(&rt, rt.alloc(), (4, 1, &[10, 20, 30, 40]));
    let target = greys(&rt, rt.alloc(), (3, 1, &[30, 40, 10]));
    let are_errors = (error_at(&rt, &target, &sample, 0) == 0)
        & (error_at(&rt, &target, &sample, 1) == 3000);
    expect_true(&rt, are_errors);
    let Ok(search) = TargetSearch::make(rt.alloc(), &target, &sample) else {
        rt.abort()
    };
    empty_map_is_laid();
    let canvas = Canvas::empty(rt.alloc(), WANTED, sample.samples());
    let Ok(mut canvas) = canvas else { rt.abort() };
    assert_blocks(
        &rt,
        rt.alloc(),
        &PLAN,
        &target,
        &search,
        &mut canvas,
        &sample,
    );
}
