// Growths, and checks of their records.
ghost use Rattle.std.specs.Prelude.{◌≤◌, All, IfOk};
ghost use Rattle.cells.specs.Places.{IsSmall};
ghost use Rattle.patch_picks.specs.Fitting.{HasPatch};
ghost use Rattle.cut_replay.specs.Replay.{IsFormed};
ghost use Rattle.bench.specs.Sizes.{IsGrowthCase};

use crate::samples::{Texture, sample_of, sum_of};
use cells::{Size, Volume};
use cut_replay::replay_cuts;
use grow_run::grow_canvas;
use grown::{GrowPlan, Grown};
use map_canvas::Canvas;
use patch_picks::Mode;
use std::alloc::{AllocError, Global};

/// A growth: the texture and the side of its sample, and what is grown of it.
#[derive(Drop)]
pub struct GrowthCase {
    pub texture: Texture,
    pub sample: u32,
    pub w: u32,
    pub h: u32,
    pub mode: Mode,
    pub rounds: u32,
}

// The plan of a growth.
fn plan_of(growth: &GrowthCase) -> GrowPlan
    requires { IsGrowthCase growth.now }
    ensures small { IsSmall result.size }
    ensures patch { HasPatch result.mode }
    ensures side { 1 ≤ result.side }
{
    GrowPlan {
        size: Size {
            w: growth.w,
            h: growth.h,
            f: 1,
        },
        mode: growth.mode,
        side: 32,
        tol: 10,
        rounds: growth.rounds,
        seed: 1,
    }
}

// The run of a plan.
fn grown(alloc: Global, plan: &GrowPlan, sample: &Volume) -> Result<Grown, AllocError>
    requires small { IsSmall plan.now.size }
    requires patch { HasPatch plan.now.mode }
    requires side { 1 ≤ plan.now.side }
    ensures { IfOk result (λ run. All IsFormed run.cuts) }
{
    let Ok(grown) = grow_canvas(alloc, plan, sample) else {
        return Err(AllocError);
    };
    Ok(grown)
}

// Grows once. The number is of the picture's bytes.
fn grow_once(alloc: Global, plan: &GrowPlan, sample: &Volume) -> Result<u64, AllocError>
    requires small { IsSmall plan.now.size }
    requires patch { HasPatch plan.now.mode }
    requires side { 1 ≤ plan.now.side }
{
    let grown = grown(alloc, plan, sample)?;
    Ok(u64::from(sum_of(grown.canvas.picture().bytes())))
}

/// Grows so often. The number is of the picture's bytes.
pub fn grow_often(alloc: Global, growth: &GrowthCase, times: u32) -> Result<u64, AllocError>
    requires { IsGrowthCase growth.now }
{
    let sample = sample_of(alloc, growth.texture, growth.sample)?;
    let plan = plan_of(growth);
    let mut number = 0u64;
    for _time in 0..times {
        number = grow_once(alloc, &plan, &sample)?;
    }
    Ok(number)
}

// Checks all records once. The number counts them where they stand.
fn check_once(alloc: Global, size: Size, sample: &Volume, grown: &Grown) -> Result<u64, AllocError>
    requires size { IsSmall size }
    requires formed { All IsFormed grown.now.cuts }
{
    let mut canvas = Canvas::empty(alloc, size, sample.samples())?;
    let cuts = grown.cuts.as_slice();
    match replay_cuts(&mut canvas, sample, cuts) {
        Ok(()) => Ok(cuts.len() as u64),
        Err(_) => Ok(0),
    }
}

fn check_often(
    alloc: Global,
    size: Size,
    sample: &Volume,
    grown: &Grown,
    times: u32,
) -> Result<u64, AllocError>
    requires size { IsSmall size }
    requires formed { All IsFormed grown.now.cuts }
{
    let mut number = 0u64;
    for _time in 0..times {
        number = number.wrapping_add(check_once(alloc, size, sample, grown)?);
    }
    Ok(number)
}

// The same of what is grown of a sample.
fn check_grown(
    alloc: Global,
    plan: &GrowPlan,
    sample: &Volume,
    times: u32,
) -> Result<u64, AllocError>
    requires small { IsSmall plan.now.size }
    requires patch { HasPatch plan.now.mode }
    requires side { 1 ≤ plan.now.side }
{
    let grown = grown(alloc, plan, sample)?;
    check_often(alloc, plan.size, sample, &grown, times)
}

/// Grows once, and checks all records so often. The number counts the records that stand.
pub fn check_records(alloc: Global, growth: &GrowthCase, times: u32) -> Result<u64, AllocError>
    requires { IsGrowthCase growth.now }
{
    let sample = sample_of(alloc, growth.texture, growth.sample)?;
    check_grown(alloc, &plan_of(growth), &sample, times)
}
