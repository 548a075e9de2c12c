// How far the cells of a placement are from those of a target.
ghost use Rattle.std.specs.Prelude.{◌≡◌, ◌≤◌, ◌<◌, ◌*◌};
ghost use Rattle.cells.specs.Places.{SumFits, cell_count, plus, spot};
ghost use Rattle.map_canvas.specs.Choices.{Fits};
ghost use Rattle.match_error.specs.Errors.{most_cell_error, most_frame_error, most_row_error};
ghost use Rattle.targets.specs.Targets.{target_frame, target_row, target_sum};

use cells::{At, Volume};
use lane_kernels::ssd;
use limits::GREATEST_AXIS;
use map_canvas::Placement;

// The first place of a row of a box.
fn row_start(corner: At, y: u32, f: u32) -> At
    requires counts { (y < GREATEST_AXIS) × (f < GREATEST_AXIS) }
    requires fits { SumFits corner (spot 0 y f) }
    ensures { result ≡ plus corner (spot 0 y f) }
{
    let step = At {
        x: 0,
        y: y as i32,
        f: f as i32,
    };
    corner.plus(step)
}

// The sum over a row of the box.
fn row_sum(target: &Volume, sample: &Volume, placement: &Placement, y: u32, f: u32) -> u64
    requires samples { target.now.k ≡ sample.now.k }
    requires fits { Fits target.now.size sample.now placement.now }
    requires counts { (y < placement.now.rect.size.h) × (f < placement.now.rect.size.f) }
    ensures sum { result ≡ target_row target.now sample.now placement.now y f }
    ensures small { result ≤ most_row_error }
{
    // Called for their contracts only: they show the prover that these are volumes.
    let _target = target.samples();
    let _sample = sample.samples();
    let w = placement.rect.size.w;
    let wanted = target.row(row_start(placement.rect.corner, y, f), w);
    let new = sample.row(row_start(placement.from, y, f), w);
    ssd(wanted, new)
}

// The sum over a frame of the box.
fn frame_sum(target: &Volume, sample: &Volume, placement: &Placement, f: u32) -> u64
    requires samples { target.now.k ≡ sample.now.k }
    requires fits { Fits target.now.size sample.now placement.now }
    requires count { f < placement.now.rect.size.f }
    requires rows { placement.now.rect.size.h ≤ GREATEST_AXIS }
    ensures sum { result ≡ target_frame target.now sample.now placement.now f }
    ensures small { result ≤ most_frame_error }
{
    let mut sum: u64 = 0;
    for y in 0..placement.rect.size.h {
        sum += row_sum(target, sample, placement, y, f);
    }
    sum
}

/// How far the cells of a placement are from those of a target: the sum over all cells of the box and the samples of
/// each of the squared differences. The box lies in the target. It takes no memory.
pub fn target_error(target: &Volume, sample: &Volume, placement: &Placement) -> u64
    requires samples { target.now.k ≡ sample.now.k }
    requires fits { Fits target.now.size sample.now placement.now }
    ensures sum { result ≡ target_sum target.now sample.now placement.now }
    ensures small { result ≤ most_cell_error * cell_count placement.now.rect.size }
{
    // Called for their contracts only: they show the prover that these are volumes.
    let _target = target.samples();
    let _sample = sample.samples();
    let mut sum: u64 = 0;
    for f in 0..placement.rect.size.f {
        sum += frame_sum(target, sample, placement, f);
    }
    sum
}
