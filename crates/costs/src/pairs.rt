// The cost of two neighbours.
ghost use Rattle.std.specs.Prelude.{◌≡◌, ◌≤◌, IfSome};
ghost use Rattle.cells.specs.Distances.{distance};
ghost use Rattle.map_canvas.specs.Maps.{IsSource, map_at};
ghost use Rattle.costs.specs.Costs.{most_of_pair, pair_at, seam_of};

use cells::{At, Axis, Volume, cell_distance};
use map_canvas::Canvas;

/// The cost of a cell of source `a` and the next one along an axis, of source `b`: how far `a` is from
/// what comes before `b` in the sample, and what comes after `a` from `b`. It is 0 where one of the
/// two is missing.
#[tactic(auto, using(crate::proofs::Near::step_fits))]
pub fn seam_of(sample: &Volume, axis: Axis, a: Option<At>, b: Option<At>) -> u32
    requires a { IfSome a IsSource }
    requires b { IfSome b IsSource }
    ensures cost { result ≡ seam_of (distance sample.now) axis a b }
    ensures small { result ≤ most_of_pair }
{
    let (Some(a), Some(b)) = (a, b) else {
        return 0;
    };
    let step = axis.unit();
    // Most neighbours have been copied together, and are neighbours in the sample too.
    if a.plus(step) == b {
        return 0;
    }
    cell_distance(sample, a, b.minus(step)) + cell_distance(sample, a.plus(step), b)
}

/// The cost of the cell at a place and the next one along an axis: how far the source of the first is
/// from what comes before the source of the next in the sample, and what comes after the source of
/// the first from that of the next. It is 0 where one of the two isn't a filled cell of the output.
pub fn pair_cost(canvas: &Canvas, sample: &Volume, at: At, axis: Axis) -> u32
    ensures cost { result ≡ pair_at (distance sample.now) (map_at canvas.now.map) axis at }
    ensures small { result ≤ most_of_pair }
{
    let map = canvas.map();
    match map.at(at) {
        Some(a) => seam_of(sample, axis, Some(a), map.at(at.plus(axis.unit()))),
        None => 0,
    }
}
