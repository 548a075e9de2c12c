// The sums of the costs over the neighbours of a box, and of the whole output.
ghost use Rattle.std.specs.Prelude.{◌≡◌, ◌<◌, ◌≤◌, IfSome};
ghost use Rattle.cells.specs.Boxes.{HoldsBox, cell_in};
ghost use Rattle.cells.specs.Distances.{distance};
ghost use Rattle.cells.specs.Neighbours.{unit_step};
ghost use Rattle.cells.specs.Places.{plus};
ghost use Rattle.map_canvas.specs.Maps.{IsSource, map_at};
ghost use Rattle.boxes.specs.Pairs.{AreCounts};
ghost use Rattle.boxes.specs.Raster.{largest};
ghost use Rattle.costs.specs.Costs.{most_of_frame, most_of_row, pairs_of_box, pairs_of_frame, pairs_of_row, total_of, window_of};

use crate::intersection::intersection;
use crate::pairs::seam_of;
use crate::sources::{Sources, Within};
use boxes::{Counts, has_cells};
use cells::{At, Axis, Box3, Volume};
use map_canvas::Canvas;

// The source of the next cell along an axis.
#[tactic(auto, using(crate::proofs::Near::next_asked))]
fn next_source<S: Sources>(sources: &S, rect: &Box3, at: Counts, axis: Axis) -> Option<At>
    requires inside { HoldsBox largest rect.now.corner rect.now.size }
    requires counts { AreCounts rect.now.size at.x at.y at.f }
    ensures source { result ≡ S.source_at sources.now
        (plus (cell_in rect.now at.x at.y at.f) (unit_step axis)) }
    ensures near { IfSome result IsSource }
{
    let next = at.cell(rect).plus(axis.unit());
    sources.source(next)
}

// The costs of a row. Its cells are asked for one after another, each once.
#[tactic(auto, using(crate::proofs::Near::cell_asked))]
fn row<S: Sources>(sources: &S, sample: &Volume, rect: &Box3, y: u32, f: u32) -> u64
    requires inside { HoldsBox largest rect.now.corner rect.now.size }
    requires counts { (y < rect.now.size.h) × (f < rect.now.size.f) }
    ensures sum { result ≡ pairs_of_row (distance sample.now)
        (S.source_at sources.now) rect.now y f }
    ensures small { result ≤ most_of_row }
{
    if rect.size.w == 0 {
        return 0;
    }
    let first = Counts { x: 0, y, f };
    let mut a = sources.source(first.cell(rect));
    let mut sum: u64 = 0;
    for x in 0..rect.size.w {
        let at = Counts { x, y, f };
        let next = next_source(sources, rect, at, Axis::X);
        let below = next_source(sources, rect, at, Axis::Y);
        let later = next_source(sources, rect, at, Axis::F);
        let costs = seam_of(sample, Axis::X, a, next)
            + seam_of(sample, Axis::Y, a, below)
            + seam_of(sample, Axis::F, a, later);
        sum += u64::from(costs);
        a = next;
    }
    sum
}

// The costs of a frame.
fn frame<S: Sources>(sources: &S, sample: &Volume, rect: &Box3, f: u32) -> u64
    requires inside { HoldsBox largest rect.now.corner rect.now.size }
    requires count { f < rect.now.size.f }
    ensures sum { result ≡ pairs_of_frame (distance sample.now)
        (S.source_at sources.now) rect.now f }
    ensures small { result ≤ most_of_frame }
{
    let mut sum: u64 = 0;
    for y in 0..rect.size.h {
        sum += row(sources, sample, rect, y, f);
    }
    sum
}

/// Over the cells of a box, the costs of each and the next one along each axis, which may lie outside the
/// box.
pub fn pairs_of_box<S: Sources>(sources: &S, sample: &Volume, rect: &Box3) -> u64
    requires { HoldsBox largest rect.now.corner rect.now.size }
    ensures { result ≡ pairs_of_box (distance sample.now) (S.source_at sources.now) rect.now }
{
    let mut sum: u64 = 0;
    for f in 0..rect.size.f {
        sum += frame(sources, sample, rect, f);
    }
    sum
}

/// The window sum of a box: the sum of the costs over all neighbours that are both in the box. What of
/// the box lies outside the output adds nothing.
pub fn window(canvas: &Canvas, sample: &Volume, rect: &Box3) -> u64
    ensures { result ≡ window_of (distance sample.now) rect.now (map_at canvas.now.map) }
{
    let map = canvas.map();
    let inner = intersection(map.size(), rect);
    if !has_cells(inner.size) {
        return 0;
    }
    pairs_of_box(&Within { map, rect: inner }, sample, &inner)
}

/// The sum of the costs over all neighbours of the output: the window sum of the whole.
pub fn total(canvas: &Canvas, sample: &Volume) -> u64
    ensures { result ≡ total_of (distance sample.now) canvas.now.map.size (map_at canvas.now.map) }
{
    let map = canvas.map();
    let rect = Box3 {
        corner: At { x: 0, y: 0, f: 0 },
        size: map.size(),
    };
    pairs_of_box(map, sample, &rect)
}
