// The sums of all windows of a block of corners, from the costs of the pairs of all their cells.
ghost use Rattle.std.specs.Prelude.{◌≡◌, ◌≤◌, ◌<◌, ℕ, ◌+◌, ◌*◌, ◌/◌, ◌%◌, ◌^◌, length, slice_index, slice_index_or, nat_lt, All, IfSome, None};
ghost use Rattle.cells.specs.Boxes.{HasCells};
ghost use Rattle.cells.specs.Distances.{distance};
ghost use Rattle.cells.specs.Places.{IsSmall, cell_count, raster_index, spot};
ghost use Rattle.boxes.specs.Pairs.{AreCounts, has_next};
ghost use Rattle.map_canvas.specs.Maps.{IsSource, map_at};
ghost use Rattle.costs.specs.Costs.{most_of_pair, seam_of};
ghost use Rattle.cost_windows.specs.Windows.{window_at};
ghost use Rattle.cost_windows.specs.Slides.{AreAtMost, AreCosts, AreRowCosts, EachOfRows, HoldsBlock, IsInBlock, SameElsewhere, added, at_row, axis_sum, block_size, less_one, IsLens, most_after_three, number_if, reach_of, row_offset, row_start};
ghost use Rattle.cost_windows.specs.Tables.{IsWindow, corners};

use crate::block::{Block, corners};
use crate::slide::sum_boxes;
use boxes::{Counts, has_cells, stride};
use cells::{Axis, Size, Volume};
use costs::seam_of;
use map_canvas::{Entry, Map};

// How many cells of a row, from a cell on and of so many, have a next one along an axis. They come first.
fn pairs_of_row(size: Size, first: Counts, len: usize, axis: Axis) -> usize
    requires { AreCounts size first.x first.y first.f }
    ensures { (k : ℕ) → k < len →
        has_next size axis (first.x + k) first.y first.f ≡ nat_lt k result }
{
    if !first.has_next(size, axis) {
        return 0;
    }
    match axis {
        Axis::X => len.min((size.w - first.x - 1) as usize),
        Axis::Y | Axis::F => len,
    }
}

// The cost of the cell at an index and the next one along an axis, so many after it. Most neighbours have
// been copied together: they cost nothing, and their sources aren't read.
fn cost_at(sample: &Volume, axis: Axis, entries: &[Entry], i: usize, step: usize) -> u32
    requires inside { i + step < length entries.now }
    requires sources { All (λ source. IfSome source IsSource) entries.now }
    ensures cost { result ≡ seam_of (distance sample.now) axis
        (slice_index_or entries.now i None) (slice_index_or entries.now (i + step) None) }
    ensures small { result ≤ most_of_pair }
{
    let (first, next) = (entries[i], entries[i + step]);
    if first.is_followed(next, axis) {
        return 0;
    }
    seam_of(sample, axis, first.source(), next.source())
}

// The costs of the cells of a row and the next ones along an axis, from a cell on.
fn fill_row(costs: &mut [u64], map: &Map, sample: &Volume, first: Counts, axis: Axis)
    requires counts { AreCounts map.now.size first.x first.y first.f }
    requires row { first.x + length costs.old ≤ map.now.size.w }
    ensures costs { AreRowCosts (distance sample.now) (map_at map.now) axis
        first.x first.y first.f costs.new }
    ensures small { AreAtMost most_of_pair costs.new }
{
    let size = map.size();
    let sources = map.sources();
    let start = first.index(size);
    let step = stride(size, axis);
    let pairs = pairs_of_row(size, first, costs.len(), axis);
    for k in 0..costs.len() {
        costs[k] = if k < pairs {
            u64::from(cost_at(sample, axis, sources, start + k, step))
        } else {
            0
        };
    }
}

// The costs of the cells of a block and the next ones along an axis, in raster order of the block.
fn fill(costs: &mut [u64], map: &Map, sample: &Volume, block: &Block, axis: Axis)
    requires inside { HoldsBlock map.now.size block.now }
    requires some { 1 ≤ block.now.x.len }
    requires count { length costs.old ≡ cell_count (block_size block.now) }
    ensures costs { AreCosts (distance sample.now) (map_at map.now) axis block.now costs.new }
    ensures small { AreAtMost most_of_pair costs.new }
{
    let _size = map.size();
    let w = block.x.len as usize;
    let rows = block.y.len * block.f.len;
    for row in 0..rows {
        let start = w * row as usize;
        let first = Counts {
            x: block.x.from,
            y: block.y.from + row % block.y.len,
            f: block.f.from + row / block.y.len,
        };
        fill_row(&mut costs[start..start + w], map, sample, first, axis);
    }
}

// Puts a row of numbers into a row of sums, added to those where these are kept.
fn put_row(sums: &mut [u64], more: &[u64], keep: bool)
    requires lengths { length sums.old ≡ length more.now }
    requires fits { (k : ℕ) → k < length sums.old → added keep sums.old more.now k k < 2 ^ 64 }
    ensures { (k : ℕ) → k < length sums.old →
        slice_index sums.new k ≡ added keep sums.old more.now k k }
{
    for k in 0..sums.len() {
        let before = if keep { sums[k] } else { 0 };
        sums[k] = before + more[k];
    }
}

// Puts the first entries of each row of a box of numbers, at the corners of a block, into their sums.
fn put_rows(sums: &mut [u64], corners: Size, block: &Block, more: &[u64], size: Size, keep: bool)
    requires small { IsSmall corners }
    requires inside { HoldsBlock corners block.now }
    requires some { 1 ≤ block.now.x.len }
    requires sums { length sums.old ≡ cell_count corners }
    requires reach { IsSmall size }
    requires more { length more.now ≡ cell_count size }
    requires room { (block.now.x.len ≤ size.w) × (block.now.y.len ≤ size.h)
        × (block.now.f.len ≤ size.f) }
    requires fits { EachOfRows block.now (λ row k.
        added keep sums.old more.now (row_start corners block.now row + k)
        (row_offset size block.now row + k) < 2 ^ 64) }
    ensures put { EachOfRows block.now (λ row k.
        slice_index sums.new (row_start corners block.now row + k)
        ≡ added keep sums.old more.now (row_start corners block.now row + k)
        (row_offset size block.now row + k)) }
    ensures others { SameElsewhere corners block.now sums.old sums.new }
{
    let w = block.x.len as usize;
    let rows = block.y.len * block.f.len;
    for row in 0..rows {
        let (y, f) = (row % block.y.len, row / block.y.len);
        let first = Counts {
            x: block.x.from,
            y: block.y.from + y,
            f: block.f.from + f,
        };
        let to = first.index(corners);
        // The numbers are counted from the block's first cell on.
        let from = Counts { x: 0, y, f }.index(size);
        put_row(&mut sums[to..to + w], &more[from..from + w], keep);
    }
}

// A size with one cell less along an axis.
fn less_one(axis: Axis, size: Size) -> Size
    requires some { HasCells size }
    requires lens { IsLens size }
    ensures less { result ≡ less_one axis size }
    ensures lens { IsLens result }
{
    let mut less = size;
    match axis {
        Axis::X => less.w -= 1,
        Axis::Y => less.h -= 1,
        Axis::F => less.f -= 1,
    }
    less
}

// Puts what the pairs along one axis cost in each window whose corner is in a block into the sums, added to
// those where these are kept.
fn put_axis(
    sums: &mut [u64],
    scratch: &mut [u64],
    map: &Map,
    sample: &Volume,
    window: Size,
    block: &Block,
    axis: Axis,
    keep: bool,
)
    requires window { IsWindow map.now.size window }
    requires some { HasCells (block_size block.now) }
    requires inside { HoldsBlock (corners map.now.size window) block.now }
    requires sums { length sums.old ≡ cell_count (corners map.now.size window) }
    requires scratch { length scratch.old ≡ cell_count map.now.size }
    requires fits { EachOfRows block.now (λ row k.
        number_if keep (slice_index sums.old
        (row_start (corners map.now.size window) block.now row + k)) ≤ 2 ^ 60) }
    ensures put { EachOfRows block.now (λ row k.
        slice_index sums.new (row_start (corners map.now.size window) block.now row + k)
        ≡ number_if keep (slice_index sums.old
        (row_start (corners map.now.size window) block.now row + k))
        + at_row block.now (axis_sum (distance sample.now) (map_at map.now) axis window) row k) }
    ensures small { EachOfRows block.now
        (λ row k. slice_index sums.new (row_start (corners map.now.size window) block.now row + k)
        ≤ number_if keep (slice_index sums.old
        (row_start (corners map.now.size window) block.now row + k)) + most_after_three) }
    ensures others { SameElsewhere (corners map.now.size window) block.now sums.old sums.new }
{
    let output = map.size();
    let less = less_one(axis, window);
    // Where the window has one cell along the axis, it has no such pair.
    if keep && !has_cells(less) {
        return;
    }
    let reach = block.reach(output, window);
    let size = reach.size();
    let costs = &mut scratch[..size.cells()];
    fill(costs, map, sample, &reach, axis);
    sum_boxes(costs, size, less);
    put_rows(sums, corners(output, window), block, costs, size, keep);
}

/// Makes the sums of all windows with a corner in a block those of a map. The scratch memory has as
/// many entries as the map has cells.
pub(crate) fn refresh(
    sums: &mut [u64],
    scratch: &mut [u64],
    map: &Map,
    sample: &Volume,
    window: Size,
    block: &Block,
)
    requires window { IsWindow map.now.size window }
    requires some { HasCells (block_size block.now) }
    requires inside { HoldsBlock (corners map.now.size window) block.now }
    requires sums { length sums.old ≡ cell_count (corners map.now.size window) }
    requires scratch { length scratch.old ≡ cell_count map.now.size }
    ensures put { (x y f : ℕ) → IsInBlock block.now x y f →
        slice_index sums.new (raster_index (corners map.now.size window) x y f) ≡
        window_at (distance sample.now) window (map_at map.now) (spot x y f) }
    ensures others { (i : ℕ) → ((x y f : ℕ) → IsInBlock block.now x y f →
        i ≡ raster_index (corners map.now.size window) x y f → ⊥) →
        slice_index sums.new i ≡ slice_index sums.old i }
{
    put_axis(sums, scratch, map, sample, window, block, Axis::X, false);
    put_axis(sums, scratch, map, sample, window, block, Axis::Y, true);
    put_axis(sums, scratch, map, sample, window, block, Axis::F, true);
}
