// The window sum of a placement's box after a choice, from the map before it.
ghost use Rattle.std.specs.Prelude.{◌≡◌, ◌≤◌, IfSome, IsTrue, false, slice_index_or};
ghost use Rattle.cells.specs.Distances.{distance};
ghost use Rattle.cells.specs.Places.{raster_index};
ghost use Rattle.cells.specs.Boxes.{cell_in};
ghost use Rattle.map_canvas.specs.Choices.{Fits};
ghost use Rattle.map_canvas.specs.Maps.{IsSource};
ghost use Rattle.boxes.specs.Pairs.{AreCounts};
ghost use Rattle.costs.specs.Choosing.{within_after};
ghost use Rattle.costs.specs.Costs.{most_of_cell, most_of_pair, pair_at, pairs_at};
ghost use Rattle.costs.specs.Lawful.{window_after};

use crate::pairs::seam_of;
use boxes::{Counts, stride};
use cells::{At, Axis, Volume};
use map_canvas::{Canvas, Map, Placement};

// What a choice says of the cell at an index: past its end it says old.
fn is_new(choice: &[bool], i: usize) -> bool
    ensures { result ≡ slice_index_or choice.now i false }
{
    choice.get(i).copied().unwrap_or(false)
}

// The box of a placement after a choice.
#[derive(Drop)]
struct After<'a> {
    map: &'a Map,
    sample: &'a Volume,
    placement: &'a Placement,
    choice: &'a [bool],
    ghost fits: { Fits map.now.size sample.now placement.now },
}

// The source of a cell of the box after a choice, by its counts and its index.
#[inline(always)]
fn source_at(after: &After, at: Counts, i: usize) -> Option<At>
    requires counts { AreCounts after.now.placement.now.rect.size at.x at.y at.f }
    requires index { i ≡ raster_index after.now.placement.now.rect.size at.x at.y at.f }
    ensures source { result ≡ within_after after.now.map.now after.now.placement.now
        after.now.choice.now (cell_in after.now.placement.now.rect at.x at.y at.f) }
    ensures near { IfSome result IsSource }
{
    // Called for their contracts only: they show the prover that there are a map and a volume.
    let _map = after.map.size();
    let _sample = after.sample.samples();
    if is_new(after.choice, i) {
        Some(after.placement.from.plus(at.place()))
    } else {
        after.map.at(at.cell(&after.placement.rect))
    }
}

// Whether a cell of the box has no next one along an axis, or both are new. New sources follow one another as the
// cells do, so that such a pair costs nothing.
#[inline(always)]
fn costs_nothing(after: &After, axis: Axis, at: Counts, i: usize) -> bool
    requires counts { AreCounts after.now.placement.now.rect.size at.x at.y at.f }
    requires index { i ≡ raster_index after.now.placement.now.rect.size at.x at.y at.f }
    ensures { IsTrue result → pair_at (distance after.now.sample.now)
        (within_after after.now.map.now after.now.placement.now after.now.choice.now) axis
        (cell_in after.now.placement.now.rect at.x at.y at.f) ≡ 0 }
{
    // Called for its contract only: it shows the prover that there is a map.
    let _map = after.map.size();
    let size = after.placement.rect.size;
    if !at.has_next(size, axis) {
        return true;
    }
    let _next = at.next_along(size, axis);
    if !is_new(after.choice, i) {
        return false;
    }
    is_new(after.choice, i + stride(size, axis))
}

// The cost of a cell of the box, of source `a`, and the next one along an axis; 0 where there is none.
#[inline(always)]
fn pair_after(after: &After, axis: Axis, at: Counts, i: usize, a: Option<At>) -> u32
    requires counts { AreCounts after.now.placement.now.rect.size at.x at.y at.f }
    requires index { i ≡ raster_index after.now.placement.now.rect.size at.x at.y at.f }
    requires source { a ≡ within_after after.now.map.now after.now.placement.now
        after.now.choice.now (cell_in after.now.placement.now.rect at.x at.y at.f) }
    requires near { IfSome a IsSource }
    ensures cost { result ≡ pair_at (distance after.now.sample.now)
        (within_after after.now.map.now after.now.placement.now after.now.choice.now) axis
        (cell_in after.now.placement.now.rect at.x at.y at.f) }
    ensures small { result ≤ most_of_pair }
{
    // Called for its contract only: it shows the prover that there is a map.
    let _map = after.map.size();
    let size = after.placement.rect.size;
    if !at.has_next(size, axis) {
        return 0;
    }
    let next = at.next_along(size, axis);
    let b = source_at(after, next, i + stride(size, axis));
    seam_of(after.sample, axis, a, b)
}

// The costs of a cell of the box and the next one along each axis. Of most cells no source is read.
fn pairs_after(after: &After, at: Counts, i: usize) -> u32
    requires counts { AreCounts after.now.placement.now.rect.size at.x at.y at.f }
    requires index { i ≡ raster_index after.now.placement.now.rect.size at.x at.y at.f }
    ensures cost { result ≡ pairs_at (distance after.now.sample.now)
        (within_after after.now.map.now after.now.placement.now after.now.choice.now)
        (cell_in after.now.placement.now.rect at.x at.y at.f) }
    ensures small { result ≤ most_of_cell }
{
    if costs_nothing(after, Axis::X, at, i)
        && costs_nothing(after, Axis::Y, at, i)
        && costs_nothing(after, Axis::F, at, i)
    {
        return 0;
    }
    let a = source_at(after, at, i);
    pair_after(after, Axis::X, at, i, a)
        + pair_after(after, Axis::Y, at, i, a)
        + pair_after(after, Axis::F, at, i, a)
}

/// The window sum that the box of a placement would have after a choice: what `window` gives once the
/// choice is put in. Past its end the choice says old. It takes no memory.
pub fn window_after(canvas: &Canvas, sample: &Volume, placement: &Placement, choice: &[bool]) -> u64
    requires fits { Fits canvas.now.map.size sample.now placement.now }
    ensures { result ≡ window_after (distance sample.now) canvas.now.map placement.now choice.now }
{
    let map = canvas.map();
    // Called for its contract only: it shows the prover that there is a map.
    let _map = map.size();
    let after = After {
        map,
        sample,
        placement,
        choice,
    };
    let size = placement.rect.size;
    let mut at = Counts::first();
    let mut sum: u64 = 0;
    for i in 0..size.cells() {
        sum += u64::from(pairs_after(&after, at, i));
        at = at.next(size);
    }
    sum
}
