// A choice over a box that may pass the edge, put into the output.
ghost use Rattle.std.specs.Prelude.{◌≡◌, ◌≤◌, ◌<◌, ◌≤ℤ◌, ◌+ℤ◌, pos, true, false, length};
ghost use Rattle.cells.specs.declared.place.Size.{Size};
ghost use Rattle.cells.specs.Places.{cell_count, place_of, plus};
ghost use Rattle.map_canvas.specs.Canvases.{IsCanvas, StandsOver};
ghost use Rattle.map_canvas.specs.Choices.{Fits};
ghost use Rattle.torus.specs.Filling.{IsNamedAt};
ghost use Rattle.torus.specs.Tiles.{IsAfterAround, Takes, small_placement};
ghost use Rattle.torus.specs.Wraps.{around, around_axis};

use crate::around::around_axis;
use crate::small::name_cell;
use cells::{At, Volume};
use job_words::Wrap;
use limits::GREATEST_AXIS;
use map_canvas::laws::new_sources;
use map_canvas::{Canvas, Placement};

// The coordinate so far from a corner, on an axis that may be wrapped.
fn coordinate_at(wrapped: bool, n: u32, corner: i32, step: i32) -> i32
    requires { (pos 0 ≤ℤ corner) × (corner ≤ℤ pos GREATEST_AXIS)
        × (pos 0 ≤ℤ step) × (step ≤ℤ pos GREATEST_AXIS) × (n ≤ GREATEST_AXIS) }
    ensures { result ≡ around_axis wrapped n (corner +ℤ step) }
{
    around_axis(wrapped, n, corner + step)
}

// Puts in what a choice says of the box's cell at an index.
fn put_at(
    canvas: &mut Canvas,
    sample: &Volume,
    wrap: &Wrap,
    placement: &Placement,
    new: bool,
    i: usize,
)
    requires stands { StandsOver canvas.old sample.now }
    requires takes { Takes wrap.now canvas.old.map.size placement.now.rect }
    requires fits { (output : Size)
        × Fits output sample.now (small_placement wrap.now placement.now) }
    requires below { i < cell_count placement.now.rect.size }
    ensures new { new ≡ true → IsNamedAt canvas.old.map
        (around wrap.now canvas.old.map.size
        (plus placement.now.rect.corner (place_of placement.now.rect.size i)))
        (plus placement.now.from (place_of placement.now.rect.size i)) canvas.new.map }
    ensures old { new ≡ false → canvas.new.map ≡ canvas.old.map }
    ensures stands { StandsOver canvas.new sample.now }
    ensures canvas { IsCanvas canvas.new }
{
    // Called for their contracts only: they show the prover that there are a map and a volume, and
    // new sources.
    let size = canvas.map().size();
    let _samples = sample.samples();
    new_sources();
    if new {
        let step = placement.rect.size.place_at(i);
        let corner = placement.rect.corner;
        let p = At {
            x: coordinate_at(wrap.x, size.w, corner.x, step.x),
            y: coordinate_at(wrap.y, size.h, corner.y, step.y),
            f: coordinate_at(wrap.f, size.f, corner.f, step.f),
        };
        let from = placement.from.plus(step);
        name_cell(canvas, sample, p, from);
    }
}

/// Puts in a choice over a box that may pass the edges of wrapped axes. It takes no memory.
pub fn put_around(
    canvas: &mut Canvas,
    sample: &Volume,
    wrap: &Wrap,
    placement: &Placement,
    choice: &[bool],
)
    requires stands { StandsOver canvas.old sample.now }
    requires takes { Takes wrap.now canvas.old.map.size placement.now.rect }
    requires fits { (output : Size)
        × Fits output sample.now (small_placement wrap.now placement.now) }
    requires choices { length choice.now ≡ cell_count placement.now.rect.size }
    ensures after { IsAfterAround canvas.old.map wrap.now placement.now choice.now canvas.new.map }
    ensures stands { StandsOver canvas.new sample.now }
    ensures canvas { IsCanvas canvas.new }
{
    // Called for its contract only: it shows the prover that there is a map.
    let _map = canvas.map().size();
    for i in 0..choice.len() {
        put_at(canvas, sample, wrap, placement, choice[i], i);
    }
}
