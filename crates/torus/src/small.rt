// The small canvas of a box.
ghost use Rattle.std.specs.Prelude.{◌≡◌, ◌≤◌, ◌<◌, ◌≤ℤ◌, ◌<ℤ◌, ◌+ℤ◌, ◌-ℤ◌, ◌+◌, pos, IfOk, Some, None};
ghost use Rattle.cells.specs.Cells.{HasCell};
ghost use Rattle.cells.specs.Places.{IsInside, IsSmall, cell_count};
ghost use Rattle.boxes.specs.Pairs.{one_if};
ghost use Rattle.map_canvas.specs.Canvases.{IsCanvas, StandsOver};
ghost use Rattle.torus.specs.Tiles.{IsSmallMap, Takes, has_before, small_axis, small_box, small_size};
ghost use Rattle.torus.specs.Wraps.{around_axis};
ghost use Rattle.torus.specs.Filling.{IsFilledTo, IsNamedAt};

use crate::around::around_axis;
use cells::{At, Box3, Size, Volume};
use job_words::Wrap;
use limits::GREATEST_AXIS;
use map_canvas::{Canvas, Placement};
use std::alloc::{AllocError, Global};

// How many cells the small canvas has before the box on an axis.
fn before(wrapped: bool, corner: i32) -> u32
    ensures is { result ≡ one_if (has_before wrapped corner) }
    ensures few { result ≤ 1 }
{
    if wrapped || corner > 0 { 1 } else { 0 }
}

// How many it has on an axis.
fn small_axis(wrapped: bool, n: u32, corner: i32, len: u32) -> u32
    requires { (pos 0 ≤ℤ corner) × (corner ≤ℤ pos GREATEST_AXIS) × (len ≤ GREATEST_AXIS) }
    ensures { result ≡ small_axis wrapped n corner len }
{
    let after = if wrapped || corner as u32 + len < n {
        1
    } else {
        0
    };
    before(wrapped, corner) + (len + after)
}

/// Where a box of the output lies in its small canvas.
pub fn small_box(wrap: &Wrap, rect: &Box3) -> Box3
    ensures { result ≡ small_box wrap.now rect.now }
{
    let corner = At {
        x: before(wrap.x, rect.corner.x) as i32,
        y: before(wrap.y, rect.corner.y) as i32,
        f: before(wrap.f, rect.corner.f) as i32,
    };
    Box3 {
        corner,
        size: rect.size,
    }
}

// The output's coordinate of one of the small canvas.
fn coordinate(wrapped: bool, n: u32, corner: i32, z: i32) -> i32
    requires { (pos 0 ≤ℤ corner) × (corner ≤ℤ pos GREATEST_AXIS)
        × (pos 0 ≤ℤ z) × (z <ℤ pos GREATEST_AXIS) × (n ≤ GREATEST_AXIS) }
    ensures { result ≡ around_axis wrapped n
        (corner +ℤ (z -ℤ pos (one_if (has_before wrapped corner)))) }
{
    let step = z - before(wrapped, corner) as i32;
    around_axis(wrapped, n, corner + step)
}

// Names a source for one cell of a canvas that has none.
pub(crate) fn name_cell(small: &mut Canvas, sample: &Volume, p: At, from: At)
    requires stands { StandsOver small.old sample.now }
    requires inside { IsInside small.old.map.size p }
    requires source { HasCell sample.now from }
    ensures named { IsNamedAt small.old.map p from small.new.map }
    ensures stands { StandsOver small.new sample.now }
    ensures canvas { IsCanvas small.new }
{
    let placement = Placement {
        rect: Box3 {
            corner: p,
            size: Size { w: 1, h: 1, f: 1 },
        },
        from,
    };
    small.put_choice(sample, &placement, &[true]);
}

// Fills the cell of an index as the output's cell is.
fn fill_at(small: &mut Canvas, canvas: &Canvas, sample: &Volume, wrap: &Wrap, rect: &Box3, i: usize)
    requires over { StandsOver canvas.now sample.now }
    requires takes { Takes wrap.now canvas.now.map.size rect.now }
    requires stands { StandsOver small.old sample.now }
    requires filled { IsFilledTo canvas.now.map wrap.now rect.now i small.old.map }
    requires below { i < cell_count small.old.map.size }
    ensures filled { IsFilledTo canvas.now.map wrap.now rect.now (i + 1) small.new.map }
    ensures stands { StandsOver small.new sample.now }
    ensures canvas { IsCanvas small.new }
{
    let p = small.map().size().place_at(i);
    let size = canvas.map().size();
    let at = At {
        x: coordinate(wrap.x, size.w, rect.corner.x, p.x),
        y: coordinate(wrap.y, size.h, rect.corner.y, p.y),
        f: coordinate(wrap.f, size.f, rect.corner.f, p.f),
    };
    match canvas.map().at(at) {
        Some(from) => name_cell(small, sample, p, from),
        None => {}
    }
}

/// The canvas of the cells of a box, which may pass the edges of wrapped axes, and of one cell more on each side
/// where the output has one. Each has the output's source, or none where the output's cell has none.
pub fn small_canvas(
    alloc: Global,
    canvas: &Canvas,
    sample: &Volume,
    wrap: &Wrap,
    rect: &Box3,
) -> Result<Canvas, AllocError>
    requires over { StandsOver canvas.now sample.now }
    requires takes { Takes wrap.now canvas.now.map.size rect.now }
    requires small { IsSmall (small_size wrap.now canvas.now.map.size rect.now) }
    ensures small { IfOk result (λ small. IsSmallMap canvas.now.map wrap.now rect.now small.map) }
    ensures stands { IfOk result (λ small. StandsOver small sample.now) }
    ensures canvas { IfOk result IsCanvas }
{
    let whole = canvas.map().size();
    let size = Size {
        w: small_axis(wrap.x, whole.w, rect.corner.x, rect.size.w),
        h: small_axis(wrap.y, whole.h, rect.corner.y, rect.size.h),
        f: small_axis(wrap.f, whole.f, rect.corner.f, rect.size.f),
    };
    let mut small = Canvas::empty(alloc, size, sample.samples())?;
    for i in 0..size.cells() {
        fill_at(&mut small, canvas, sample, wrap, rect, i);
    }
    Ok(small)
}
