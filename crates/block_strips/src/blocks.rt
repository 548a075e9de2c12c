// Where the next block is laid.
ghost use Rattle.std.specs.Prelude.{◌≡◌, ◌≤◌, ◌<◌, ◌↔◌, IfSome, None};
ghost use Rattle.cells.specs.Cells.{IsOnePart};
ghost use Rattle.boxes.specs.Spans.{SpanFits};
ghost use Rattle.map_canvas.specs.Maps.{IsFull};
ghost use Rattle.block_strips.specs.Blocks.{FitsBlock, block_len, block_on, box_of, next_box, shared_on};

use crate::QuiltPlan;
use boxes::{Span, count_of, grid_on};
use cells::{At, Box3, Size, Volume};
use limits::GREATEST_AXIS;
use map_canvas::Canvas;

// How long a block is along an axis.
fn block_len(output: u32, part: u32, plan: &QuiltPlan) -> u32
    ensures { result ≡ block_len output part plan.now }
{
    plan.block.min(part.min(output))
}

// Along an axis, the block that has the coordinate q.
fn block_on(output: u32, part: u32, plan: &QuiltPlan, q: u32) -> Span
    requires block { 1 ≤ plan.now.block }
    requires part { 1 ≤ part }
    requires output { output ≤ GREATEST_AXIS }
    requires q { q < output }
    ensures span { result ≡ block_on output part plan.now q }
    ensures fits { SpanFits output (block_len output part plan.now) q result }
{
    grid_on(output, block_len(output, part, plan), plan.overlap, q)
}

// The box of one frame with these spans along X and Y.
fn box_of(x: Span, y: Span) -> Box3
    requires { (x.corner < GREATEST_AXIS) × (y.corner < GREATEST_AXIS) }
    ensures { result ≡ box_of x y }
{
    Box3 {
        corner: At {
            x: x.corner as i32,
            y: y.corner as i32,
            f: 0,
        },
        size: Size {
            w: x.len,
            h: y.len,
            f: 1,
        },
    }
}

/// By how many cells a block that begins at a coordinate overlaps those before it along an axis.
pub(crate) fn shared_on(output: u32, part: u32, plan: &QuiltPlan, corner: i32) -> u32
    ensures { result ≡ shared_on output part plan.now corner }
{
    if count_of(corner) == 0 {
        return 0;
    }
    plan.overlap
        .min(block_len(output, part, plan).saturating_sub(1))
}

/// The box of the next block of a plan: the one that has the first unfilled cell. Blocks of the greatest size
/// that the plan, the output and the sample allow follow one another along X and Y with its overlap, and the
/// last ones end with the output. None where the canvas is full. It takes no memory.
pub fn block_rect(plan: &QuiltPlan, canvas: &Canvas, sample: &Volume) -> Option<Box3>
    requires block { 1 ≤ plan.now.block }
    requires part { IsOnePart sample.now }
    ensures next { result ≡ next_box plan.now canvas.now.map sample.now }
    ensures full { (result ≡ None) ↔ IsFull canvas.now.map }
    ensures fits { IfSome result (FitsBlock canvas.now.map.size sample.now.size) }
{
    let q = canvas.first_unfilled()?;
    let output = canvas.map().size();
    let part = sample.size();
    let x = block_on(output.w, part.w, plan, count_of(q.x));
    let y = block_on(output.h, part.h, plan, count_of(q.y));
    Some(box_of(x, y))
}
