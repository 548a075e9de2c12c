// The box of the next patch.
ghost use Rattle.std.specs.Prelude.{◌≡◌, ◌≤◌, ◌≤ℤ◌, ◌<ℤ◌, pos};
ghost use Rattle.cells.specs.Places.{HasAxes, IsInside};
ghost use Rattle.boxes.specs.Spans.{at_least_0};
ghost use Rattle.torus.specs.Boxes.{tile_box, tile_corner, tile_len};

use crate::around::around_axis;
use boxes::{count_of, patch_corner, patch_len};
use cells::{At, Box3, Size};
use job_words::TilePlan;
use limits::GREATEST_AXIS;

// The length of a patch along an axis of n cells, from a part of so many.
fn tile_len(wrapped: bool, n: u32, part: u32, side: u32) -> u32
    requires { 1 ≤ n }
    ensures is { result ≡ tile_len wrapped n part side }
    ensures within { result ≤ n }
{
    if wrapped {
        side.min(part.min((n - 1).min(GREATEST_AXIS - 2)))
    } else {
        patch_len(n, part, side)
    }
}

// Where it begins, so that it has the coordinate q.
fn tile_corner(wrapped: bool, n: u32, len: u32, overlap: u32, q: i32) -> i32
    requires axis { n ≤ GREATEST_AXIS }
    requires len { len ≤ n }
    requires q { (pos 0 ≤ℤ q) × (q <ℤ pos n) }
    ensures { result ≡ tile_corner wrapped n len overlap (at_least_0 q) }
{
    let shared = overlap.min(len.saturating_sub(1));
    if wrapped {
        around_axis(true, n, q - shared as i32)
    } else {
        patch_corner(n, len, overlap, count_of(q)) as i32
    }
}

/// The box that the patch for a cell q goes to, of an output and a part of these sizes. On a wrapped axis it may
/// begin in the output and pass its edge.
pub fn tile_box(plan: &TilePlan, output: Size, part: Size, q: At) -> Box3
    requires output { HasAxes output }
    requires inside { IsInside output q }
    ensures { result ≡ tile_box plan.now output part q }
{
    let size = Size {
        w: tile_len(plan.wrap.x, output.w, part.w, plan.side),
        h: tile_len(plan.wrap.y, output.h, part.h, plan.side),
        f: tile_len(plan.wrap.f, output.f, part.f, plan.side),
    };
    let corner = At {
        x: tile_corner(plan.wrap.x, output.w, size.w, plan.overlap, q.x),
        y: tile_corner(plan.wrap.y, output.h, size.h, plan.overlap, q.y),
        f: tile_corner(plan.wrap.f, output.f, size.f, plan.overlap, q.f),
    };
    Box3 { corner, size }
}
