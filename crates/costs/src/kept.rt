// Whether a cell of a box is kept. Most cells of a box have all their neighbours in it.
ghost use Rattle.std.specs.Prelude.{◌≡◌, ◌<◌, ◌↔◌, IsTrue};
ghost use Rattle.cells.specs.Boxes.{AxisHolds, HoldsBox, cell_in};
ghost use Rattle.map_canvas.specs.Canvases.{IsKept};
ghost use Rattle.boxes.specs.Pairs.{AreCounts};
ghost use Rattle.costs.specs.Enclosures.{IsEnclosed, IsEnclosedAlong};

use boxes::Counts;
use cells::{At, Box3, Size};
use map_canvas::Canvas;

// Whether both neighbours of a cell along an axis of n cells are in its box or off the axis.
fn is_enclosed_along(n: u32, corner: i32, len: u32, count: u32) -> bool
    requires holds { AxisHolds n corner len }
    requires below { count < len }
    ensures { IsTrue result → IsEnclosedAlong n corner len count }
{
    (count > 0 || corner == 0) && (count + 1 < len || corner as u32 + len == n)
}

// Whether all neighbours of a cell are in its box or outside the output.
fn is_enclosed(output: Size, rect: &Box3, at: Counts) -> bool
    requires holds { HoldsBox output rect.now.corner rect.now.size }
    requires counts { AreCounts rect.now.size at.x at.y at.f }
    ensures { IsTrue result → IsEnclosed output rect.now at.x at.y at.f }
{
    if !is_enclosed_along(output.w, rect.corner.x, rect.size.w, at.x) {
        return false;
    }
    if !is_enclosed_along(output.h, rect.corner.y, rect.size.h, at.y) {
        return false;
    }
    is_enclosed_along(output.f, rect.corner.f, rect.size.f, at.f)
}

/// Whether a cell of a box is kept, by its counts. Where all its neighbours are in the box or outside the
/// output, it isn't, whatever is filled.
#[inline(always)]
pub fn is_kept_at(canvas: &Canvas, rect: &Box3, at: Counts, p: At) -> bool
    requires holds { HoldsBox canvas.now.map.size rect.now.corner rect.now.size }
    requires counts { AreCounts rect.now.size at.x at.y at.f }
    requires cell { p ≡ cell_in rect.now at.x at.y at.f }
    ensures { IsTrue result ↔ IsKept canvas.now.map rect.now p }
{
    if is_enclosed(canvas.map().size(), rect, at) {
        return false;
    }
    canvas.is_kept(rect, p)
}
