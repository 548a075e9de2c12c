// Runs of places along X that a box is laid from inside another.
ghost use Rattle.std.specs.Prelude.{◌≡◌, ◌≤◌, ◌<◌, ◌+◌, ◌-ℤ◌, ℕ, IfSome, IsTrue, pos};
ghost use Rattle.cells.specs.Boxes.{AxisHolds, HasCells};
ghost use Rattle.search_squares.specs.Bounds.{IsBoxIn, place_along};

use crate::sums::LANES;
use boxes::has_cells;
use cells::{At, Box3, Size};

/// How many cells there are from a coordinate to one past it or the same; None before it.
pub(crate) fn steps_past(start: i32, z: i32) -> Option<u32>
    ensures { IfSome result (λ steps. z -ℤ start ≡ pos steps) }
{
    let steps = i64::from(z) - i64::from(start);
    if steps < 0 {
        return None;
    }
    Some(steps as u32)
}

/// How many places there are, from one on, that a box of w columns can be laid from before it
/// reaches over the last column of another; at most as many as there are lanes.
pub(crate) fn places_to_end(outer: &Box3, w: u32, from: At) -> u32
    ensures { result ≤ LANES }
{
    let Some(x) = steps_past(outer.corner.x, from.x) else {
        return 0;
    };
    let places = (u64::from(outer.size.w) + 1).saturating_sub(u64::from(x) + u64::from(w));
    if places >= LANES as u64 {
        return LANES as u32;
    }
    places as u32
}

// Whether a run of cells along one axis, and so many after it, lie in another run.
fn axis_holds(start: i32, n: u32, from: i32, len: u32, more: u32) -> bool
    ensures { IsTrue result → AxisHolds n (from -ℤ start) (len + more) }
{
    let Some(x) = steps_past(start, from) else {
        return false;
    };
    u64::from(x) + u64::from(len) + u64::from(more) <= u64::from(n)
}

/// Whether a box of that size, laid from each of n places along X, lies in another box. It has a
/// cell.
pub(crate) fn holds_run(outer: &Box3, inner: Size, from: At, n: u32) -> bool
    ensures some { IsTrue result → HasCells inner }
    ensures inside { IsTrue result → (j : ℕ) → j < n
        → IsBoxIn outer.now (place_along from j) inner }
{
    let (corner, size) = (outer.corner, outer.size);
    if !axis_holds(corner.x, size.w, from.x, inner.w, n.saturating_sub(1)) {
        return false;
    }
    if !axis_holds(corner.y, size.h, from.y, inner.h, 0) {
        return false;
    }
    if !axis_holds(corner.f, size.f, from.f, inner.f, 0) {
        return false;
    }
    has_cells(inner)
}
