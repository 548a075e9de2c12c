// Whether marks are those of cells that may be held.
ghost use Rattle.std.specs.Prelude.{◌≡◌, ◌≤◌, ◌↔◌, ◌+ℤ◌, IfSome, IsTrue, MatchOption, pos, option_copied, true};
ghost use Rattle.cells.specs.Boxes.{HasCells, cell_in};
ghost use Rattle.cells.specs.Places.{IsInside, IsSmall, cell_count};
ghost use Rattle.map_canvas.specs.Maps.{IsFilled};
ghost use Rattle.costs.specs.Intersections.{IsOn};
ghost use Rattle.costs.specs.Lawful.{AreMarks};

use boxes::Counts;
use cells::{At, Box3, Size};
use limits::GREATEST_AXIS;
use map_canvas::{Canvas, Placement};

// Whether a size has so many cells.
fn has_count(size: Size, n: usize) -> bool
    ensures { IsTrue result ↔ (n ≡ cell_count size) }
{
    let rows = u64::from(size.h) * u64::from(size.f);
    match u64::from(size.w).checked_mul(rows) {
        Some(count) => count == n as u64,
        None => false,
    }
}

// The coordinate so many cells from a corner on, where it is on an axis.
fn coordinate_on(n: u32, corner: i32, count: u32) -> Option<i32>
    requires { n ≤ GREATEST_AXIS }
    ensures { MatchOption result (IsOn n (corner +ℤ pos count) → ⊥) (λ z. z ≡ corner +ℤ pos count) }
{
    let z = i64::from(corner) + i64::from(count);
    if 0 <= z && z < i64::from(n) {
        Some(z as i32)
    } else {
        None
    }
}

// The cell of a box, where it lies in a size.
fn cell_on(size: Size, rect: &Box3, at: Counts) -> Option<At>
    requires { IsSmall size }
    ensures { MatchOption result (IsInside size (cell_in rect.now at.x at.y at.f) → ⊥)
        (λ p. p ≡ cell_in rect.now at.x at.y at.f) }
{
    Some(At {
        x: coordinate_on(size.w, rect.corner.x, at.x)?,
        y: coordinate_on(size.h, rect.corner.y, at.y)?,
        f: coordinate_on(size.f, rect.corner.f, at.f)?,
    })
}

// Whether the cell of a box is filled.
fn is_filled_at(canvas: &Canvas, rect: &Box3, at: Counts) -> bool
    ensures { IsTrue result ↔ IsFilled canvas.now.map (cell_in rect.now at.x at.y at.f) }
{
    match cell_on(canvas.map().size(), rect, at) {
        Some(p) => canvas.is_filled(p),
        None => false,
    }
}

/// Whether there is a mark for each cell of a placement's box, in raster order, and each marked cell is
/// filled; true where there are no marks. Calls that hold cells ask for such marks. It takes no memory.
pub fn are_marks(canvas: &Canvas, placement: &Placement, held: Option<&[bool]>) -> bool
    requires { HasCells placement.now.rect.size }
    ensures { IsTrue result ↔ IfSome (option_copied held.entry)
        (AreMarks canvas.now.map placement.now) }
{
    let Some(marks) = held else {
        return true;
    };
    let size = placement.rect.size;
    if !has_count(size, marks.len()) {
        return false;
    }
    let mut at = Counts::first();
    for i in 0..marks.len() {
        if marks[i] && !is_filled_at(canvas, &placement.rect, at) {
            return false;
        }
        at = at.next(size);
    }
    true
}
