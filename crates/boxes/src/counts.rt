// The cells of a box by their counts from its corner.
ghost use Rattle.std.specs.Prelude.{◌≡◌, ◌<◌, ◌≤◌, ◌+◌, ◌<ℤ◌, ◌≤ℤ◌, ◌↔◌, ℕ, pos, IsTrue};
ghost use Rattle.cells.specs.declared.place.Box3.{Box3};
ghost use Rattle.cells.specs.declared.place.Size.{Size};
ghost use Rattle.cells.specs.Boxes.{HasCells, HoldsBox, cell_in};
ghost use Rattle.cells.specs.Neighbours.{unit_step};
ghost use Rattle.cells.specs.Places.{IsSmall, cell_count, plus, raster_index, spot};
ghost use Rattle.boxes.specs.Pairs.{AreCounts, IsPair, has_next, pairs_from};
ghost use Rattle.boxes.specs.Raster.{largest, stride};
ghost use Rattle.boxes.specs.Walks.{IsAtIndex};

use cells::{At, Axis, Box3, Size};
use limits::GREATEST_AXIS;

/// A cell of a box, by how far it is from the box's corner on each axis.
#[derive(Clone, Copy, Drop)]
pub struct Counts {
    /// The column, from the box's left.
    pub x: u32,
    /// The row, from the box's top.
    pub y: u32,
    /// The frame, from the box's first.
    pub f: u32,
}

impl Counts {
    /// Those of the corner, with which a walk begins.
    pub fn first() -> Counts
        ensures first { result ≡ record { x = 0; y = 0; f = 0 } }
        ensures index { (size : Size) → HasCells size →
            IsAtIndex size 0 result.x result.y result.f }
    {
        Counts { x: 0, y: 0, f: 0 }
    }

    /// The place as far from the first cell.
    pub fn place(self) -> At
        requires { (self.x ≤ GREATEST_AXIS) × (self.y ≤ GREATEST_AXIS) × (self.f ≤ GREATEST_AXIS) }
        ensures { result ≡ spot self.x self.y self.f }
    {
        At {
            x: self.x as i32,
            y: self.y as i32,
            f: self.f as i32,
        }
    }

    /// The index in raster order.
    pub fn index(self, size: Size) -> usize
        requires small { IsSmall size }
        requires counts { AreCounts size self.x self.y self.f }
        ensures index { result ≡ raster_index size self.x self.y self.f }
        ensures below { result < cell_count size }
    {
        self.x as usize + size.w as usize * (self.y as usize + size.h as usize * self.f as usize)
    }

    /// The cell in the volume that holds the box.
    #[tactic(auto, using(crate::proofs::Cells::cell_fits))]
    pub fn cell(self, rect: &Box3) -> At
        requires inside { HoldsBox largest rect.now.corner rect.now.size }
        requires counts { AreCounts rect.now.size self.x self.y self.f }
        ensures { result ≡ cell_in rect.now self.x self.y self.f }
    {
        rect.corner.plus(self.place())
    }

    /// The next cell in raster order; after the last one, the first cell past the box.
    pub fn next(self, size: Size) -> Counts
        requires { AreCounts size self.x self.y self.f }
        ensures { (i : ℕ) → IsAtIndex size i self.x self.y self.f →
            IsAtIndex size (i + 1) result.x result.y result.f }
    {
        if self.x + 1 < size.w {
            Counts {
                x: self.x + 1,
                y: self.y,
                f: self.f,
            }
        } else if self.y + 1 < size.h {
            Counts {
                x: 0,
                y: self.y + 1,
                f: self.f,
            }
        } else {
            Counts {
                x: 0,
                y: 0,
                f: self.f + 1,
            }
        }
    }

    /// Whether the box has a next cell along an axis.
    pub fn has_next(self, size: Size, axis: Axis) -> bool
        requires { AreCounts size self.x self.y self.f }
        ensures { result ≡ has_next size axis self.x self.y self.f }
    {
        match axis {
            Axis::X => self.x + 1 < size.w,
            Axis::Y => self.y + 1 < size.h,
            Axis::F => self.f + 1 < size.f,
        }
    }

    /// The next cell along an axis, where the box has one.
    pub fn next_along(self, size: Size, axis: Axis) -> Counts
        requires { IsPair size axis self.x self.y self.f }
        ensures counts { AreCounts size result.x result.y result.f }
        ensures next { (rect : Box3) → plus (cell_in rect self.x self.y self.f) (unit_step axis) ≡
            cell_in rect result.x result.y result.f }
        ensures stride { raster_index size result.x result.y result.f ≡
            raster_index size self.x self.y self.f + stride size axis }
    {
        match axis {
            Axis::X => Counts {
                x: self.x + 1,
                ..self
            },
            Axis::Y => Counts {
                y: self.y + 1,
                ..self
            },
            Axis::F => Counts {
                f: self.f + 1,
                ..self
            },
        }
    }

    /// How many pairs the cell is the first of.
    pub fn pairs_from(self, size: Size) -> u32
        requires { AreCounts size self.x self.y self.f }
        ensures { result ≡ pairs_from size self.x self.y self.f }
    {
        u32::from(self.has_next(size, Axis::X))
            + u32::from(self.has_next(size, Axis::Y))
            + u32::from(self.has_next(size, Axis::F))
    }
}

/// Whether a size has a cell.
pub fn has_cells(size: Size) -> bool
    ensures { IsTrue result ↔ HasCells size }
{
    size.w > 0 && size.h > 0 && size.f > 0
}

/// How many cells on in raster order the next cell along an axis comes.
pub fn stride(size: Size, axis: Axis) -> usize
    requires { IsSmall size }
    ensures { result ≡ stride size axis }
{
    match axis {
        Axis::X => 1,
        Axis::Y => size.w as usize,
        Axis::F => size.w as usize * size.h as usize,
    }
}

/// A number as a count of at most n: the nearest one.
pub fn clipped(z: i64, n: u32) -> u32
    ensures most { result ≤ n }
    ensures below { (c : ℕ) → c < result → pos c <ℤ z }
    ensures from { (c : ℕ) → result ≤ c → c < n → z ≤ℤ pos c }
{
    if z <= 0 {
        0
    } else if z >= i64::from(n) {
        n
    } else {
        z as u32
    }
}
