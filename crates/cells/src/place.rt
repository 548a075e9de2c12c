// Places, sizes and axes.
ghost use Rattle.std.specs.Prelude.{◌≡◌, ◌<◌, ◌+ℤ◌, ◌-ℤ◌, ◌↔◌, FitsSigned, IfSome, IsSome, IsTrue};
ghost use Rattle.std.specs.Int.{w32};
ghost use Rattle.cells.specs.Places.{DifferenceFits, IsSmall, SumFits, cell_count, index_in, minus, on_axis, place_of, plus};
ghost use Rattle.cells.specs.Neighbours.{unit_step};
ghost use Rattle.cells.specs.Boxes.{AxisHolds, HasCells, HoldsBox, IsInBox};

/// A place in a volume: column, row and frame, each counted from 0. Places outside are allowed.
#[derive(Clone, Copy, Drop, PartialEq, Eq)]
pub struct At {
    /// The column, from the left.
    pub x: i32,
    /// The row, from the top.
    pub y: i32,
    /// The frame, from the first.
    pub f: i32,
}

// A sum of two coordinates, apart so that the check adds two numbers and not three pairs of them.
pub(crate) fn sum_of(a: i32, b: i32) -> i32
    requires { FitsSigned w32 (a +ℤ b) }
    ensures { result ≡ a +ℤ b }
{
    a + b
}

// A difference of two coordinates, apart for the same reason.
fn difference_of(a: i32, b: i32) -> i32
    requires { FitsSigned w32 (a -ℤ b) }
    ensures { result ≡ a -ℤ b }
{
    a - b
}

impl At {
    /// The place that is as far from this one as `by` is from the first cell.
    pub fn plus(self, by: At) -> At
        requires { SumFits self by }
        ensures { result ≡ plus self by }
    {
        At {
            x: sum_of(self.x, by.x),
            y: sum_of(self.y, by.y),
            f: sum_of(self.f, by.f),
        }
    }

    /// The place from which this one is as far as `by` is from the first cell.
    pub fn minus(self, by: At) -> At
        requires { DifferenceFits self by }
        ensures { result ≡ minus self by }
    {
        At {
            x: difference_of(self.x, by.x),
            y: difference_of(self.y, by.y),
            f: difference_of(self.f, by.f),
        }
    }
}

/// The size of a volume or a box, in cells on each axis. A picture has one frame.
#[derive(Clone, Copy, Drop, PartialEq, Eq)]
pub struct Size {
    /// The width: how many columns.
    pub w: u32,
    /// The height: how many rows.
    pub h: u32,
    /// How many frames.
    pub f: u32,
}

impl Size {
    /// How many cells there are.
    pub fn cells(self) -> usize
        requires { IsSmall self }
        ensures { result ≡ cell_count self }
    {
        self.w as usize * (self.h as usize * self.f as usize)
    }

    /// The index of a place in raster order, from 0: x runs fastest, then y, then f. None outside.
    pub fn index_of(self, at: At) -> Option<usize>
        requires { IsSmall self }
        ensures index { result ≡ index_in self at }
        ensures below { IfSome result (λ i. i < cell_count self) }
    {
        // A coordinate below 0 is past any axis as a number of 32 bits without a sign.
        let x = at.x.cast_unsigned();
        let y = at.y.cast_unsigned();
        let f = at.f.cast_unsigned();
        if x >= self.w || y >= self.h || f >= self.f {
            return None;
        }
        Some(x as usize + self.w as usize * (y as usize + self.h as usize * f as usize))
    }

    /// The place at an index in raster order.
    pub fn place_at(self, i: usize) -> At
        requires small { IsSmall self }
        requires below { i < cell_count self }
        ensures { result ≡ place_of self i }
    {
        let i = i as u32;
        At {
            x: (i % self.w) as i32,
            y: (i / self.w % self.h) as i32,
            f: (i / self.w / self.h) as i32,
        }
    }
}

/// The axes of a volume: columns, rows, frames.
#[derive(Clone, Copy, Drop, PartialEq, Eq)]
pub enum Axis {
    /// From column to column.
    X,
    /// From row to row.
    Y,
    /// From frame to frame.
    F,
}

impl Axis {
    /// One cell along the axis.
    pub fn unit(self) -> At
        ensures { result ≡ unit_step self }
    {
        match self {
            Axis::X => At { x: 1, y: 0, f: 0 },
            Axis::Y => At { x: 0, y: 1, f: 0 },
            Axis::F => At { x: 0, y: 0, f: 1 },
        }
    }
}

/// The cells from a corner on, as far as a size goes.
#[derive(Clone, Copy, Drop, PartialEq, Eq)]
pub struct Box3 {
    /// The first cell in raster order: the least column, row and frame.
    pub corner: At,
    /// How many cells from there on, on each axis.
    pub size: Size,
}

// Whether a coordinate lies on a run of cells along one axis.
fn is_on_run(corner: i32, len: u32, z: i32) -> bool
    ensures { IsTrue result ↔ IsSome (on_axis len (z -ℤ corner)) }
{
    let step = i64::from(z) - i64::from(corner);
    0 <= step && step < i64::from(len)
}

// Whether a run of cells along one axis lies within it.
fn axis_holds(n: u32, corner: i32, len: u32) -> bool
    ensures { IsTrue result ↔ AxisHolds n corner len }
{
    0 <= corner && i64::from(corner) + i64::from(len) <= i64::from(n)
}

impl Box3 {
    /// Whether a place is one of the box's.
    pub fn contains(&self, p: At) -> bool
        ensures { IsTrue result ↔ IsInBox self.now p }
    {
        is_on_run(self.corner.x, self.size.w, p.x)
            && is_on_run(self.corner.y, self.size.h, p.y)
            && is_on_run(self.corner.f, self.size.f, p.f)
    }

    // Whether the box has a cell.
    pub(crate) fn has_cells(&self) -> bool
        ensures { IsTrue result ↔ HasCells self.now.size }
    {
        self.size.w > 0 && self.size.h > 0 && self.size.f > 0
    }

    // Whether the box lies inside a size on each axis.
    pub(crate) fn lies_in(&self, size: Size) -> bool
        ensures { IsTrue result ↔ HoldsBox size self.now.corner self.now.size }
    {
        axis_holds(size.w, self.corner.x, self.size.w)
            && axis_holds(size.h, self.corner.y, self.size.h)
            && axis_holds(size.f, self.corner.f, self.size.f)
    }
}

/// The filter of frame distances, which compares the frames around two frames too (the binomial
/// filters of Schödl et al. 2000).
#[derive(Clone, Copy, Drop, PartialEq, Eq)]
pub enum Taps {
    /// No filter.
    None0,
    /// Two frames, of weights 1 and 1.
    Two,
    /// Four frames, of weights 1, 3, 3 and 1.
    Four,
}
