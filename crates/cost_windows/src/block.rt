// Blocks: boxes inside an output, by counts from its first cell. The corners of the windows that a
// change touches are a block, and so are the cells of those windows.
ghost use Rattle.std.specs.Prelude.{◌≡◌, ◌≤◌, ◌+◌, ◌*◌, ℕ};
ghost use Rattle.cells.specs.Boxes.{HasCells};
ghost use Rattle.cells.specs.Places.{IsSmall, cell_count, spot};
ghost use Rattle.boxes.specs.Pairs.{AreCounts};
ghost use Rattle.cost_windows.specs.Slides.{AreOthers, HoldsBlock, IsInBlock, block_size, reach_of, reach_run};
ghost use Rattle.cost_windows.specs.Tables.{IsWindow, Touches, corners};

use boxes::clipped;
use cells::{Box3, Size};
use limits::GREATEST_AXIS;

/// A run of cells along one axis.
#[derive(Clone, Copy, Drop)]
pub(crate) struct Run {
    /// The first, counted from the first of the axis.
    pub from: u32,
    /// How many.
    pub len: u32,
}

impl Run {
    // The cells of all windows, of a length, that begin here.
    fn reach(self, window: u32) -> Run
        requires { (1 ≤ window) × (self.len + window ≤ 2 * GREATEST_AXIS) }
        ensures { result ≡ reach_run window self }
    {
        Run {
            from: self.from,
            len: self.len + window - 1,
        }
    }
}

/// The cells whose counts lie on three runs.
#[derive(Clone, Copy, Drop)]
pub(crate) struct Block {
    /// The columns.
    pub x: Run,
    /// The rows.
    pub y: Run,
    /// The frames.
    pub f: Run,
}

// The corners on one axis, of so many, whose windows may meet a run of cells: each other one's window
// ends before the run or begins after it.
fn touched_run(count: u32, window: u32, from: i32, len: u32) -> Run
    requires { count ≤ GREATEST_AXIS }
    ensures inside { result.from + result.len ≤ count }
    ensures others { AreOthers count window from len result }
{
    let start = i64::from(from);
    let first = clipped(start - i64::from(window) + 1, count);
    let end = clipped(start + i64::from(len), count);
    Run {
        from: first,
        len: end.saturating_sub(first),
    }
}

/// How many corners a window may have in an output, on each axis.
pub(crate) fn corners(output: Size, window: Size) -> Size
    requires small { IsSmall output }
    requires window { IsWindow output window }
    ensures corners { result ≡ corners output window }
    ensures small { IsSmall result }
{
    Size {
        w: output.w + 1 - window.w,
        h: output.h + 1 - window.h,
        f: output.f + 1 - window.f,
    }
}

impl Block {
    /// The block of all cells of a size.
    pub(crate) fn whole(size: Size) -> Block
        ensures inside { HoldsBlock size result }
        ensures size { block_size result ≡ size }
        ensures each { (x y f : ℕ) → AreCounts size x y f → IsInBlock result x y f }
    {
        Block {
            x: Run {
                from: 0,
                len: size.w,
            },
            y: Run {
                from: 0,
                len: size.h,
            },
            f: Run {
                from: 0,
                len: size.f,
            },
        }
    }

    /// The corners, of windows of one size, whose windows may touch a box: no other corner's does.
    pub(crate) fn touched(corners: Size, window: Size, changed: &Box3) -> Block
        requires { IsSmall corners }
        ensures inside { HoldsBlock corners result }
        ensures others { (x y f : ℕ) → AreCounts corners x y f → (IsInBlock result x y f → ⊥) →
            Touches window changed.now (spot x y f) → ⊥ }
    {
        let from = changed.corner;
        let size = changed.size;
        Block {
            x: touched_run(corners.w, window.w, from.x, size.w),
            y: touched_run(corners.h, window.h, from.y, size.h),
            f: touched_run(corners.f, window.f, from.f, size.f),
        }
    }

    /// How many cells there are on each axis.
    pub(crate) fn size(&self) -> Size
        ensures { result ≡ block_size self.now }
    {
        Size {
            w: self.x.len,
            h: self.y.len,
            f: self.f.len,
        }
    }

    /// The cells of all windows whose corners, in an output, are here.
    pub(crate) fn reach(&self, output: Size, window: Size) -> Block
        requires small { IsSmall output }
        requires window { IsWindow output window }
        requires some { HasCells (block_size self.now) }
        requires inside { HoldsBlock (corners output window) self.now }
        ensures reach { result ≡ reach_of window self.now }
        ensures inside { HoldsBlock output result }
        ensures small { IsSmall (block_size result) }
        ensures count { cell_count (block_size result) ≤ cell_count output }
    {
        Block {
            x: self.x.reach(window.w),
            y: self.y.reach(window.h),
            f: self.f.reach(window.f),
        }
    }
}
