// The two sides of a block on which it may have a strip.
ghost use Rattle.std.specs.Prelude.{◌≡◌};
ghost use Rattle.block_strips.specs.Blocks.{shared_cols};
ghost use Rattle.block_strips.specs.Strips.{row_on, strip_rows};

use crate::QuiltPlan;
use crate::blocks::shared_on;
use cells::{Box3, Size};

/// A side of a block.
#[derive(Clone, Copy, Drop)]
pub enum Side {
    /// The left side: a strip row is a row of the block, a strip column a column.
    Left,
    /// The top: a strip row is a column of the block, a strip column a row.
    Top,
}

impl Side {
    /// How many strip rows a strip on this side has, in a block of that size.
    pub fn rows(self, size: Size) -> u32
        ensures { result ≡ strip_rows self size }
    {
        match self {
            Side::Left => size.h,
            Side::Top => size.w,
        }
    }

    /// The strip row of a cell of the block, by its column and row.
    pub fn row(self, x: u32, y: u32) -> u32
        ensures { result ≡ row_on self x y }
    {
        match self {
            Side::Left => y,
            Side::Top => x,
        }
    }

    /// How many strip columns a block of a plan has on this side; none where it begins at the output's border.
    pub fn shared(self, plan: &QuiltPlan, output: Size, part: Size, rect: &Box3) -> u32
        ensures { result ≡ shared_cols self plan.now output part rect.now }
    {
        match self {
            Side::Left => shared_on(output.w, part.w, plan, rect.corner.x),
            Side::Top => shared_on(output.h, part.h, plan, rect.corner.y),
        }
    }
}
