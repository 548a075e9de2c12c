// A walk over the cells of a box that counts pairs.
ghost use Rattle.std.specs.Prelude.{◌≡◌, ◌+◌, ℕ};
ghost use Rattle.cells.specs.Places.{IsSmall};
ghost use Rattle.boxes.specs.Pairs.{pair_number};
ghost use Rattle.boxes.specs.Walks.{IsWalkAt, IsWalkIn};

use crate::Counts;
use cells::{Axis, Size};

/// A cell of a box to which a walk in raster order has come, and how many pairs the cells before it are the
/// first of.
#[derive(Clone, Copy, Drop)]
pub struct Walk {
    /// The cell.
    pub at: Counts,
    /// How many pairs come before those of the cell: the number of the first of them.
    pub before: u64,
}

impl Walk {
    /// At the next cell in raster order; after the last one, past the box.
    pub fn next(self, size: Size) -> Walk
        requires small { IsSmall size }
        requires inside { IsWalkIn size self }
        ensures { (i : ℕ) → IsWalkAt size i self → IsWalkAt size (i + 1) result }
    {
        Walk {
            at: self.at.next(size),
            before: self.before + u64::from(self.at.pairs_from(size)),
        }
    }

    /// The number of the pair of the cell and the next one along an axis.
    pub fn pair_number(self, size: Size, axis: Axis) -> u64
        requires small { IsSmall size }
        requires inside { IsWalkIn size self }
        ensures { result ≡ pair_number size axis self.at.x self.at.y self.at.f }
    {
        let along_x = u64::from(self.at.has_next(size, Axis::X));
        let along_y = u64::from(self.at.has_next(size, Axis::Y));
        match axis {
            Axis::X => self.before,
            Axis::Y => self.before + along_x,
            Axis::F => self.before + along_x + along_y,
        }
    }
}
