// The number of a pair in closed form, axis by axis: a walk may ask for any pair's, with no list of them.
ghost use Rattle.std.specs.Prelude.{◌≡◌, ◌≤◌, ◌+◌, ◌-◌, ◌*◌, ◌^◌, nat_lt, if◌then◌else◌};
ghost use Rattle.cells.specs.Places.{IsSmall, raster_index};
ghost use Rattle.boxes.specs.Pairs.{AreCounts, pair_count, pair_number, pairs_before};
ghost use Rattle.boxes.specs.Walks.{IsWalkIn};

use crate::{Counts, Walk};
use cells::{Axis, Size};

// How many pairs along Y the cells before a cell are the first of: each row but a frame's last has one for
// each column.
fn pairs_along_y(size: Size, at: Counts) -> u64
    requires small { IsSmall size }
    requires counts { AreCounts size at.x at.y at.f }
    ensures is { result ≡ size.w * (at.y + (size.h - 1) * at.f) +
        (if nat_lt (at.y + 1) size.h then at.x else 0) }
    ensures few { result ≤ 2 ^ 37 }
{
    let w = u64::from(size.w);
    let h = u64::from(size.h);
    let here = if at.y + 1 < size.h { at.x } else { 0 };
    w * (u64::from(at.y) + (h - 1) * u64::from(at.f)) + u64::from(here)
}

// The same along F: each cell of a frame but the last has one.
fn pairs_along_f(size: Size, at: Counts) -> u64
    requires small { IsSmall size }
    requires counts { AreCounts size at.x at.y at.f }
    ensures is { result ≡ (if nat_lt (at.f + 1) size.f then at.x + size.w * (at.y + size.h * at.f)
        else size.w * (size.h * (size.f - 1))) }
    ensures few { result ≤ 2 ^ 37 }
{
    let w = u64::from(size.w);
    let h = u64::from(size.h);
    if at.f + 1 < size.f {
        u64::from(at.x) + w * (u64::from(at.y) + h * u64::from(at.f))
    } else {
        w * (h * (u64::from(size.f) - 1))
    }
}

impl Counts {
    /// How many pairs the cells before this one are the first of.
    pub fn pairs_before(self, size: Size) -> u64
        requires small { IsSmall size }
        requires counts { AreCounts size self.x self.y self.f }
        ensures before { result ≡ pairs_before size (raster_index size self.x self.y self.f) }
        ensures few { result ≤ 2 ^ 39 }
    {
        // Each row has one pair fewer along X than it has cells.
        let rows = u64::from(self.y) + u64::from(size.h) * u64::from(self.f);
        let along_x = (u64::from(size.w) - 1) * rows + u64::from(self.x);
        along_x + pairs_along_y(size, self) + pairs_along_f(size, self)
    }

    /// At this cell, with no walk to it.
    pub fn walk(self, size: Size) -> Walk
        requires small { IsSmall size }
        requires counts { AreCounts size self.x self.y self.f }
        ensures at { result.at ≡ self }
        ensures inside { IsWalkIn size result }
    {
        Walk {
            at: self,
            before: self.pairs_before(size),
        }
    }

    /// The number of the pair of this cell and the next one along an axis.
    pub fn pair_number(self, size: Size, axis: Axis) -> u64
        requires small { IsSmall size }
        requires counts { AreCounts size self.x self.y self.f }
        ensures { result ≡ pair_number size axis self.x self.y self.f }
    {
        self.walk(size).pair_number(size, axis)
    }
}

/// How many pairs a box has.
#[tactic(auto, using(crate::proofs::PairNumbers::pairs_of_last))]
pub fn pair_count(size: Size) -> u64
    requires { IsSmall size }
    ensures { result ≡ pair_count size }
{
    let last = Counts {
        x: size.w - 1,
        y: size.h - 1,
        f: size.f - 1,
    };
    last.pairs_before(size)
}
