// Places of a part, walked in raster order.
ghost use Rattle.std.specs.Prelude.{◌≡◌, ◌≤◌, ◌<◌, ◌+◌, ◌^◌, ℕ};
ghost use Rattle.cells.specs.Places.{spot};
ghost use Rattle.patch_place.specs.Spots.{IsSpotAt};

use cells::{At, Size};

/// The counts of a place, for walks that go on from place to place without a division.
#[derive(Clone, Copy, Drop)]
pub(crate) struct Spot {
    pub(crate) x: u32,
    pub(crate) y: u32,
    pub(crate) f: u32,
}

impl Spot {
    // The place.
    pub(crate) fn place(self) -> At
        requires x { self.x < 2 ^ 31 }
        requires y { self.y < 2 ^ 31 }
        requires f { self.f < 2 ^ 31 }
        ensures { result ≡ spot self.x self.y self.f }
    {
        At {
            x: self.x as i32,
            y: self.y as i32,
            f: self.f as i32,
        }
    }

    // The place so many after this one in raster order, where all places before it are in this one's row; the
    // frames go on without an end.
    pub(crate) fn after(self, size: Size, n: u32) -> Spot
        requires rows { (1 ≤ size.w) × (1 ≤ size.h) }
        requires some { 1 ≤ n }
        requires row { self.x + n ≤ size.w }
        requires x { self.x + n ≤ 2 ^ 31 }
        requires y { self.y < 2 ^ 31 }
        requires f { self.f < 2 ^ 31 }
        ensures { (frames i : ℕ) → IsSpotAt size frames i self
            → IsSpotAt size frames (i + n) result }
    {
        let Spot { x, y, f } = self;
        if x + n < size.w {
            return Spot { x: x + n, y, f };
        }
        if y + 1 < size.h {
            return Spot { x: 0, y: y + 1, f };
        }
        Spot {
            x: 0,
            y: 0,
            f: f + 1,
        }
    }
}
